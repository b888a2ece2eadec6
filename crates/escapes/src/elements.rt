// One element of a quoted text: a byte, or an escape with all that belongs to it. After the Rust's `read_string_escape`.
ghost use Rattle.std.specs.Prelude.{◌≡◌, false, [], ◌+◌, ◌≤◌, ◌<◌, length, drop};
ghost use Rattle.laws.specs.Texts.{span};
ghost use Rattle.digits.specs.Hex.{hex_value};
ghost use Rattle.items.specs.Classes.{delim_of, stops_hex};
ghost use Rattle.items.specs.Readers.{scalar_of};
ghost use Rattle.items.specs.Meaning.{unescape, unescape_next, unescape_brace, unescape_hex};
ghost use Rattle.escapes.specs.Elements.{element, closed_hex, is_space, GoesOn, Unescapes};

use crate::{Element, ElementValue};
use byte_runs::{ByteClass, bytes_end, starts_at};
use digits::hex_value;
use items::Quotes;
use spellings::characters::scalar_of;

const ALARM: u8 = 0x07;

const BACKSPACE: u8 = 0x08;

const NULL: u8 = 0x00;

fn give(given: ElementValue, next: usize) -> Element
    ensures { result ≡ element given next }
{
    Element { given, next }
}

// What closes the quotes.
pub(crate) fn delimiter(k: Quotes) -> u8
    ensures { result ≡ delim_of k }
{
    match k {
        Quotes::Double => b'"',
        Quotes::Lines => b'|',
    }
}

// Whether a byte breaks hex digits off before their closer, in either kind of quotes.
fn stops_hex(b: u8) -> bool
    ensures { result ≡ stops_hex b }
{
    match b {
        b';' => true,
        b'\\' => true,
        b'\n' => true,
        b'(' => true,
        b')' => true,
        b'[' => true,
        b']' => true,
        b'{' => true,
        b'}' => true,
        _ => false,
    }
}

// The character of the digits of a hex escape with the place past its closer, or nothing and the end.
fn closed_hex(digits: &[u8], next: usize, end: usize) -> Element
    ensures { result ≡ closed_hex (scalar_of (hex_value digits.now)) next end }
{
    match scalar_of(hex_value(digits)) {
        Ok(c) => give(ElementValue::Code(c), next),
        Err(_) => give(ElementValue::Nothing, end),
    }
}

// A hex escape from its digits on.
fn read_hex(raw: &[u8], from: usize, closer: u8, k: Quotes) -> Element
    requires { from ≤ length raw.now }
    ensures { Unescapes k raw.now (unescape_hex k closer [] (drop from raw.now)) from result }
{
    for i in from..raw.len() {
        let b = raw[i];
        if b == closer {
            return closed_hex(&raw[from..i], i + 1, raw.len());
        }
        if stops_hex(b) {
            return give(ElementValue::Nothing, raw.len());
        }
        if b == delimiter(k) {
            return give(ElementValue::Nothing, raw.len());
        }
    }
    give(ElementValue::Nothing, raw.len())
}

// A hex escape from after its `\u` on.
fn read_brace(raw: &[u8], from: usize, k: Quotes) -> Element
    requires { from ≤ length raw.now }
    ensures { Unescapes k raw.now (unescape_brace k (drop from raw.now)) from result }
{
    if starts_at(raw, from, b'{') {
        return read_hex(raw, from + 1, b'}', k);
    }
    read_hex(raw, from, b';', k)
}

// The bytes that may stand around the newline of a line that goes on: spaces and tabs.
#[derive(Clone, Copy)]
struct Space;

impl ByteClass for Space {
    ghost passes = { λ s c. is_space c };

    fn ends(self, c: u8) -> bool {
        (c != b' ') & (c != b'\t')
    }
}

// The place past the spaces and tabs from a place on.
fn spaces_end(raw: &[u8], from: usize) -> usize
    ensures { result ≡ from + span is_space (drop from raw.now) }
{
    bytes_end(raw, from, Space)
}

// Where a line goes on whose newline is to come: past its spaces and tabs, the newline, and those of the next line.
fn next_line(raw: &[u8], from: usize) -> usize
    requires { from ≤ length raw.now }
    ensures { GoesOn false raw.now from result }
{
    let i = spaces_end(raw, from);
    if starts_at(raw, i, b'\n') {
        return spaces_end(raw, i + 1);
    }
    i
}

// An escape from after its backslash on.
fn read_string_escape(raw: &[u8], from: usize, k: Quotes) -> Element
    requires { from ≤ length raw.now }
    ensures { Unescapes k raw.now (unescape_next k (drop from raw.now)) from result }
{
    if raw.len() <= from {
        return give(ElementValue::Nothing, raw.len());
    }
    let next = from + 1;
    match raw[from] {
        b'"' => give(ElementValue::Byte(b'"'), next),
        b'a' => give(ElementValue::Byte(ALARM), next),
        b'b' => give(ElementValue::Byte(BACKSPACE), next),
        b'\\' => give(ElementValue::Byte(b'\\'), next),
        b'|' => give(ElementValue::Byte(b'|'), next),
        b't' => give(ElementValue::Byte(b'\t'), next),
        b'n' => give(ElementValue::Byte(b'\n'), next),
        b'r' => give(ElementValue::Byte(b'\r'), next),
        b'0' => give(ElementValue::Byte(NULL), next),
        b'x' => read_hex(raw, next, b';', k),
        b'u' => read_brace(raw, next, k),
        b' ' => give(ElementValue::Nothing, next_line(raw, next)),
        b'\t' => give(ElementValue::Nothing, next_line(raw, next)),
        b'\n' => give(ElementValue::Nothing, spaces_end(raw, next)),
        _ => give(ElementValue::Nothing, raw.len()),
    }
}

// The element at a place of a quoted text: a byte, an escape, or the quote that ends it.
pub fn read_element(raw: &[u8], at: usize, k: Quotes) -> Element
    requires { at < length raw.now }
    ensures { Unescapes k raw.now (unescape k (drop at raw.now)) (at + 1) result }
{
    let b = raw[at];
    if b == delimiter(k) {
        return give(ElementValue::Nothing, raw.len());
    }
    if b == b'\\' {
        return read_string_escape(raw, at + 1, k);
    }
    give(ElementValue::Byte(b), at + 1)
}
