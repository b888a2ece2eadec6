// The text of a string or of an identifier in vertical lines, its escapes decoded (document 01, "Rules that bite"; R7RS 7.1.1, <string
// element> and <symbol element>). Reads the bytes of an item whose extent is known, and writes the text into lent memory or counts its
// bytes: what `unescape` of items/specs/Meaning says. Where an escape is wrong the item is an error and has no text. Internal: used by the
// lexer and the pieces.
#![tactic(auto)]

ghost use Rattle.std.specs.Prelude.{◌≡◌, true, ◌+◌, ◌≤◌, length, drop};
ghost use Rattle.laws.specs.Lent.{written};
ghost use Rattle.laws.specs.Quoted.{code};
ghost use Rattle.laws.specs.Texts.{span};
ghost use Rattle.byte_runs.specs.Runs.{plain};
ghost use Rattle.items.specs.Classes.{delim_of};
ghost use Rattle.items.specs.Meaning.{escaped, unescape};
ghost use Rattle.escapes.specs.Elements.{bytes_given, sound};

mod elements;

use crate::elements::{delimiter, read_element};
use byte_runs::{find, plain_end};
use chars::{char_width, put_char};
use items::Quotes;

// What an element of a text gives.
#[derive(Clone, Copy)]
pub enum ElementValue {
    // nothing: a line that goes on
    Nothing,
    // a byte: a, or `\n`
    Byte(u8),
    // a character: `\x3bb;`
    Code(u32),
}

// What an element gives, and the place past it. At the end of the text, and where an escape is wrong, that is nothing and the end of all.
#[derive(Clone, Copy)]
pub struct Element {
    pub given: ElementValue,
    pub next: usize,
}

// Whether there is an escape.
pub fn has_escape(raw: &[u8]) -> bool
    ensures { result ≡ escaped raw.now }
{
    find(raw, 0, b'\\') < raw.len()
}

// What an element gave, at the start of the free text memory, and how many bytes that is.
fn put_given(given: ElementValue, free: &mut [u8]) -> usize
    requires { length (bytes_given given) ≤ length free.old }
    ensures { (result ≡ length (bytes_given given)) × (free.new ≡ written (bytes_given given) free.old) }
{
    match given {
        ElementValue::Nothing => 0,
        ElementValue::Byte(b) => {
            free[0] = b;
            1
        }
        ElementValue::Code(c) => put_char(c, free),
    }
}

// How many bytes an element gave.
fn given_length(given: ElementValue) -> usize
    requires { sound given ≡ true }
    ensures { result ≡ length (bytes_given given) }
{
    match given {
        ElementValue::Nothing => 0,
        ElementValue::Byte(_) => 1,
        ElementValue::Code(c) => char_width(c),
    }
}

// Where the run of plain characters of ASCII from a place on ends: neither what closes the quotes nor a backslash. Before and behind an
// escape there is often none, which a byte tells.
fn run_end(raw: &[u8], at: usize, k: Quotes) -> usize
    ensures { result ≡ at + span (plain (delim_of k) (code "\\")) (drop at raw.now) }
{
    if raw.len() <= at {
        return at;
    }
    let b = raw[at];
    if b == b'\\' {
        return at;
    }
    let closes = delimiter(k);
    if b == closes {
        return at;
    }
    plain_end(raw, at, closes, b'\\')
}

// A run of bytes, at the start of the free text memory.
fn put_run(run: &[u8], free: &mut [u8])
    requires { length run.now ≤ length free.old }
    ensures { free.new ≡ written run.now free.old }
{
    for i in 0..run.len() {
        free[i] = run[i];
    }
}

// Internal. The text of the quoted item `raw` from a place after its opening quote on, written at the start of the free text memory, and
// how many bytes it has.
pub fn decode(raw: &[u8], from: usize, k: Quotes, free: &mut [u8]) -> usize
    requires { (from ≤ length raw.now) × (length (unescape k (drop from raw.now)) ≤ length free.old) }
    ensures { (result ≡ length (unescape k (drop from raw.now))) × (free.new ≡ written (unescape k (drop from raw.now)) free.old) }
{
    let mut n = 0;
    let mut i = from;
    while i < raw.len() {
        let stop = run_end(raw, i, k);
        put_run(&raw[i..stop], &mut free[n..]);
        n = n + (stop - i);
        if raw.len() <= stop {
            return n;
        }
        let e = read_element(raw, stop, k);
        let given = e.given;
        i = e.next;
        n = n + put_given(given, &mut free[n..]);
    }
    n
}

// Internal. How many bytes that text has.
pub fn decoded_length(raw: &[u8], from: usize, k: Quotes) -> usize
    requires { from ≤ length raw.now }
    ensures { result ≡ length (unescape k (drop from raw.now)) }
{
    let mut n = 0;
    let mut i = from;
    while i < raw.len() {
        let stop = run_end(raw, i, k);
        n = n + (stop - i);
        if raw.len() <= stop {
            return n;
        }
        let e = read_element(raw, stop, k);
        let given = e.given;
        i = e.next;
        n = n + given_length(given);
    }
    n
}
