// Strings by their bytes: escapes of two bytes are passed together with the runs between them, and an escape that is none ends a string
// as an error.
ghost use Rattle.std.specs.Prelude.{◌≡◌, true, ◌≤◌, ◌<◌, length, get_or};
ghost use Rattle.laws.specs.Quoted.{code};
ghost use Rattle.items.specs.Classes.{after_backslash, invalid};
ghost use Rattle.items.specs.declared.Phase.TheVariants.{Quoted};
ghost use Rattle.items.specs.declared.Quotes.TheVariants.{Double};
ghost use Rattle.steps.specs.Scan.{Passes};
ghost use Rattle.items_telling.specs.Strings.{Short, StrungAs};

use crate::Strung;
use byte_runs::{ASCII_END, plain_end};
use chars::wide_end;

// How many bytes an escape has at least.
const ESCAPE_LENGTH: usize = 2;

// Whether a backslash and this byte are an escape.
fn is_short(c: u8) -> bool
    ensures { result ≡ true → Short c }
{
    match c {
        b'"' | b'\\' | b'|' => true,
        b'a' | b't' | b'n' | b'r' => true,
        b'b' | b'0' => true,
        _ => false,
    }
}

// Whether no escape goes on with this byte, of ASCII.
fn is_failing(c: u8) -> bool
    ensures { result ≡ true → (c < 0x80) × (after_backslash c ≡ invalid) }
{
    if ASCII_END <= c {
        return false;
    }
    match c {
        b'"' | b'\\' | b'|' => false,
        b'a' | b't' | b'n' | b'r' => false,
        b'b' | b'0' => false,
        b'x' | b'u' => false,
        b' ' | b'\t' => false,
        b'\n' => false,
        _ => true,
    }
}

// Past a backslash at a place and the byte behind it, where the two are an escape.
fn past_escape(s: &[u8], at: usize) -> usize
    requires { (at < length s.now) × (get_or s.now at 0 ≡ code "\\") }
    ensures { Passes s.now (Quoted Double) at result }
{
    match s.get(at + 1) {
        Some(&c) if is_short(c) => at + ESCAPE_LENGTH,
        _ => at,
    }
}

// Past what stands at a place in a string: an escape of two bytes, or characters up to one or to the quote.
fn past_part(s: &[u8], at: usize) -> usize
    requires { at ≤ length s.now }
    ensures { Passes s.now (Quoted Double) at result }
{
    if s.len() <= at {
        return at;
    }
    let b = s[at];
    if b == b'"' {
        return at;
    }
    if b == b'\\' {
        return past_escape(s, at);
    }
    if ASCII_END <= b {
        return wide_end(s, at);
    }
    plain_end(s, at, b'"', b'\\')
}

// Past the characters of a string and its escapes of two bytes, from a place on.
fn past_string(s: &[u8], from: usize) -> usize
    requires { from ≤ length s.now }
    ensures { Passes s.now (Quoted Double) from result }
{
    let mut i = from;
    loop {
        let j = past_part(s, i);
        if j <= i {
            return i;
        }
        i = j;
    }
}

// What a string tells that stands at a place.
pub fn string_at(s: &[u8], from: usize) -> Strung
    requires { from ≤ length s.now }
    ensures { StrungAs s.now from result }
{
    let at = past_string(s, from);
    if s.len() <= at {
        return Strung::On(at);
    }
    let b = s[at];
    let next = at + 1;
    if b == b'"' {
        return Strung::Whole(next);
    }
    if s.len() <= next {
        return Strung::On(at);
    }
    if b != b'\\' {
        return Strung::On(at);
    }
    if is_failing(s[next]) {
        return Strung::Fails(next);
    }
    Strung::On(at)
}
