// The character that the bytes after `#\` stand for: a name, hexadecimal digits, or the character itself (R7RS 7.1.1, <character>;
// document 01, "Rules that bite"). Reads the bytes of an item whose extent is known, and answers the character or an error, as
// `character_of` of items/specs/Meaning says: the Rust's `parse_char`. Internal: used by the lexer and the pieces.
ghost use Rattle.std.specs.Prelude.{◌≡◌, not, ◌<◌, ◌≤◌, ◌+◌, ◌-◌, length, take, drop};
ghost use Rattle.chars.specs.Utf8.{front};
ghost use Rattle.digits.specs.Hex.{hex_value};
ghost use Rattle.items.specs.Readers.{scalar_of};
ghost use Rattle.items.specs.Meaning.{is_delimiter, before_delimiter, nameless, later, hex_named, only_one, spelled_out, character_of};

use crate::names::{UNNAMED, name_code};
use byte_runs::{ByteClass, bytes_end};
use chars::{Decoded, decode_at, is_scalar};
use digits::{HexError, hex_value};
use items::{CharError, kinds};

// The bytes of a name, which end or begin no item elsewhere.
#[derive(Clone, Copy)]
struct Undelimited;

impl ByteClass for Undelimited {
    ghost passes = { λ s c. not (is_delimiter c) };

    fn ends(self, c: u8) -> bool {
        matches!(c, b';' | b'"' | b'\'' | b',')
    }
}

// The place of the first delimiter from a place on, or the end.
fn delimiter_from(t: &[u8], from: usize) -> usize
    ensures { result ≡ from + before_delimiter (drop from t.now) }
{
    bytes_end(t, from, Undelimited)
}

// No name of a character: `#\lambda`, or in report mode `#\a;`.
fn no_name(report: bool, t: &[u8]) -> Result<u32, CharError>
    ensures { result ≡ nameless report t.now }
{
    if report {
        let p = delimiter_from(t, 1);
        if p < t.len() {
            return Err(CharError::WrongAt(kinds::INVALID_CHAR_DELIMITER, kinds::NO_DETAIL, p));
        }
    }
    Err(CharError::Wrong(kinds::INVALID_CHAR_NAME, kinds::NO_DETAIL))
}

// Internal. The character of hexadecimal digits that are read to their end.
pub fn scalar_of(h: Result<u32, HexError>) -> Result<u32, CharError>
    ensures { result ≡ scalar_of h }
{
    match h {
        Ok(c) => {
            if is_scalar(c) {
                return Ok(c);
            }
            Err(CharError::Wrong(kinds::INVALID_HEX_CODE_POINT, c))
        }
        Err(e) => Err(CharError::WrongAt(kinds::INVALID_HEX_ESCAPE_LITERAL, e.detail, e.place)),
    }
}

// The character of the digits from a place to a place; where they fail, the place is counted from the start of the whole.
fn hex_part(t: &[u8], from: usize, to: usize) -> Result<u32, CharError>
    requires { (from ≤ to) × (to ≤ length t.now) }
    ensures { result ≡ later from (scalar_of (hex_value (take (to - from) (drop from t.now)))) }
{
    match scalar_of(hex_value(&t[from..to])) {
        Err(CharError::WrongAt(error, detail, place)) => Err(CharError::WrongAt(
            error,
            detail,
            from + place,
        )),
        value => value,
    }
}

// The character of `x` or `u` and digits, or of `u{`, digits and `}`.
fn hex_named(t: &[u8]) -> Result<u32, CharError>
    requires { 1 < length t.now }
    ensures { result ≡ hex_named t.now }
{
    if t[0] != b'u' {
        return hex_part(t, 1, t.len());
    }
    if t[1] != b'{' {
        return hex_part(t, 1, t.len());
    }
    let last = t.len() - 1;
    if t[last] != b'}' {
        return Err(CharError::Wrong(kinds::UNCLOSED_HEX_ESCAPE, b'}' as u32));
    }
    hex_part(t, 2, last)
}

// The character that the bytes are, if they are one and nothing else.
fn only_one(report: bool, t: &[u8]) -> Result<u32, CharError>
    ensures { result ≡ only_one report (front t.now) t.now }
{
    match decode_at(t, 0) {
        Decoded::Char { code, next } => {
            if next == t.len() {
                return Ok(code);
            }
            no_name(report, t)
        }
        Decoded::Bad => no_name(report, t),
        Decoded::Cut => no_name(report, t),
        Decoded::End => no_name(report, t),
    }
}

// The character of bytes that are no name.
fn spelled_out(report: bool, t: &[u8]) -> Result<u32, CharError>
    ensures { result ≡ spelled_out report t.now }
{
    if t.len() <= 1 {
        return only_one(report, t);
    }
    if t[0] == b'u' {
        return hex_named(t);
    }
    if t[0] == b'x' {
        return hex_named(t);
    }
    only_one(report, t)
}

// Internal. The character that the bytes after `#\` stand for. A name goes before all else.
pub fn character(report: bool, t: &[u8]) -> Result<u32, CharError>
    ensures { result ≡ character_of report t.now }
{
    let code = name_code(t);
    if code == UNNAMED {
        return spelled_out(report, t);
    }
    Ok(code)
}
