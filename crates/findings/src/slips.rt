// The tests of names: each answers for one row.
ghost use Rattle.std.specs.Prelude.{◌≡◌, ◌&&◌, eqb, ◌+◌, ◌-◌, ◌≤◌, ◌<◌, length};
ghost use Rattle.laws.specs.Quoted.{codes, one_of, within};
ghost use Rattle.chars.specs.Utf8.{sequences};
ghost use Rattle.items.specs.Whole.{limit};
ghost use Rattle.items.specs.Kinds as kind;
ghost use Rattle.nested.specs.Items.{count_of};
ghost use Rattle.findings.specs.Rows.{byte_at, row_at};
ghost use Rattle.findings.specs.Finding.{warning, single};
ghost use Rattle.findings.specs.Slips.{is_name, is_quote, is_dash, is_invisible, odd_code, some_code, first_odd, odd_in, is_a_digit, like_number, comma_follows, number_slip, name_told};

use crate::codes::{
    COMMA_NUMBER, INVISIBLE, NO_FINDING_DETAIL, NOWHERE, NUMBER_NAME, TYPOGRAPHIC_DASH,
    TYPOGRAPHIC_QUOTE, WARNING,
};
use crate::{Finding, rows};
use chars::{Decoded, between, decode_at};
use items::kinds;

// The printable characters of ASCII, none of which is odd.
const FIRST_PLAIN: u8 = b' ';

const LAST_PLAIN: u8 = b'~';

// A warning with no second place.
pub fn warn(code: u32, detail: u32, start: u32, end: u32) -> Option<Finding>
    ensures { result ≡ Some (single warning code detail start end) }
{
    Some(Finding {
        severity: WARNING,
        code,
        detail,
        start,
        end,
        also: NOWHERE,
        past: NOWHERE,
    })
}

// Whether row p is a name that starts at a place.
fn is_name_at(rows: &[u32], p: usize, start: u32) -> bool
    ensures { result ≡ (eqb (row_at rows.now p).kind kind.Identifier && eqb (row_at rows.now p).start start) }
{
    let row = rows::row_at(rows, p);
    row.kind == kinds::IDENTIFIER && row.start == start
}

// Whether warnings are told of the name of row p.
pub fn is_name(source: &[u8], rows: &[u32], p: usize) -> bool
    requires { p < count_of rows.now }
    ensures { result ≡ is_name source.now rows.now p }
{
    let row = rows::row_at(rows, p);
    row.kind == kinds::IDENTIFIER
        && row.error == 0
        && rows::byte_at(source, row.start as usize) != b'|'
        && !is_name_at(rows, p + 1, row.start)
}

// Whether c is one of the numbers from a to b.
pub fn is_within(a: u32, b: u32, c: u32) -> bool
    ensures { result ≡ within a b c }
{
    a <= c && c <= b
}

// A typographic quote: specs/Slips says which characters these are, also of the two below.
fn is_quote(c: u32) -> bool
    ensures { result ≡ is_quote c }
{
    matches!(c, 0x2018..=0x201F | 0xAB | 0xBB)
}

// A typographic minus or dash.
fn is_dash(c: u32) -> bool
    ensures { result ≡ is_dash c }
{
    matches!(c, 0x2010..=0x2015 | 0x2212)
}

// An invisible, control or direction-changing character.
fn is_invisible(c: u32) -> bool
    ensures { result ≡ is_invisible c }
{
    matches!(
        c,
        0x00..=0x1F
            | 0x7F..=0x9F
            | 0xAD
            | 0x061C
            | 0x180E
            | 0x200B..=0x200F
            | 0x202A..=0x202E
            | 0x2060..=0x206F
            | 0xFEFF
    )
}

// The warning about a character in a name; most have none.
fn odd_code(c: u32) -> Option<u32>
    ensures { result ≡ some_code (odd_code c) }
{
    if is_quote(c) {
        return Some(TYPOGRAPHIC_QUOTE);
    }
    if is_dash(c) {
        return Some(TYPOGRAPHIC_DASH);
    }
    if is_invisible(c) {
        return Some(INVISIBLE);
    }
    None
}

// A printable character of ASCII: none of them is odd.
fn is_plain(b: u8) -> bool
    ensures { result ≡ within 0x20 0x7E b }
{
    between(FIRST_PLAIN, LAST_PLAIN, b)
}

// The first odd character of a part that starts at the place a.
fn first_odd(part: &[u8], a: usize) -> Option<Finding>
    requires { a + length part.now ≤ limit }
    ensures { result ≡ first_odd (sequences 0 a part.now) }
{
    let mut i: usize = 0;
    while i < part.len() {
        if is_plain(part[i]) {
            i += 1;
        } else {
            match decode_at(part, i) {
                Decoded::Char { code, next } => {
                    if let Some(odd) = odd_code(code) {
                        return warn(odd, code, (a + i) as u32, (a + next) as u32);
                    }
                    i = next;
                }
                Decoded::Bad => {
                    return None;
                }
                Decoded::Cut => {
                    return None;
                }
                Decoded::End => {
                    return None;
                }
            }
        }
    }
    None
}

// The first odd character of an extent.
fn odd_in(source: &[u8], start: u32, end: u32) -> Option<Finding>
    ensures { result ≡ odd_in source.now start end }
{
    let part = rows::part(source, start as usize, end as usize);
    first_odd(part, start as usize)
}

// A decimal digit.
fn is_digit(b: u8) -> bool
    ensures { result ≡ is_a_digit b }
{
    between(b'0', b'9', b)
}

// `+`, `-` or `.`
fn leads_number(b: u8) -> bool
    ensures { result ≡ one_of (codes "+-.") b }
{
    matches!(b, b'+' | b'-' | b'.')
}

// Whether what starts at a place begins like a number.
fn like_number(source: &[u8], a: u32) -> bool
    ensures { result ≡ like_number source.now a }
{
    let b = rows::byte_at(source, a as usize);
    is_digit(b) || (leads_number(b) && is_digit(rows::byte_at(source, a as usize + 1)))
}

// Whether row p starts at a place, with a digit.
fn is_digit_at(source: &[u8], rows: &[u32], p: usize, start: u32) -> bool
    ensures { result ≡ (eqb (row_at rows.now p).start start && is_a_digit (byte_at source.now (row_at rows.now p).start)) }
{
    let row = rows::row_at(rows, p);
    row.start == start && is_digit(rows::byte_at(source, row.start as usize))
}

// Whether a comma and a digit follow the name of row p at once.
fn comma_follows(source: &[u8], rows: &[u32], p: usize) -> bool
    requires { p < count_of rows.now }
    ensures { result ≡ comma_follows source.now rows.now p }
{
    let row = rows::row_at(rows, p);
    let comma = rows::row_at(rows, p + 1);
    comma.kind == kinds::UNQUOTE
        && comma.start == row.end
        && is_digit_at(source, rows, p + 2, comma.end)
}

// How long an extent is.
fn length_of(start: u32, end: u32) -> u32
    ensures { result ≡ end - start }
{
    if start < end { end - start } else { 0 }
}

// W01 or W02.
fn number_slip(source: &[u8], rows: &[u32], p: usize) -> Option<Finding>
    requires { p < count_of rows.now }
    ensures { result ≡ number_slip source.now rows.now p }
{
    let row = rows::row_at(rows, p);
    if like_number(source, row.start) {
        if comma_follows(source, rows, p) {
            let rest = rows::row_at(rows, p + 2);
            return warn(
                COMMA_NUMBER,
                length_of(row.start, row.end),
                row.start,
                rest.end,
            );
        }
        return warn(NUMBER_NAME, NO_FINDING_DETAIL, row.start, row.end);
    }
    None
}

// What the name of row p tells.
pub fn name_told(source: &[u8], rows: &[u32], p: usize) -> Option<Finding>
    requires { p < count_of rows.now }
    ensures { result ≡ name_told source.now rows.now p }
{
    let row = rows::row_at(rows, p);
    let odd = odd_in(source, row.start, row.end);
    match odd {
        None => number_slip(source, rows, p),
        Some(f) => Some(f),
    }
}
