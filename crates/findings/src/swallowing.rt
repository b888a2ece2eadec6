// Texts that pass a line's end before a `(`.
ghost use Rattle.std.specs.Prelude.{◌≡◌, ◌&&◌, false, eqb};
ghost use Rattle.laws.specs.Quoted.{code};
ghost use Rattle.findings.specs.Lines.{is_space};
ghost use Rattle.findings.specs.Slips.{swallows, is_swallower, swallower};

use crate::{lines, rows};
use items::{RECORD_WORDS, kinds};

// Whether a line of spaces and tabs, so far, stays one with a byte more.
fn stays_fresh(fresh: bool, b: u8) -> bool
    ensures { result ≡ (fresh && is_space b) }
{
    fresh && lines::is_space(b)
}

// Whether a bracket opens a line.
fn opens_line(fresh: bool, b: u8) -> bool
    ensures { result ≡ (fresh && eqb b (code "(")) }
{
    fresh && b == b'('
}

// Whether a newline, then spaces or tabs, then `(` stand in a text.
fn has_swallowed(part: &[u8]) -> bool
    ensures { result ≡ swallows false part.now }
{
    let mut fresh = false;
    for b in part {
        if *b == b'\n' {
            fresh = true;
        } else {
            if opens_line(fresh, *b) {
                return true;
            }
            fresh = stays_fresh(fresh, *b);
        }
    }
    false
}

// Whether row p is a text that has swallowed a line's end.
fn is_swallower(source: &[u8], rows: &[u32], p: usize) -> bool
    ensures { result ≡ is_swallower source.now rows.now p }
{
    let row = rows::row_at(rows, p);
    row.kind == kinds::STRING_LITERAL
        && rows::byte_at(source, row.start as usize) == b'"'
        && has_swallowed(rows::part(source, row.start as usize, row.end as usize))
}

// The first of them, or the number of rows.
pub fn first_swallower(source: &[u8], rows: &[u32]) -> usize
    ensures { result ≡ swallower source.now rows.now }
{
    let count = rows.len() / RECORD_WORDS;
    for p in 0..count {
        if is_swallower(source, rows, p) {
            return p;
        }
    }
    count
}
