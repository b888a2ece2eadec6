// Bytes and rows by their places, with a default past the end.
ghost use Rattle.std.specs.Prelude.{◌≡◌};
ghost use Rattle.findings.specs.Rows;
ghost use Rattle.findings.specs.Rows.{byte_at, row_at, last_row, depth_at, bytes_on};

use crate::Row;
use items::{RECORD_WORDS, kinds};
use meaning::records::depth_after;
use refusal::LIMIT;

// The byte at a place, 0 past the end.
pub fn byte_at(source: &[u8], i: usize) -> u8
    ensures { result ≡ byte_at source.now i }
{
    if i < source.len() { source[i] } else { 0 }
}

// The bytes from a place to a place, as far as there are any.
pub fn part(source: &[u8], a: usize, b: usize) -> &[u8]
    ensures { result.now ≡ Rattle.findings.specs.Rows.part source.now a b }
{
    if b < a {
        return &source[..0];
    }
    if b <= source.len() {
        return &source[a..b];
    }
    if a <= source.len() {
        return &source[a..];
    }
    &source[..0]
}

// n bytes on from a place.
pub fn bytes_on(n: u32, a: u32) -> u32
    ensures { result ≡ bytes_on n a }
{
    let next = a as usize + n as usize;
    if next <= LIMIT { next as u32 } else { a }
}

// The row at a place, counted in rows.
pub fn row_at(rows: &[u32], p: usize) -> Row
    ensures { result ≡ row_at rows.now p }
{
    if p < rows.len() / RECORD_WORDS {
        let i = p * RECORD_WORDS;
        return Row {
            kind: rows[i],
            start: rows[i + 2],
            end: rows[i + 3],
            from: rows[i + 4],
            to: rows[i + 5],
            error: rows[i + 6],
            about: rows[i + 7],
            depth: rows[i + 9],
        };
    }
    Row {
        kind: kinds::FIRST_ERROR,
        start: 0,
        end: 0,
        from: 0,
        to: 0,
        error: 0,
        about: 0,
        depth: 0,
    }
}

// The last row, a row of no kind where there is none.
pub fn last_row(rows: &[u32]) -> Row
    ensures { result ≡ last_row rows.now }
{
    let count = rows.len() / RECORD_WORDS;
    if count == 0 {
        return row_at(rows, 0);
    }
    row_at(rows, count - 1)
}

// How many brackets are open before a row, or at the end.
pub fn depth_at(rows: &[u32], p: usize) -> u32
    ensures { result ≡ depth_at rows.now p }
{
    if p < rows.len() / RECORD_WORDS {
        let row = row_at(rows, p);
        return row.depth;
    }
    let last = last_row(rows);
    depth_after(last.kind, last.depth)
}
