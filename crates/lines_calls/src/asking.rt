// Answers line and column of a byte place by the index of the text, of one place or of many.
ghost use Rattle.std.specs.Prelude.{◌≡◌, true, ◌+◌, ◌*◌, ◌≤◌, ◌<◌, length, drop, get_or};
ghost use Rattle.laws.specs.Lent.{written};
ghost use Rattle.laws.specs.Texts.{same};
ghost use Rattle.chars.specs.Utf8.{sequences};
ghost use Rattle.lines.specs.Starts.{starts, told_of, outcome};
ghost use Rattle.lines.specs.Place.{where_of, is_index, line_of, column, place_of, locate_of, Search};
ghost use Rattle.lines.specs.Many.{line_word, column_word, answers, locate_all_of};

use byte_runs::find;
use chars::Decoded;
use lines::{LineColumn, LinesError, LocateError};
use refusal::LIMIT;

fn wide(x: u32) -> usize
    ensures { result ≡ x }
{
    x as usize
}

// Whether the index is the line starts of the text.
fn same_starts(text: &[u8], index: &[u32]) -> bool
    ensures { result ≡ same (starts text.now) index.now }
{
    if index.len() == 0 {
        return false;
    }
    if index[0] != 0 {
        return false;
    }
    let mut j: usize = 1;
    let mut at = find(text, 0, b'\n');
    while at < text.len() {
        if j == index.len() {
            return false;
        }
        if wide(index[j]) != at + 1 {
            return false;
        }
        j += 1;
        at = find(text, at + 1, b'\n');
    }
    j == index.len()
}

// Whether an index is a text's.
fn is_index(text: &[u8], index: &[u32]) -> bool
    ensures { result ≡ is_index text.now index.now }
{
    if LIMIT < text.len() {
        return false;
    }
    match chars::first_bad(text) {
        Some(_) => false,
        None => same_starts(text, index),
    }
}

// The last line that starts at or before a place, counted from 0: a binary search.
fn line_at(index: &[u32], place: usize) -> usize
    requires { Search index.now place }
    ensures { (result < length index.now) × (get_or index.now result 0 ≤ place) × (result + 1 ≡ line_of place index.now 1 0) }
{
    let mut low: usize = 0;
    let mut high: usize = index.len();
    while 1 < high - low {
        let middle = low + (high - low) / 2;
        if wide(index[middle]) <= place {
            low = middle;
        } else {
            high = middle;
        }
    }
    low
}

// The column of a place in the line that starts at `from`.
fn column_at(text: &[u8], from: usize, place: usize) -> Option<usize>
    requires { place ≤ length text.now }
    ensures { result ≡ column place 1 (sequences 0 from (drop from text.now)) }
{
    let mut at = from;
    let mut n: usize = 1;
    while at < place {
        match chars::decode_at(text, at) {
            Decoded::Char { code: _, next } => {
                if place < next {
                    return None;
                }
                at = next;
                n += 1;
            }
            Decoded::Bad => {
                return None;
            }
            Decoded::Cut => {
                return None;
            }
            Decoded::End => {
                return None;
            }
        }
    }
    Some(n)
}

// Line and column of a place, where the index is the text's: the last line that starts at or before it, and the characters since.
fn place_at(text: &[u8], index: &[u32], place: usize) -> Result<LineColumn, LocateError>
    requires { is_index text.now index.now ≡ true }
    ensures { where_of result ≡ place_of text.now index.now place }
{
    if text.len() < place {
        return Err(LocateError::NoPlace(place));
    }
    let line = line_at(index, place);
    let from = wide(index[line]);
    let column = column_at(text, from, place).ok_or(LocateError::NoPlace(place))?;
    Ok(LineColumn {
        line: line + 1,
        column,
    })
}

// Line and column of a byte place, by the index of the text.
pub fn locate(text: &[u8], index: &[u32], place: usize) -> Result<LineColumn, LocateError>
    ensures { where_of result ≡ locate_of text.now index.now place }
{
    if is_index(text, index) {
        return place_at(text, index, place);
    }
    Err(LocateError::Alien)
}

// An answer's line, or 0 for a refusal.
fn line_word(r: Result<LineColumn, LocateError>) -> usize
    ensures { result ≡ line_word (where_of r) }
{
    match r {
        Ok(found) => found.line,
        Err(_) => 0,
    }
}

// An answer's column, or a refusal's number.
fn column_word(r: Result<LineColumn, LocateError>) -> usize
    ensures { result ≡ column_word (where_of r) }
{
    match r {
        Ok(found) => found.column,
        Err(e) => wide(e.number()),
    }
}

// The answers to places one after the other, from the start of the memory on.
fn put_answers(text: &[u8], index: &[u32], places: &[u32], found: &mut [usize])
    requires { (is_index text.now index.now ≡ true) × (2 * length places.now ≤ length found.old) }
    ensures { found.new ≡ written (answers text.now index.now places.now) found.old }
{
    for k in 0..places.len() {
        let r = place_at(text, index, wide(places[k]));
        found[2 * k] = line_word(r);
        found[2 * k + 1] = column_word(r);
    }
}

// Line and column of many places, in any order, with one look at the text's index: two numbers for each, as `line_word` and
// `column_word` have them.
pub fn locate_all(
    text: &[u8],
    index: &[u32],
    places: &[u32],
    found: &mut [usize],
) -> Result<usize, LinesError>
    ensures { outcome (told_of result) found.new ≡ locate_all_of text.now index.now places.now found.old }
{
    if is_index(text, index) {
        let n = places.len();
        if found.len() < 2 * n {
            return Err(LinesError::NoRoom(2 * n));
        }
        put_answers(text, index, places, found);
        return Ok(n);
    }
    Err(LinesError::Alien)
}
