// Questions about records.
ghost use Rattle.std.specs.Prelude.{◌≡◌, ◌&&◌, ◌+◌, ◌*◌, ◌<◌, ◌≤◌, length, get_or, leb};
ghost use Rattle.items_exports.specs.Records.{count_of, opens_inside, open_before, opener_of, text_fits, record_fits, records_fit};

use items::RECORD_WORDS;
use items::kinds::{IN_MEMORY, IN_SOURCE, NO_TEXT, OPEN_PAREN};

// The words of a record by what they hold.
const EXTENT_START: usize = 2;

const EXTENT_END: usize = 3;

const PLACE_START: usize = 4;

const PLACE_END: usize = 5;

const TEXT_SOURCE: usize = 6;

const TEXT_START: usize = 7;

const TEXT_END: usize = 8;

const RECORD_DEPTH: usize = 9;

// Whether a record opens a bracket inside so many others.
fn opens_inside(records: &[u32], p: usize, depth: u32) -> bool
    requires { p < count_of records.now }
    ensures { result ≡ opens_inside records.now depth p }
{
    let first = p * RECORD_WORDS;
    records[first] == OPEN_PAREN && records[first + RECORD_DEPTH] == depth
}

// The last record before p that opens a bracket inside so many others; `none` where there is none.
fn open_before(records: &[u32], depth: u32, none: usize, p: usize) -> usize
    requires { p ≤ count_of records.now }
    ensures { result ≡ open_before records.now depth none p }
{
    for q in (0..p).rev() {
        if opens_inside(records, q, depth) {
            return q;
        }
    }
    none
}

// The bracket in which a record lies, of a close the bracket that it closes: the number of its record, or how many records there are, where
// the record lies in none or there is no such record.
pub fn mihadrena_opener(records: &[u32], at: usize) -> usize
    ensures { result ≡ opener_of records.now at }
{
    let count = records.len() / RECORD_WORDS;
    if count <= at {
        return count;
    }
    let depth = records[at * RECORD_WORDS + RECORD_DEPTH];
    if depth == 0 {
        return count;
    }
    open_before(records, depth - 1, count, at)
}

// Whether a part from `from` to `to` lies in so many bytes.
fn lies(from: u32, to: u32, length: usize) -> bool
    ensures { result ≡ (leb from to && leb to length) }
{
    from <= to && to as usize <= length
}

// Whether a text lies where it should.
fn text_fits(origin: u32, from: u32, to: u32, source: usize, text: usize) -> bool
    ensures { result ≡ text_fits origin from to source text }
{
    match origin {
        IN_SOURCE => lies(from, to, source),
        IN_MEMORY => lies(from, to, text),
        _ => origin == NO_TEXT,
    }
}

// Whether a record's extent, place and text lie in a source and a text memory of these lengths.
fn record_fits(records: &[u32], p: usize, source: usize, text: usize) -> bool
    requires { p < count_of records.now }
    ensures { result ≡ record_fits records.now source text p }
{
    let first = p * RECORD_WORDS;
    lies(
        records[first + EXTENT_START],
        records[first + EXTENT_END],
        source,
    ) && lies(
        records[first + PLACE_START],
        records[first + PLACE_END],
        source,
    ) && text_fits(
        records[first + TEXT_SOURCE],
        records[first + TEXT_START],
        records[first + TEXT_END],
        source,
        text,
    )
}

// Whether all records lie in a source and a text memory of these lengths: extent, place and text. Words past the last whole record are none.
pub fn mihadrena_records_fit(records: &[u32], source: usize, text: usize) -> bool
    ensures { result ≡ records_fit records.now source text }
{
    for p in (0..records.len() / RECORD_WORDS).rev() {
        if !record_fits(records, p, source, text) {
            return false;
        }
    }
    true
}
