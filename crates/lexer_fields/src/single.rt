// One part, read as a text of its own.
ghost use Rattle.std.specs.Prelude.{◌≡◌, eqb, ◌*◌, ◌≤◌, length, get_or, None};
ghost use Rattle.laws.specs.Lent.{written};
ghost use Rattle.laws.specs.Quoted.{code};
ghost use Rattle.refusal.specs.Refusals as refusals;
ghost use Rattle.chars.specs.Utf8.{chars, first_bad};
ghost use Rattle.lexer.specs.Opening.{start_of};
ghost use Rattle.items.specs.Items.{record_words, records, texts};
ghost use Rattle.items.specs.Whole.{limit};
ghost use Rattle.lexer_fields.specs.Fields.{field_of};
ghost use Rattle.lexer_fields.specs.Answers.{part_of, spot_at, Known};

use crate::PartAnswer;
use chars::first_bad;
use items::modes::REPORT;
use lexer::{Spot, UNSET, begin, count, write};
use meaning::Range;
use refusal::NOT_UTF8;

// The mark of a part that is UTF-8, and its place.
const NO_MARK: u32 = 0;

// A part with so many items and bytes of decoded text.
fn read_well(items: usize, text: usize) -> PartAnswer
    ensures { result ≡ record { mark = 0; place = 0; items = items; text = text } }
{
    PartAnswer {
        mark: NO_MARK,
        place: NO_MARK,
        items: items,
        text: text,
    }
}

// A part that is not UTF-8.
fn not_utf8(at: usize) -> PartAnswer
    requires { at ≤ limit }
    ensures { result ≡ record { mark = refusals.not_utf8; place = at; items = 0; text = 0 } }
{
    PartAnswer {
        mark: NOT_UTF8,
        place: at as u32,
        items: 0,
        text: 0,
    }
}

// Whether a part is UTF-8, which may be known.
fn seen(part: &[u8], known: bool) -> Option<usize>
    requires { Known known part.now }
    ensures { result ≡ first_bad part.now }
{
    if known {
        return None;
    }
    first_bad(&part[..])
}

// Whether a part begins with #.
fn begins_hash(part: &[u8]) -> bool
    ensures { result ≡ eqb (get_or part.now 0 0) (code "#") }
{
    if part.len() == 0 {
        return false;
    }
    let b = part[0];
    b == b'#'
}

// Where reading starts in a part, which is UTF-8: only after a # is its first line looked at.
fn first_place(part: &[u8], mode: u32, skip: bool) -> usize
    requires { first_bad part.now ≡ None }
    ensures { result ≡ start_of (chars part.now) }
{
    if begins_hash(part) {
        let position = begin(&part[..], mode, skip);
        return position.spot.at;
    }
    0
}

// The spot at a place, with no error range.
fn spot_at(at: usize, mode: u32, skip: bool) -> Spot
    ensures { result ≡ spot_at at mode skip }
{
    Spot {
        at: at,
        last: Range {
            from: UNSET,
            to: UNSET,
        },
        second: false,
        report: mode == REPORT,
        skip: skip,
    }
}

// What a part gives; nothing is written.
pub fn count_part(part: &[u8], known: bool, mode: u32, skip: bool) -> PartAnswer
    requires { (length part.now ≤ limit) × Known known part.now }
    ensures { result ≡ part_of (field_of mode skip part.now) }
{
    match seen(part, known) {
        None => {
            let position = begin(part, mode, skip);
            let n = count(part, position.spot);
            read_well(n.items, n.text)
        }
        Some(at) => not_utf8(at),
    }
}

// What a part gives, its records and its decoded texts written from the start of the lent memory on.
pub fn write_part(
    part: &[u8],
    known: bool,
    mode: u32,
    skip: bool,
    recs: &mut [u32],
    text: &mut [u8],
) -> PartAnswer
    requires part_len_bound { (length part.now ≤ limit) × Known known part.now }
    requires part_in_bounds { record_words * length (field_of mode skip part.now).items ≤ length recs.old }
    requires part_in_bounds_2 { length (texts (field_of mode skip part.now).items) ≤ length text.old }
    ensures value { result ≡ part_of (field_of mode skip part.now) }
    ensures recs_after { recs.new ≡ written (records 0 0 (field_of mode skip part.now).items) recs.old }
    ensures text_after { text.new ≡ written (texts (field_of mode skip part.now).items) text.old }
{
    match seen(part, known) {
        None => {
            let at = first_place(part, mode, skip);
            let n = write(part, spot_at(at, mode, skip), recs, text);
            read_well(n.items, n.text)
        }
        Some(at) => not_utf8(at),
    }
}
