// The place of an error: document 01, "the last `error` range set since the start of the text, or its extent if none was set"; in report
// mode its own range, or its extent if it sets none.
ghost use Rattle.std.specs.Prelude.{◌≡◌, ◌+◌, ◌≤◌, ◌<◌, ◌^◌, length};
ghost use Rattle.items.specs.Meaning.{character_of, char_inside};
ghost use Rattle.items.specs.Readers.{so_far};
ghost use Rattle.items.specs.Items.{is_set, place_of, failing_at, character_sets, range_after, standing};
ghost use Rattle.meaning.specs.Places.{place_in, range_of, reach, reach_from};

use crate::Range;
use items::kinds::FIRST_ERROR;
use items::{CHARACTER_MARK, CharError, Outcome};
use spellings::characters::character;
use spellings::failing::{past_failing, rest};

// Whether a range was set. In report mode an error's own range may be empty.
fn is_set(report: bool, last: Range) -> bool
    ensures { result ≡ is_set report (place_in last) }
{
    if report {
        return 0 < last.to;
    }
    last.from < last.to
}

// An item's place: its extent, but an error's is the last range, if one was set.
pub fn place(report: bool, kind: u32, last: Range, extent: Range) -> Range
    ensures { result ≡ range_of (place_of report kind (place_in last) (place_in extent)) }
{
    if kind < FIRST_ERROR {
        return extent;
    }
    if is_set(report, last) {
        return last;
    }
    extent
}

// What fails `at` bytes after `#\` in an extent that starts at `start`.
fn failing_at(start: u32, detail: u32, at: usize, raw: &[u8]) -> Range
    requires { (2 + at ≤ length raw.now) × (start + length raw.now < 2 ^ 32) }
    ensures { result ≡ range_of (failing_at start detail at raw.now) }
{
    let from = start as usize + CHARACTER_MARK + at;
    let past = past_failing(detail, from, rest(rest(raw, CHARACTER_MARK), at));
    Range {
        from: from as u32,
        to: past as u32,
    }
}

// The last range after a word that starts with #\: its extent where it is no character, or in report mode what fails in it.
fn after_character(report: bool, last: Range, extent: Range, raw: &[u8]) -> Range
    requires { extent.from + length raw.now < 2 ^ 32 }
    ensures { result ≡ range_of (character_sets report (character_of report (char_inside raw.now)) (place_in last) extent.from (so_far raw.now extent.to)) }
{
    match character(report, rest(raw, CHARACTER_MARK)) {
        Ok(_) => last,
        Err(CharError::Wrong(_, _)) => extent,
        Err(CharError::WrongAt(_, detail, at)) => {
            if report {
                return failing_at(extent.from, detail, at, raw);
            }
            extent
        }
    }
}

// The last range after an extent: its own where it sets one, else the one before.
pub fn range_after(report: bool, last: Range, what: Outcome, extent: Range, raw: &[u8]) -> Range
    requires { (reach_from what < 2 ^ 32) × (reach what < 2 ^ 32) × (extent.from + length raw.now < 2 ^ 32) }
    ensures { result ≡ range_of (range_after report (place_in last) extent.from what (so_far raw.now extent.to)) }
{
    match what {
        Outcome::Character => after_character(report, last, extent, raw),
        Outcome::ErrorAt(_, _, from, to) => Range {
            from: from as u32,
            to: to as u32,
        },
        Outcome::Str | Outcome::HereStr | Outcome::Word | Outcome::Run => last,
        Outcome::Lined | Outcome::Keyword => last,
        Outcome::Token(_, _) | Outcome::Error(_, _) => last,
    }
}

// The range that an error's place is taken from: as above, but in report mode no range was set before the extent.
pub fn range_shown(report: bool, last: Range, what: Outcome, extent: Range, raw: &[u8]) -> Range
    requires { (reach_from what < 2 ^ 32) × (reach what < 2 ^ 32) × (extent.from + length raw.now < 2 ^ 32) }
    ensures { result ≡ range_of (range_after report (standing report (place_in last)) extent.from what (so_far raw.now extent.to)) }
{
    if report {
        return range_after(true, Range { from: 0, to: 0 }, what, extent, raw);
    }
    range_after(false, last, what, extent, raw)
}
