// The rows of a plan: its items in report mode, comments skipped, ten words each. They are what the records of the whole-text call are, with
// two differences. After a bad escape the rest of its string or name is passed over, so that one slip is one error; and an error's row is an
// atom to the nested lists. specs/Mended and specs/Rows define them, specs/Laid what the lent memory then holds.
#![tactic(auto)]

ghost use Rattle.std.specs.Prelude.{◌≡◌, ◌≤◌, length};
ghost use Rattle.items.specs.Items.{words_of};
ghost use Rattle.items.specs.Whole.{limit};
ghost use Rattle.lexer.specs.Reading.{found_of};
ghost use Rattle.findings_rows.specs.Laid.{laid, all_laid, laid_at};
ghost use Rattle.findings_rows.specs.Mended.{mended_at, mended_from, opening_spot};
ghost use Rattle.findings_rows.specs.Rows.{rows_of};
ghost use Rattle.findings_rows.specs.Inner.{row_record, from_spot};

use items::kinds::{FIRST_ERROR, IDENTIFIER, NO_DETAIL};
use items::modes::REPORT;
use items::{Nine, RECORD_WORDS, Record};
use lexer::{Found, Spot, begin, next_item};
use meaning::records::{depth_after, put};
use refusal::LIMIT;
use slips::{is_slip, mend};

mod slips;

// No error, and no error's detail.
const NO_ERROR: u32 = 0;

// No decoded text is kept, so each starts at the first byte.
const FREE: usize = 0;

// The next item from a spot on, a slip mended.
fn next_row(source: &[u8], spot: Spot) -> Option<Found>
    requires { length source.now ≤ limit }
    ensures { result ≡ found_of 0 (mended_at source.now spot) }
{
    let found = next_item(source, spot, FREE)?;
    if is_slip(source, found.nine.kind, found.nine.start as usize) {
        return mend(source, found.nine, found.after);
    }
    Some(found)
}

// The row of an item.
fn row_of(r: Nine, depth: u32) -> Record
    ensures { result ≡ row_record depth r }
{
    if r.kind < FIRST_ERROR {
        return Record {
            nine: Nine {
                kind: r.kind,
                detail: r.detail,
                start: r.start,
                end: r.end,
                from: r.from,
                to: r.to,
                source: NO_ERROR,
                first: NO_ERROR,
                past: 0,
            },
            depth: depth,
        };
    }
    Record {
        nine: Nine {
            kind: IDENTIFIER,
            detail: NO_DETAIL,
            start: r.start,
            end: r.end,
            from: r.from,
            to: r.to,
            source: r.kind - FIRST_ERROR,
            first: r.detail,
            past: 0,
        },
        depth: depth,
    }
}

// Writes a row where the rows before take w words, if it fits.
fn lay(words: &mut [u32], w: usize, row: Record)
    ensures { words.new ≡ laid_at w (words_of row) words.old }
{
    if words.len() < RECORD_WORDS {
        return;
    }
    if words.len() - RECORD_WORDS < w {
        return;
    }
    put(&mut words[w..], row);
}

// The rows from a spot on.
fn lay_from(source: &[u8], spot: Spot, words: &mut [u32]) -> usize
    requires { length source.now ≤ limit }
    ensures { laid result words.new ≡ all_laid (from_spot source.now spot) words.old }
{
    let mut p = spot;
    let mut depth: u32 = 0;
    let mut w: usize = 0;
    while let Some(found) = next_row(source, p) {
        lay(words, w, row_of(found.nine, depth));
        depth = depth_after(found.nine.kind, depth);
        w += RECORD_WORDS;
        p = found.after;
    }
    w / RECORD_WORDS
}

// Writes the rows of a plan from the start of `words` on, as many whole ones as fit, and answers how many there are. A text over the limit
// has none; of one that is not UTF-8 they are the rows of what stands before the first bad sequence.
pub fn rows(source: &[u8], words: &mut [u32]) -> usize
    ensures { laid result words.new ≡ all_laid (rows_of source.now) words.old }
{
    if LIMIT < source.len() {
        return 0;
    }
    let at = begin(source, REPORT, true);
    lay_from(source, at.spot, words)
}
