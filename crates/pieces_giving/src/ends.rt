// What follows an extent that ended: its items are given, and the character beyond it begins another.
ghost use Rattle.std.specs.Prelude.{◌≡◌, ◌+◌, ◌≤◌, length};
ghost use Rattle.laws.specs.Lent.{written};
ghost use Rattle.items.specs.Items.{range, range_after, standing};
ghost use Rattle.items.specs.Readers.{so_far};
ghost use Rattle.items.specs.Whole.{limit, in_report};
ghost use Rattle.meaning.specs.Places.{place_in, range_of};
ghost use Rattle.pieces.specs.Expected.{longest};
ghost use Rattle.pieces.specs.Calls as calls;
ghost use Rattle.pieces_giving.specs.Answers.{state_of, what_of, turn_in, text_turned, goes_on, last_in};
ghost use Rattle.pieces_giving.specs.Copied.{one_given, pair_given};
ghost use Rattle.pieces_giving.specs.Inner.{HoldsItem, OutcomeFits, CharFits, BeyondFits};

use crate::give::give;
use crate::lay::lay;
use crate::marks::{counted, marks_at};
use chars::{char_width, is_blank};
use items::kinds::NO_DETAIL;
use items::modes::REPORT;
use items::{Outcome, Record, kinds};
use meaning::places::{range_after, range_shown};
use meaning::records::skips;
use meaning::{Means, Meant, Range, Text, meaning};
use pieces::{Got, Marks, Stage, Turned};
use steps::first_phase;

// A plus is one byte.
const PLUS_LENGTH: usize = 1;

// Reading goes on.
pub fn go_on(m: Marks) -> Turned
    ensures { result ≡ goes_on m }
{
    Turned {
        marks: m,
        got: Got::More,
    }
}

// A character between items: a blank is passed over, any other begins an item. The last error range is from..to.
pub fn begin(m: Marks, buf: &mut [u8], from: usize, to: usize, c: u32) -> Marks
    requires { (length buf.old ≡ longest) × CharFits c m.at }
    ensures { state_of result buf.new ≡ calls.begin (state_of m buf.old) (range from to) c }
{
    let width = char_width(c);
    let at = m.at;
    if is_blank(c) {
        return marks_at(m, Stage::Idle, at + width, 0, from, to);
    }
    lay(buf, 0, c);
    marks_at(
        m,
        Stage::Busy(at, first_phase(c)),
        at + width,
        width,
        from,
        to,
    )
}

// What stands beyond the items that were given: a character, or the end.
pub fn beyond(m: Marks, buf: &mut [u8], last: Range, b: Option<u32>) -> Marks
    requires { (length buf.old ≡ longest) × BeyondFits b m.at }
    ensures { state_of result buf.new ≡ calls.beyond (state_of m buf.old) (place_in last) b }
{
    match b {
        None => marks_at(
            m,
            Stage::Idle,
            m.at,
            0,
            last.from as usize,
            last.to as usize,
        ),
        Some(c) => begin(m, buf, last.from as usize, last.to as usize, c),
    }
}

// From a place of a text to a place.
pub fn extent(start: usize, end: usize) -> Range
    requires { (start ≤ limit) × (end ≤ limit) }
    ensures { result ≡ range_of (range start end) }
{
    Range {
        from: start as u32,
        to: end as u32,
    }
}

// The last error range after an extent that ended: its own where it sets one.
fn last_after(m: Marks, start: usize, what: Outcome, raw: &[u8]) -> Range
    requires { (start + length raw.now ≤ limit) × (m.at ≤ limit) × (m.from ≤ limit) × (m.to ≤ limit) × OutcomeFits what }
    ensures { result ≡ range_of (range_after (in_report m.mode) (last_in m) start what (so_far raw.now m.at)) }
{
    range_after(
        m.mode == REPORT,
        extent(m.from, m.to),
        what,
        extent(start, m.at),
        raw,
    )
}

// The range that an error's place is taken from: in report mode what the extent sets itself.
fn shown_after(m: Marks, start: usize, what: Outcome, raw: &[u8]) -> Range
    requires { (start + length raw.now ≤ limit) × (m.at ≤ limit) × (m.from ≤ limit) × (m.to ≤ limit) × OutcomeFits what }
    ensures { result ≡ range_of (range_after (in_report m.mode) (standing (in_report m.mode) (last_in m)) start what (so_far raw.now m.at)) }
{
    range_shown(
        m.mode == REPORT,
        extent(m.from, m.to),
        what,
        extent(start, m.at),
        raw,
    )
}

// The one item of an extent, given or left out, and what stands beyond it.
fn give_one(
    m: Marks,
    buf: &mut [u8],
    text: &mut [u8],
    start: usize,
    shown: Range,
    last: Range,
    one: Means,
    b: Option<u32>,
) -> Turned
    requires { HoldsItem m buf.old text.old start × BeyondFits b m.at }
    ensures { (turn_in result buf.new text.new ≡ one_given (state_of m buf.old) start (place_in shown) (place_in last) b one)
        × (text.new ≡ text_turned (one_given (state_of m buf.old) start (place_in shown) (place_in last) b one) text.old) }
{
    let len = m.len;
    if skips(m.skip, one.kind) {
        return go_on(beyond(m, buf, last, b));
    }
    let r = give(
        m.depth,
        m.mode == REPORT,
        one,
        shown,
        extent(start, m.at),
        &buf[..len],
        text,
    );
    let next = beyond(counted(m, one.kind), buf, last, b);
    Turned {
        marks: next,
        got: Got::Item(r),
    }
}

// The first item of a pair; the second waits.
fn give_pair(
    m: Marks,
    buf: &mut [u8],
    text: &mut [u8],
    start: usize,
    shown: Range,
    last: Range,
    one: Means,
    b: Option<u32>,
) -> Turned
    requires { HoldsItem m buf.old text.old start }
    ensures { (turn_in result buf.new text.new ≡ pair_given (state_of m buf.old) start (place_in shown) (place_in last) b one)
        × (text.new ≡ text_turned (pair_given (state_of m buf.old) start (place_in shown) (place_in last) b one) text.old) }
{
    let len = m.len;
    let r = give(
        m.depth,
        m.mode == REPORT,
        one,
        shown,
        extent(start, m.at),
        &buf[..len],
        text,
    );
    let next = marks_at(
        m,
        Stage::Waiting(start, b),
        m.at,
        len,
        last.from as usize,
        last.to as usize,
    );
    Turned {
        marks: next,
        got: Got::Item(r),
    }
}

// The items of the extent that starts at `start` and ended, by what it turned out to be.
pub fn ends(
    m: Marks,
    buf: &mut [u8],
    text: &mut [u8],
    start: usize,
    what: Outcome,
    b: Option<u32>,
) -> Turned
    requires { HoldsItem m buf.old text.old start × OutcomeFits what × BeyondFits b m.at }
    ensures { (turn_in result buf.new text.new ≡ calls.ends (state_of m buf.old) start what b)
        × (text.new ≡ text_turned (calls.ends (state_of m buf.old) start what b) text.old) }
{
    let len = m.len;
    let shown = shown_after(m, start, what, &buf[..len]);
    let last = last_after(m, start, what, &buf[..len]);
    match meaning(m.mode == REPORT, what, start, &buf[..len]) {
        Meant::One(one) => give_one(m, buf, text, start, shown, last, one, b),
        Meant::Two(one, _two) => give_pair(m, buf, text, start, shown, last, one, b),
    }
}

// The second item of the pair that starts at `start`: what is left of its word after the plus.
pub fn give_second(m: Marks, buf: &[u8], text: &mut [u8], start: usize) -> Record
    requires { HoldsItem m buf.now text.old start }
    ensures { (what_of (Got.Item result) text.new ≡ calls.item (calls.second (state_of m buf.now) start))
        × (text.new ≡ written (calls.second (state_of m buf.now) start).text text.old) }
{
    let second = Means {
        kind: kinds::IDENTIFIER,
        detail: NO_DETAIL,
        text: Text::Source(start + PLUS_LENGTH, m.at),
    };
    give(
        m.depth,
        m.mode == REPORT,
        second,
        extent(m.from, m.to),
        extent(start, m.at),
        &buf[..m.len],
        text,
    )
}
