// What one byte does.
ghost use Rattle.std.specs.Prelude.{◌≡◌, true, List, ℕ, ◌≤◌, length};
ghost use Rattle.pieces.specs.Expected.{longest};
ghost use Rattle.pieces.specs.Bounds.{phase_bounds};
ghost use Rattle.pieces.specs.Calls as calls;
ghost use Rattle.pieces_giving.specs.Answers.{state_of, turn_in, text_turned, stops};
ghost use Rattle.pieces_giving.specs.Inner.{HoldsItem, CharFits};
ghost use Rattle.pieces_turns.specs.Inner.{Sound};

use chars::{Step, byte_step, char_width};
use items::modes::REPORT;
use items::{Next, Phase};
use pieces::{Got, LONGEST, Marks, Part, Stage, Turned};
use pieces_giving::ends::{begin, ends, go_on};
use pieces_giving::lay::lay;
use pieces_giving::marks::{marks_at, with_part};
use refusal::{LIMIT, LONG_ITEM, NOT_UTF8, TOO_LONG};
use steps::signs::{BANG, HASH, NEWLINE};
use steps::step;

// A stop, which stands from then on.
pub fn stop(m: Marks, number: u32, place: usize) -> Turned
    ensures { result ≡ stops m number place }
{
    Turned {
        marks: marks_at(m, Stage::Stopped(number, place), m.at, 0, m.from, m.to),
        got: Got::Refused(number, place),
    }
}

// A character that belongs to the item that starts at `start`, which is then in another phase.
fn eat(m: Marks, buf: &mut [u8], start: usize, c: u32, phase: Phase) -> Turned
    requires { (length buf.old ≡ longest) × (m.len ≤ longest) × CharFits c m.at }
    ensures { (text : List ℕ) → turn_in result buf.new text ≡ calls.on_next (state_of m buf.old) start c (Next.Eat phase) }
{
    let width = char_width(c);
    let len = m.len;
    if LONGEST < len + width {
        return stop(m, LONG_ITEM, start);
    }
    lay(buf, len, c);
    go_on(marks_at(
        m,
        Stage::Busy(start, phase),
        m.at + width,
        len + width,
        m.from,
        m.to,
    ))
}

// A character in the item that starts at `start`: it belongs to it, or the item ended before it.
fn on_item(m: Marks, buf: &mut [u8], text: &mut [u8], start: usize, phase: Phase, c: u32) -> Turned
    requires { HoldsItem m buf.old text.old start × CharFits c m.at × (phase_bounds phase m.len ≡ true) }
    ensures { (turn_in result buf.new text.new ≡ calls.on_stage (state_of m buf.old) (Stage.Busy start phase) c)
        × (text.new ≡ text_turned (calls.on_stage (state_of m buf.old) (Stage.Busy start phase) c) text.old) }
{
    let len = m.len;
    match step(m.mode == REPORT, phase, &buf[..len], m.at, c) {
        Next::Eat(then) => eat(m, buf, start, c, then),
        Next::Stop(what) => ends(m, buf, text, start, what, Some(c)),
    }
}

// A character at the start of the text.
fn on_first(m: Marks, buf: &mut [u8], c: u32) -> Marks
    requires { (length buf.old ≡ longest) × CharFits c m.at }
    ensures { calls.on (state_of result buf.new) ≡ calls.on_stage (state_of m buf.old) Stage.Opening c }
{
    if c == HASH {
        let width = char_width(c);
        lay(buf, 0, c);
        return marks_at(m, Stage::Pound, m.at + width, width, m.from, m.to);
    }
    begin(m, buf, m.from, m.to, c)
}

// A character after a # at the start of the text: an exclamation mark makes it a line that is passed over.
fn on_pound(m: Marks, buf: &mut [u8], text: &mut [u8], c: u32) -> Turned
    requires { HoldsItem m buf.old text.old 0 × CharFits c m.at }
    ensures { (turn_in result buf.new text.new ≡ calls.on_stage (state_of m buf.old) Stage.Pound c)
        × (text.new ≡ text_turned (calls.on_stage (state_of m buf.old) Stage.Pound c) text.old) }
{
    if c == BANG {
        return go_on(marks_at(m, Stage::FirstLine, m.at + char_width(c), 0, m.from, m.to));
    }
    on_item(m, buf, text, 0, Phase::AfterHash, c)
}

// A character in a first line that is passed over, up to its newline.
fn on_line(m: Marks, buf: &mut [u8], c: u32) -> Marks
    requires { (length buf.old ≡ longest) × CharFits c m.at }
    ensures { calls.on (state_of result buf.new) ≡ calls.on_stage (state_of m buf.old) Stage.FirstLine c }
{
    if c == NEWLINE {
        return begin(m, buf, m.from, m.to, c);
    }
    marks_at(m, Stage::FirstLine, m.at + char_width(c), 0, m.from, m.to)
}

// What a character does where the reader stands.
fn on_char(m: Marks, buf: &mut [u8], text: &mut [u8], c: u32) -> Turned
    requires { Sound m buf.old text.old × CharFits c m.at }
    ensures { (turn_in result buf.new text.new ≡ calls.on_stage (state_of m buf.old) m.stage c)
        × (text.new ≡ text_turned (calls.on_stage (state_of m buf.old) m.stage c) text.old) }
{
    let stage = m.stage;
    match stage {
        Stage::Opening => go_on(on_first(m, buf, c)),
        Stage::Pound => on_pound(m, buf, text, c),
        Stage::FirstLine => go_on(on_line(m, buf, c)),
        Stage::Idle => go_on(begin(m, buf, m.from, m.to, c)),
        Stage::Busy(start, phase) => on_item(m, buf, text, start, phase, c),
        Stage::Waiting(_start, _beyond) => go_on(m),
        Stage::Stopped(_number, _place) => go_on(m),
    }
}

// What a byte does: it is one too many, it is bad, it is part of a character, or it makes one whole.
pub fn turn(m: Marks, buf: &mut [u8], text: &mut [u8], b: u8) -> Turned
    requires { Sound m buf.old text.old }
    ensures { (turn_in result buf.new text.new ≡ calls.turn_of (state_of m buf.old) b)
        × (text.new ≡ text_turned (calls.turn_of (state_of m buf.old) b) text.old) }
{
    let part = m.part;
    if LIMIT <= m.at + part.count {
        return stop(m, TOO_LONG, LIMIT);
    }
    match byte_step(part.state, b) {
        Step::More(state) => go_on(with_part(
            m,
            Part {
                count: part.count + 1,
                state,
            },
        )),
        Step::Char(c) => on_char(m, buf, text, c),
        Step::Bad => stop(m, NOT_UTF8, m.at),
    }
}
