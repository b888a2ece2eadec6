// Whether a state is within the field bounds: refusal 27 is for those outside. docs/STATE.md lists the bounds.
#![tactic(auto)]

ghost use Rattle.std.specs.Prelude.{◌≡◌, ◌&&◌, List, ℕ, ◌+◌, ◌-◌, ◌*◌, ◌^◌, ◌≤◌, leb};
ghost use Rattle.items.specs.Whole.{limit};
ghost use Rattle.pieces.specs.Bounds.{is_place, part_bounds, done_bounds, phase_bounds, beyond_bounds, held_bounds, stop_bounds, stage_bounds, number_bounds, is_in_bounds};

use chars::{char_width, is_scalar};
use items::modes::REPORT;
use items::{Outcome, Phase, kinds};
use pieces::{LONGEST, Marks, Part, Stage};
use refusal::{LIMIT, LONG_ITEM, NOT_UTF8, TOO_LONG};

// How many bytes a character has at most.
const WIDEST: usize = 4;

// How many bytes the quotes of an item are.
const QUOTES_LENGTH: usize = 2;

// A pair has its plus and another byte.
const PAIR_LENGTH: usize = 2;

// The first code that has too many bits for a character of which `count` bytes were taken and `need` are to come.
fn code_end(count: usize, need: usize) -> u32
    requires { (1 ≤ count) × (1 ≤ need) × (count + need ≤ 4) }
    ensures { result ≡ 2 ^ (1 + 6 * count - (count + need)) }
{
    match (count, need) {
        (1, 1) => 0x20,
        (1, 2) => 0x10,
        (1, _) => 0x8,
        (2, 1) => 0x400,
        (2, _) => 0x200,
        _ => 0x8000,
    }
}

// Whether the numbers of a character begun are such that it never gets more bytes than were taken.
fn part_bounds(part: Part) -> bool
    ensures { result ≡ part_bounds part }
{
    let need = part.state.need as usize;
    if part.count == 0 {
        return need == 0;
    }
    1 <= need
        && part.count <= WIDEST
        && part.count + need <= WIDEST
        && part.state.code < code_end(part.count, need)
}

// Whether a range of an error is within the longest text.
fn range_bounds(error: u32, from: usize, to: usize) -> bool
    ensures { result ≡ done_bounds (Outcome.ErrorAt error 0 from to) }
{
    error <= kinds::LAST_ERROR && from <= LIMIT && to <= LIMIT
}

// Whether an item that is whole may have this outcome.
fn done_bounds(what: Outcome) -> bool
    ensures { result ≡ done_bounds what }
{
    match what {
        Outcome::Token(_kind, _detail) => true,
        Outcome::Error(error, _detail) => error <= kinds::LAST_ERROR,
        Outcome::ErrorAt(error, _detail, from, to) => range_bounds(error, from, to),
        Outcome::Str => false,
        Outcome::HereStr => false,
        Outcome::Word => false,
        Outcome::Run => false,
        Outcome::Lined => false,
        Outcome::Keyword => false,
        Outcome::Character => false,
    }
}

// Whether a hex escape starts within the longest text, and its digits within the item.
fn hex_bounds(from: usize, digits: usize, held: usize) -> bool
    ensures { result ≡ (is_place from && leb digits held) }
{
    from <= LIMIT && digits <= held
}

// Whether the phase's numbers fit an item of which `held` bytes are there.
fn phase_bounds(phase: Phase, held: usize) -> bool
    ensures { result ≡ phase_bounds phase held }
{
    match phase {
        Phase::InLine => true,
        Phase::AfterComma => true,
        Phase::AfterHash => true,
        Phase::AfterAngle => true,
        Phase::HereDelim => true,
        Phase::HereStart => true,
        Phase::HereBody => true,
        Phase::InWord => true,
        Phase::WordEscape => true,
        Phase::InRun => true,
        Phase::InHash => true,
        Phase::HashEscape => true,
        Phase::HashTick => true,
        Phase::HashComma => true,
        Phase::Nest(depth) => depth <= held,
        Phase::NestBar(depth) => depth <= held,
        Phase::NestSharp(depth) => depth <= held,
        Phase::Quoted(_k) => true,
        Phase::Closed(_k) => QUOTES_LENGTH <= held,
        Phase::TrimBefore(_k) => true,
        Phase::TrimAfter(_k) => true,
        Phase::Escape(_k, from) => from <= LIMIT,
        Phase::Brace(_k, from) => from <= LIMIT,
        Phase::Hex(_k, _closer, from, digits) => hex_bounds(from, digits, held),
        Phase::Done(what) => done_bounds(what),
    }
}

// Whether a character at a place is one, and within the longest text.
fn char_bounds(c: u32, at: usize) -> bool
    requires { at ≤ limit }
    ensures { result ≡ beyond_bounds (Some c) at }
{
    is_scalar(c) && at + char_width(c) <= LIMIT
}

// Whether what stands beyond a pair is within the longest text.
fn beyond_bounds(beyond: Option<u32>, at: usize) -> bool
    requires { at ≤ limit }
    ensures { result ≡ beyond_bounds beyond at }
{
    match beyond {
        None => true,
        Some(c) => char_bounds(c, at),
    }
}

// Whether an item that starts at `start` lies right before the place, with at least so many bytes.
fn held_bounds(start: usize, m: Marks, least: usize) -> bool
    ensures { result ≡ held_bounds start m least }
{
    m.len <= m.at && m.at - m.len == start && least <= m.len
}

// Whether a stop is one of those that stand, at a place of a text.
fn stop_bounds(number: u32, place: usize) -> bool
    ensures { result ≡ stop_bounds number place }
{
    matches!(number, TOO_LONG | NOT_UTF8 | LONG_ITEM) && place <= LIMIT
}

// Whether a first # is all that was read.
fn pound_bounds(m: Marks) -> bool
    ensures { result ≡ stage_bounds Stage.Pound m }
{
    m.len == 1 && m.at == 1
}

// Whether an item that starts at `start` is held, and its phase fits.
fn busy_bounds(start: usize, phase: Phase, m: Marks) -> bool
    ensures { result ≡ stage_bounds (Stage.Busy start phase) m }
{
    held_bounds(start, m, 1) && phase_bounds(phase, m.len)
}

// Whether a pair that starts at `start` is held, between two characters, and what stands beyond it fits.
fn waiting_bounds(start: usize, beyond: Option<u32>, m: Marks) -> bool
    requires { m.at ≤ limit }
    ensures { result ≡ stage_bounds (Stage.Waiting start beyond) m }
{
    held_bounds(start, m, PAIR_LENGTH) && m.part.count == 0 && beyond_bounds(beyond, m.at)
}

// Whether the stage fits the other marks.
fn stage_bounds(stage: Stage, m: Marks) -> bool
    requires { m.at ≤ limit }
    ensures { result ≡ stage_bounds stage m }
{
    match stage {
        Stage::Opening => m.at == 0,
        Stage::Pound => pound_bounds(m),
        Stage::FirstLine => true,
        Stage::Idle => true,
        Stage::Busy(start, phase) => busy_bounds(start, phase, m),
        Stage::Waiting(start, beyond) => waiting_bounds(start, beyond, m),
        Stage::Stopped(number, place) => stop_bounds(number, place),
    }
}

// Whether the numbers of the marks are within the longest text, the longest item and the modes, and no more brackets are open than bytes lie
// before the item.
fn number_bounds(m: Marks) -> bool
    ensures { result ≡ number_bounds m }
{
    m.mode <= REPORT
        && m.at <= LIMIT
        && m.part.count <= LIMIT - m.at
        && m.len <= LONGEST
        && m.from <= LIMIT
        && m.to <= LIMIT
        && m.len <= m.at
        && m.depth as usize <= m.at - m.len
}

// Whether a state with these marks is within its bounds.
#[tactic(auto, unfolding(pieces::specs::Bounds::is_in_bounds))]
pub fn in_bounds(m: Marks) -> bool
    ensures { (buf : List ℕ) → result ≡ is_in_bounds (record { buf = buf; marks = m }) }
{
    number_bounds(m) && part_bounds(m.part) && stage_bounds(m.stage, m)
}
