// From words to marks.
ghost use Rattle.std.specs.Prelude.{◌≡◌, true, ◌^◌, ◌≤◌, ◌<◌};
ghost use Rattle.pieces_lent.specs.Coding as coding;

use crate::codes::*;
use crate::encoding::stage_row;
use crate::{StageRow, Words};
use chars::Begun;
use items::{Outcome, Phase, Quotes};
use pieces::{Marks, Part, Stage};

// Numbers narrower than a word end before these.
const BYTE_END: u64 = 0x100;

const NARROW_END: u64 = 0x1_0000_0000;

fn quotes_of(which: u64) -> Quotes
    ensures { result ≡ coding.quotes_of which }
{
    if which == DOUBLE {
        Quotes::Double
    } else {
        Quotes::Lines
    }
}

// The outcome of an item that is whole.
fn outcome_of(row: StageRow) -> Outcome
    requires { (coding.first_done ≤ row.stage) × (row.stage < coding.stage_count) × coding.Narrow row }
    ensures { Stage.Busy row.start (Phase.Done result) ≡ coding.stage_of row }
{
    let stage = row.stage;
    let which = row.which as u32;
    let detail = row.detail as u32;
    match stage {
        DONE_TOKEN => Outcome::Token(which, detail),
        DONE_STR => Outcome::Str,
        DONE_HERE_STR => Outcome::HereStr,
        DONE_WORD => Outcome::Word,
        DONE_RUN => Outcome::Run,
        DONE_LINED => Outcome::Lined,
        DONE_KEYWORD => Outcome::Keyword,
        DONE_CHARACTER => Outcome::Character,
        DONE_ERROR => Outcome::Error(which, detail),
        _ => Outcome::ErrorAt(which, detail, row.one as usize, row.two as usize),
    }
}

// The phase of an item.
fn phase_of(row: StageRow) -> Phase
    requires { (coding.first_phase ≤ row.stage) × (row.stage < coding.stage_count) × coding.Narrow row }
    ensures { Stage.Busy row.start result ≡ coding.stage_of row }
{
    let stage = row.stage;
    let one = row.one as usize;
    match stage {
        IN_LINE => Phase::InLine,
        AFTER_COMMA => Phase::AfterComma,
        AFTER_HASH => Phase::AfterHash,
        AFTER_ANGLE => Phase::AfterAngle,
        HERE_DELIM => Phase::HereDelim,
        HERE_START => Phase::HereStart,
        HERE_BODY => Phase::HereBody,
        IN_WORD => Phase::InWord,
        WORD_ESCAPE => Phase::WordEscape,
        IN_RUN => Phase::InRun,
        IN_HASH => Phase::InHash,
        HASH_ESCAPE => Phase::HashEscape,
        HASH_TICK => Phase::HashTick,
        HASH_COMMA => Phase::HashComma,
        NEST => Phase::Nest(one),
        NEST_BAR => Phase::NestBar(one),
        NEST_SHARP => Phase::NestSharp(one),
        QUOTED => Phase::Quoted(quotes_of(row.which)),
        CLOSED => Phase::Closed(quotes_of(row.which)),
        TRIM_BEFORE => Phase::TrimBefore(quotes_of(row.which)),
        TRIM_AFTER => Phase::TrimAfter(quotes_of(row.which)),
        ESCAPE => Phase::Escape(quotes_of(row.which), one),
        BRACE => Phase::Brace(quotes_of(row.which), one),
        HEX => Phase::Hex(
            quotes_of(row.which),
            row.detail as u32,
            one,
            row.two as usize,
        ),
        _ => Phase::Done(outcome_of(row)),
    }
}

fn stage_of(row: StageRow) -> Stage
    requires { (row.stage < coding.stage_count) × coding.Narrow row }
    ensures { result ≡ coding.stage_of row }
{
    let stage = row.stage;
    let start = row.start as usize;
    match stage {
        OPENING => Stage::Opening,
        POUND => Stage::Pound,
        FIRST_LINE => Stage::FirstLine,
        IDLE => Stage::Idle,
        WAITING_END => Stage::Waiting(start, None),
        WAITING_CHAR => Stage::Waiting(start, Some(row.detail as u32)),
        STOPPED => Stage::Stopped(row.which as u32, start),
        _ => Stage::Busy(start, phase_of(row)),
    }
}

fn row_of(words: Words) -> StageRow
    ensures { result ≡ coding.row_of words }
{
    StageRow {
        stage: words.stage,
        start: words.start,
        which: words.which,
        detail: words.detail,
        one: words.one,
        two: words.two,
    }
}

// The marks that the words stand for.
pub fn stand(words: Words) -> Marks
    requires { (words.stage < coding.stage_count) × coding.Narrowed words }
    ensures { result ≡ coding.standing words }
{
    Marks {
        mode: words.mode as u32,
        skip: words.skip == YES,
        ended: words.ended == YES,
        stage: stage_of(row_of(words)),
        at: words.at as usize,
        part: Part {
            count: words.count as usize,
            state: Begun {
                need: words.need as u8,
                low: words.low as u8,
                high: words.high as u8,
                code: words.code as u32,
            },
        },
        from: words.from as usize,
        to: words.to as usize,
        len: words.len as usize,
        depth: words.depth as u32,
    }
}

// Whether the narrower numbers are narrow.
#[tactic(auto, unfolding(crate::specs::Coding::narrow))]
fn narrow(words: Words) -> bool
    ensures { result ≡ coding.narrow words }
{
    words.mode < NARROW_END
        && words.which < NARROW_END
        && words.detail < NARROW_END
        && words.need < BYTE_END
        && words.low < BYTE_END
        && words.high < BYTE_END
        && words.code < NARROW_END
        && words.depth < NARROW_END
}

#[tactic(auto, unfolding(crate::specs::Coding::is_same_row))]
fn same_row(a: StageRow, b: StageRow) -> bool
    ensures { result ≡ coding.is_same_row a b }
{
    a == b
}

// The marks that the words stand for, if they stand for any.
pub fn decode(words: Words) -> Option<Marks>
    ensures { result ≡ coding.seen words }
{
    if !narrow(words) {
        return None;
    }
    if YES < words.skip {
        return None;
    }
    if YES < words.ended {
        return None;
    }
    if STAGES <= words.stage {
        return None;
    }
    let marks = stand(words);
    if !same_row(row_of(words), stage_row(marks.stage)) {
        return None;
    }
    Some(marks)
}
