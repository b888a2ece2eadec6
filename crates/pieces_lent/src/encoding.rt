// From marks to words.
ghost use Rattle.std.specs.Prelude.{◌≡◌};
ghost use Rattle.pieces.specs.Calls.{fresh};
ghost use Rattle.pieces_lent.specs.Coding as coding;

use crate::codes::*;
use crate::{StageRow, Words};
use items::{Outcome, Phase, Quotes};
use pieces::{Marks, Stage};

// The answer to a question.
fn bit(yes: bool) -> u64
    ensures { result ≡ coding.bit yes }
{
    if yes { YES } else { NO }
}

// The number of a kind of quotes.
fn quotes_code(k: Quotes) -> u64
    ensures { result ≡ coding.quotes_code k }
{
    match k {
        Quotes::Double => DOUBLE,
        Quotes::Lines => LINES,
    }
}

// A stage with no numbers.
fn bare(stage: u64) -> StageRow
    ensures { result ≡ coding.row stage 0 0 0 0 0 }
{
    row(stage, 0, 0, 0, 0, 0)
}

fn row(stage: u64, start: usize, which: u64, detail: u32, one: usize, two: usize) -> StageRow
    ensures { result ≡ coding.row stage start which detail one two }
{
    StageRow {
        stage,
        start: start as u64,
        which,
        detail: detail as u64,
        one: one as u64,
        two: two as u64,
    }
}

// An item that is whole, by its outcome.
fn outcome_row(start: usize, what: Outcome) -> StageRow
    ensures { result ≡ coding.outcome_row start what }
{
    match what {
        Outcome::Token(kind, detail) => row(DONE_TOKEN, start, kind as u64, detail, 0, 0),
        Outcome::Str => row(DONE_STR, start, 0, 0, 0, 0),
        Outcome::HereStr => row(DONE_HERE_STR, start, 0, 0, 0, 0),
        Outcome::Word => row(DONE_WORD, start, 0, 0, 0, 0),
        Outcome::Run => row(DONE_RUN, start, 0, 0, 0, 0),
        Outcome::Lined => row(DONE_LINED, start, 0, 0, 0, 0),
        Outcome::Keyword => row(DONE_KEYWORD, start, 0, 0, 0, 0),
        Outcome::Character => row(DONE_CHARACTER, start, 0, 0, 0, 0),
        Outcome::Error(error, detail) => row(DONE_ERROR, start, error as u64, detail, 0, 0),
        Outcome::ErrorAt(error, detail, from, to) => {
            row(DONE_ERROR_AT, start, error as u64, detail, from, to)
        }
    }
}

// An item in a phase that is in quotes.
fn quotes_row(
    stage: u64,
    start: usize,
    k: Quotes,
    closer: u32,
    from: usize,
    digits: usize,
) -> StageRow
    ensures { result ≡ coding.row stage start (coding.quotes_code k) closer from digits }
{
    row(stage, start, quotes_code(k), closer, from, digits)
}

// An item by its phase.
fn phase_row(start: usize, phase: Phase) -> StageRow
    ensures { result ≡ coding.phase_row start phase }
{
    match phase {
        Phase::InLine => row(IN_LINE, start, 0, 0, 0, 0),
        Phase::AfterComma => row(AFTER_COMMA, start, 0, 0, 0, 0),
        Phase::AfterHash => row(AFTER_HASH, start, 0, 0, 0, 0),
        Phase::AfterAngle => row(AFTER_ANGLE, start, 0, 0, 0, 0),
        Phase::HereDelim => row(HERE_DELIM, start, 0, 0, 0, 0),
        Phase::HereStart => row(HERE_START, start, 0, 0, 0, 0),
        Phase::HereBody => row(HERE_BODY, start, 0, 0, 0, 0),
        Phase::InWord => row(IN_WORD, start, 0, 0, 0, 0),
        Phase::WordEscape => row(WORD_ESCAPE, start, 0, 0, 0, 0),
        Phase::InRun => row(IN_RUN, start, 0, 0, 0, 0),
        Phase::InHash => row(IN_HASH, start, 0, 0, 0, 0),
        Phase::HashEscape => row(HASH_ESCAPE, start, 0, 0, 0, 0),
        Phase::HashTick => row(HASH_TICK, start, 0, 0, 0, 0),
        Phase::HashComma => row(HASH_COMMA, start, 0, 0, 0, 0),
        Phase::Nest(depth) => row(NEST, start, 0, 0, depth, 0),
        Phase::NestBar(depth) => row(NEST_BAR, start, 0, 0, depth, 0),
        Phase::NestSharp(depth) => row(NEST_SHARP, start, 0, 0, depth, 0),
        Phase::Quoted(k) => quotes_row(QUOTED, start, k, 0, 0, 0),
        Phase::Closed(k) => quotes_row(CLOSED, start, k, 0, 0, 0),
        Phase::TrimBefore(k) => quotes_row(TRIM_BEFORE, start, k, 0, 0, 0),
        Phase::TrimAfter(k) => quotes_row(TRIM_AFTER, start, k, 0, 0, 0),
        Phase::Escape(k, from) => quotes_row(ESCAPE, start, k, 0, from, 0),
        Phase::Brace(k, from) => quotes_row(BRACE, start, k, 0, from, 0),
        Phase::Hex(k, closer, from, digits) => quotes_row(HEX, start, k, closer, from, digits),
        Phase::Done(what) => outcome_row(start, what),
    }
}

// A pair of which one item was given.
fn beyond_row(start: usize, beyond: Option<u32>) -> StageRow
    ensures { result ≡ coding.beyond_row start beyond }
{
    match beyond {
        None => row(WAITING_END, start, 0, 0, 0, 0),
        Some(c) => row(WAITING_CHAR, start, 0, c, 0, 0),
    }
}

pub(crate) fn stage_row(stage: Stage) -> StageRow
    ensures { result ≡ coding.stage_row stage }
{
    match stage {
        Stage::Opening => bare(OPENING),
        Stage::Pound => bare(POUND),
        Stage::FirstLine => bare(FIRST_LINE),
        Stage::Idle => bare(IDLE),
        Stage::Busy(start, phase) => phase_row(start, phase),
        Stage::Waiting(start, beyond) => beyond_row(start, beyond),
        Stage::Stopped(number, place) => row(STOPPED, place, number as u64, 0, 0, 0),
    }
}

// The words that stand for the marks.
pub fn encode(m: Marks) -> Words
    ensures { result ≡ coding.coded m }
{
    let row = stage_row(m.stage);
    let part = m.part;
    Words {
        mode: m.mode as u64,
        skip: bit(m.skip),
        ended: bit(m.ended),
        stage: row.stage,
        start: row.start,
        which: row.which,
        detail: row.detail,
        one: row.one,
        two: row.two,
        at: m.at as u64,
        count: part.count as u64,
        need: part.state.need as u64,
        low: part.state.low as u64,
        high: part.state.high as u64,
        code: part.state.code as u64,
        from: m.from as u64,
        to: m.to as u64,
        len: m.len as u64,
        depth: m.depth as u64,
    }
}

// The words of a fresh state.
pub(crate) fn fresh_words(mode: u32, skip: bool) -> Words
    ensures { result ≡ coding.coded (fresh mode skip).marks }
{
    Words {
        mode: mode as u64,
        skip: bit(skip),
        ended: NO,
        stage: OPENING,
        start: 0,
        which: 0,
        detail: 0,
        one: 0,
        two: 0,
        at: 0,
        count: 0,
        need: 0,
        low: 0,
        high: 0,
        code: 0,
        from: 0,
        to: 0,
        len: 0,
        depth: 0,
    }
}
