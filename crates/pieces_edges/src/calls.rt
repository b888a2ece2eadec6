// Single calls, by the lines of the file `calls`: refusals that leave the state and the text memory as they were, stops that stand, empty
// pieces. A line is a letter, and a name or a piece after a tab:
//
//     # NAME    prints a name                     o          opens, in plain mode with comments kept
//     p PIECE   a piece call, answer printed      e          an end call, answer printed
//     q PIECE   the same, its answer shown above  f          the same, its answer shown above
//     s         prints the state                  -          from here on the text memory is a byte too short
//
// and a letter that makes the state one outside the bounds of docs/STATE.md: m its mode, a its place, t its range, b its character begun,
// l its item's length, k the start of its item, x its stop, d its depth; z makes its place the last that a text has, which is inside them:
// so 20 is shown without 4 GiB.
use crate::files::{FILE_ROOM, MOST_LINES, field, first, line, load, past_line};
use crate::show::{end_line, number, print, record, runs};
use crate::standing;
use items::modes::PLAIN;
use pieces::{Answer, Got, LONGEST, Marks, OpenError, Part, Stage, State};
use pieces_calls::calls::{end, piece};
use pieces_calls::opening::open;
use pieces_cuttings::{MARK_BYTE, part};
use pieces_giving::marks::no_part;
use refusal::{LIMIT, NO_MODE, TOO_FEW};
use std::io;
use std::rt::Files;

// The text memory that the calls ask for, and a byte less.
const ENOUGH: usize = LONGEST;

const A_BYTE_LESS: usize = LONGEST - 1;

// What no bound allows: a mode, a place, a length of an item, a stop, and of a short text a depth.
const UNKNOWN_MODE: u32 = 2;

const PAST_LIMIT: usize = LIMIT + 1;

const PAST_LONGEST: usize = LONGEST + 1;

const NO_STOP: u32 = TOO_FEW;

const UNLIKELY_DEPTH: u32 = 5;

// Where the calls stand: the state, and whether the text memory is a byte too short.
#[derive(Clone, Copy)]
struct CallsStand {
    state: State,
    little: bool,
}

// What a call answers, and the text memory after it.
fn answer(rt: &impl Print, a: Answer, text: &[u8]) -> io::Result<()> {
    print(rt, b"  taken ")?;
    number(rt, a.taken as u64)?;
    match a.got {
        Got::Item(r) => {
            print(rt, b"item ")?;
            record(rt, r)?;
        }
        Got::More => print(rt, b"more ")?,
        Got::Finished => print(rt, b"finished ")?,
        Got::Refused(refusal, place) => {
            print(rt, b"refused ")?;
            number(rt, refusal as u64)?;
            number(rt, place as u64)?;
        }
    }
    print(rt, b"memory ")?;
    runs(rt, text)?;
    end_line(rt)
}

// A piece call, with this text memory, whose answer is printed or not.
fn on_piece(
    rt: &impl Print,
    state: State,
    bytes: &[u8],
    told: bool,
    text: &mut [u8],
) -> io::Result<State> {
    let a = piece(state, bytes, text);
    if told {
        answer(rt, a, text)?;
    }
    Ok(a.state)
}

// An end call, with this text memory, whose answer is printed or not.
fn on_end(rt: &impl Print, state: State, told: bool, text: &mut [u8]) -> io::Result<State> {
    let a = end(state, text);
    if told {
        answer(rt, a, text)?;
    }
    Ok(a.state)
}

// A plain state, comments kept.
fn fresh() -> State {
    open(PLAIN, false).state
}

// Opening in a mode that there is not: refused, with a plain state.
fn no_mode(rt: &impl Print) -> io::Result<()> {
    print(rt, b"mode 2\n")?;
    let no = open(UNKNOWN_MODE, false);
    match no.start {
        Ok(()) => print(rt, b"  ready")?,
        Err(OpenError::NoMode(mode)) => {
            print(rt, b"  refused ")?;
            number(rt, NO_MODE as u64)?;
            number(rt, mode as u64)?;
        }
    }
    end_line(rt)?;
    standing::show(rt, no.state)
}

// A character begun that wants no more bytes.
fn full_part() -> Part {
    Part {
        count: 1,
        ..no_part()
    }
}

// The marks with one of them another, by a letter.
fn forged(m: Marks, letter: u8) -> Marks {
    let mut next = m;
    match letter {
        b'm' => next.mode = UNKNOWN_MODE,
        b'a' => next.at = PAST_LIMIT,
        b'z' => next.at = LIMIT,
        b't' => next.to = PAST_LIMIT,
        b'b' => next.part = full_part(),
        b'l' => next.len = PAST_LONGEST,
        b'k' => next.len = 1,
        b'd' => next.depth = UNLIKELY_DEPTH,
        b'x' => next.stage = Stage::Stopped(NO_STOP, 0),
        _ => (),
    }
    next
}

// The state with one of its marks another, by a letter.
fn forge(state: State, letter: u8) -> State {
    let mut next = state;
    next.marks = forged(state.marks, letter);
    next
}

// The state after a call, by a letter.
fn call(rt: &impl Print, state: State, letter: u8, bytes: &[u8]) -> io::Result<State> {
    let mut text = [MARK_BYTE; ENOUGH];
    match letter {
        b'p' => on_piece(rt, state, bytes, true, &mut text),
        b'q' => on_piece(rt, state, bytes, false, &mut text),
        b'e' => on_end(rt, state, true, &mut text),
        b'f' => on_end(rt, state, false, &mut text),
        _ => Ok(forge(state, letter)),
    }
}

// The same with a text memory that is a byte too short.
fn call_short(rt: &impl Print, state: State, letter: u8, bytes: &[u8]) -> io::Result<State> {
    let mut text = [MARK_BYTE; A_BYTE_LESS];
    if letter == b'p' {
        return on_piece(rt, state, bytes, true, &mut text);
    }
    on_end(rt, state, true, &mut text)
}

// What a letter prints beside answers.
fn tell(rt: &impl Print, state: State, letter: u8, name: &[u8]) -> io::Result<()> {
    if letter == b's' {
        return standing::show(rt, state);
    }
    print(rt, name)?;
    end_line(rt)
}

// The state after a line that calls or forges.
fn after(rt: &impl Print, stand: CallsStand, letter: u8, rest: &[u8]) -> io::Result<CallsStand> {
    let state = stand.state;
    if stand.little {
        return Ok(CallsStand {
            state: call_short(rt, state, letter, rest)?,
            little: true,
        });
    }
    Ok(CallsStand {
        state: call(rt, state, letter, rest)?,
        little: false,
    })
}

// Where the calls stand after a line, by its letter and what follows.
fn step(rt: &impl Print, stand: CallsStand, letter: u8, rest: &[u8]) -> io::Result<CallsStand> {
    let state = stand.state;
    match letter {
        b'#' | b's' => {
            tell(rt, state, letter, rest)?;
            Ok(stand)
        }
        b'o' => Ok(CallsStand {
            state: fresh(),
            little: false,
        }),
        b'-' => Ok(CallsStand {
            state,
            little: true,
        }),
        _ => after(rt, stand, letter, rest),
    }
}

// The same, with the line whole.
fn step_line(rt: &impl Print, stand: CallsStand, line: &[u8]) -> io::Result<CallsStand> {
    step(rt, stand, first(line), field(line, 1))
}

// The lines of the file, one after the other.
fn follow(rt: &impl Print, from: CallsStand, file: &[u8]) -> io::Result<()> {
    let mut stand = from;
    let mut at: usize = 0;
    for _ in 0..MOST_LINES {
        if file.len() <= at {
            break;
        }
        stand = step_line(rt, stand, line(file, at))?;
        at = past_line(file, at);
    }
    Ok(())
}

// All of them.
pub(crate) fn edge(rt: &(impl Files + Print)) -> io::Result<()> {
    no_mode(rt)?;
    let mut file = [0u8; FILE_ROOM];
    let count = load(rt, "calls", &mut file)?;
    let opened = CallsStand {
        state: fresh(),
        little: false,
    };
    follow(rt, opened, part(&file, 0, count))
}
