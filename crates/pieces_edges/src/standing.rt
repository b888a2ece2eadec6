// A piece state in print: every mark, and the buffer in runs. Of the phases of an item only those that the cases stand in have a name.
use crate::show::{end_line, number, print, runs};
use items::Phase;
use pieces::{Marks, Part, Stage, State};
use std::io;

fn phase(rt: &impl Print, p: Phase) -> io::Result<()> {
    match p {
        Phase::InWord => print(rt, b"InWord ")?,
        Phase::Nest(depth) => {
            print(rt, b"Nest ")?;
            number(rt, depth as u64)?;
        }
        _ => print(rt, b"another phase ")?,
    }
    Ok(())
}

fn beyond(rt: &impl Print, b: Option<u32>) -> io::Result<()> {
    match b {
        None => print(rt, b"End ")?,
        Some(c) => {
            print(rt, b"Char ")?;
            number(rt, c as u64)?;
        }
    }
    Ok(())
}

fn stage(rt: &impl Print, s: Stage) -> io::Result<()> {
    match s {
        Stage::Opening => print(rt, b"Opening ")?,
        Stage::Pound => print(rt, b"Pound ")?,
        Stage::FirstLine => print(rt, b"FirstLine ")?,
        Stage::Idle => print(rt, b"Idle ")?,
        Stage::Busy(start, p) => {
            print(rt, b"Busy ")?;
            number(rt, start as u64)?;
            phase(rt, p)?;
        }
        Stage::Waiting(start, b) => {
            print(rt, b"Waiting ")?;
            number(rt, start as u64)?;
            beyond(rt, b)?;
        }
        Stage::Stopped(refusal, place) => {
            print(rt, b"Stopped ")?;
            number(rt, refusal as u64)?;
            number(rt, place as u64)?;
        }
    }
    Ok(())
}

fn part(rt: &impl Print, p: Part) -> io::Result<()> {
    let begun = p.state;
    print(rt, b"part ")?;
    number(rt, p.count as u64)?;
    number(rt, begun.need as u64)?;
    number(rt, begun.low as u64)?;
    number(rt, begun.high as u64)?;
    number(rt, begun.code as u64)
}

fn yes(rt: &impl Print, said: bool, name: &[u8]) -> io::Result<()> {
    if said {
        print(rt, name)?;
    }
    Ok(())
}

fn marks(rt: &impl Print, m: Marks) -> io::Result<()> {
    let s = m.stage;
    let p = m.part;
    print(rt, b"mode ")?;
    number(rt, m.mode as u64)?;
    yes(rt, m.skip, b"skip ")?;
    yes(rt, m.ended, b"ended ")?;
    print(rt, b"stage ")?;
    stage(rt, s)?;
    print(rt, b"at ")?;
    number(rt, m.at as u64)?;
    part(rt, p)?;
    print(rt, b"range ")?;
    number(rt, m.from as u64)?;
    number(rt, m.to as u64)?;
    print(rt, b"len ")?;
    number(rt, m.len as u64)?;
    print(rt, b"depth ")?;
    number(rt, m.depth as u64)
}

// A state, on a line of its own.
pub(crate) fn show(rt: &impl Print, state: State) -> io::Result<()> {
    let m = state.marks;
    let buf = state.buf;
    print(rt, b"  state ")?;
    marks(rt, m)?;
    print(rt, b"buffer ")?;
    runs(rt, &buf)?;
    end_line(rt)
}
