// The cases of a file, one after the other.
use crate::files::{FILE_ROOM, MOST_LINES, line, load, past_line};
use crate::long::LongItem;
use crate::{cuts, long};
use pieces_cuttings::{Cutting, part};
use std::io;
use std::rt::Files;

// What is done with each case of a file.
#[derive(Clone, Copy)]
pub enum Job {
    // a long item is made and read
    Items(LongItem),
    // a text is cut inside each of its characters
    Cut,
    // a text is read under a cutting
    Read(Cutting),
}

fn case(rt: &impl Print, job: Job, line: &[u8]) -> io::Result<()> {
    match job {
        Job::Items(run) => long::case(rt, run, line)?,
        Job::Cut => cuts::cut_case(rt, line)?,
        Job::Read(cutting) => cuts::read_case(rt, cutting, line)?,
    }
    Ok(())
}

// Does it with each line.
fn each(rt: &impl Print, job: Job, file: &[u8]) -> io::Result<()> {
    let mut at: usize = 0;
    for _ in 0..MOST_LINES {
        if file.len() <= at {
            break;
        }
        case(rt, job, line(file, at))?;
        at = past_line(file, at);
    }
    Ok(())
}

// Does it with the cases of a file.
pub(crate) fn cases(rt: &(impl Files + Print), job: Job, name: &str) -> io::Result<()> {
    let mut file = [0u8; FILE_ROOM];
    let count = load(rt, name, &mut file)?;
    each(rt, job, part(&file, 0, count))
}
