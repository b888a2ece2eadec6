// Replays two lists of the Rust's answers: data/answers and data/stops hold texts, each with the items that the unchanged Rust gives for
// it, or with the refusal that document 01 gives, and every text is read again here by the proved calls, whole and in pieces. The program
// prints how many answers it met, or the first text whose answer differs. docs/REPLAY.md says how the lists were made;
// compare/replay/src/frame.rs says how they are written.
#![tactic(auto)]

use frame::{FrameHead, HEAD};
use inputs::read_full;
use judge::Verdict;
use std::io::Read;
use std::rt::Files;
use std::{fs, io};

mod cut;
mod frame;
mod judge;

// The bytes or words of each memory: the longest text has some 4,000 bytes.
pub(crate) const MEMORY_ROOM: usize = 8192;

// More frames than any list has: the program ends, whatever it reads.
const MOST_FRAMES: u64 = 1_000_000;

// How many answers were met, whole and in pieces, and whether the list is at its end or has one that differs.
#[derive(Clone, Copy)]
struct Done {
    whole: u64,
    pieces: u64,
    over: bool,
}

// How many answers were met.
fn print_done(rt: &impl Print, list: &str, done: Done) -> io::Result<()> {
    print!(rt; "{list}: {} answers replayed whole, ", done.whole)?;
    print!(rt;
        "{} byte by byte and in pieces of 0 to 4 bytes: ",
        done.pieces
    )
}

// The same, when nothing is left to replay.
fn over(done: Done) -> Done {
    Done { over: true, ..done }
}

// Says that all answers were met.
fn met(rt: &impl Print, list: &str, done: Done) -> io::Result<Done> {
    print_done(rt, list, done)?;
    println!(rt; "none differs")?;
    Ok(over(done))
}

// Names the text whose answer differs, after those met, and the calls that answer it so.
fn differs(
    rt: &impl Print,
    list: &str,
    done: Done,
    calls: &str,
    source: &[u8],
    count: usize,
) -> io::Result<Done> {
    print_done(rt, list, done)?;
    print!(rt; "then one differs, {calls}, on the text: ")?;
    if count <= source.len() {
        rt.write_all(&source[..count])?;
    }
    println!(rt)?;
    Ok(over(done))
}

fn broken(rt: &impl Print, list: &str, done: Done) -> io::Result<Done> {
    println!(rt; "{list} is no list of answers")?;
    Ok(over(done))
}

// One more, if a frame is told of it.
fn more(count: u64, told: bool) -> u64 {
    if told {
        return std::num::wrapping_add_u64(count, 1);
    }
    count
}

// What was met after a frame, which is named if its answer differs.
fn after(
    rt: &impl Print,
    list: &str,
    done: Done,
    f: FrameHead,
    verdict: Verdict,
    source: &[u8],
) -> io::Result<Done> {
    match verdict {
        Verdict::Met => Ok(Done {
            whole: more(done.whole, f.whole),
            pieces: more(done.pieces, f.pieces),
            over: false,
        }),
        Verdict::Whole => differs(rt, list, done, "whole", source, f.source),
        Verdict::Bytes => differs(rt, list, done, "byte by byte", source, f.source),
        Verdict::Pieces => differs(
            rt,
            list,
            done,
            "in pieces of 0 to 4 bytes",
            source,
            f.source,
        ),
        Verdict::Broken => broken(rt, list, done),
    }
}

// Reads one frame and judges it, in lent memory.
fn judged(
    rt: &impl Print,
    file: &mut impl Read,
    list: &str,
    done: Done,
    source: &mut [u8],
    words: &mut [u8],
    memory: &mut [u8],
    records: &mut [u32],
    text: &mut [u8],
) -> io::Result<Done> {
    let mut b = [0u8; HEAD];
    if read_full(file, &mut b)? == 0 {
        return met(rt, list, done);
    }
    let f = frame::head(&b);
    if !frame::fill(file, source, f.source)?
        || !frame::fill(file, words, f.words)?
        || !frame::fill(file, memory, f.memory)?
    {
        return broken(rt, list, done);
    }
    let verdict = judge::frame(f, source, words, memory, records, text);
    after(rt, list, done, f, verdict, source)
}

// The same, in memory of its own.
fn one(rt: &impl Print, file: &mut impl Read, list: &str, done: Done) -> io::Result<Done> {
    let mut source = [0u8; MEMORY_ROOM];
    let mut words = [0u8; MEMORY_ROOM];
    let mut memory = [0u8; MEMORY_ROOM];
    let mut records = [0u32; MEMORY_ROOM];
    let mut text = [0u8; MEMORY_ROOM];
    judged(
        rt,
        file,
        list,
        done,
        &mut source,
        &mut words,
        &mut memory,
        &mut records,
        &mut text,
    )
}

// Replays a list, frame by frame.
fn replay(rt: &impl Print, file: &mut impl Read, list: &str) -> io::Result<()> {
    let mut done = Done {
        whole: 0,
        pieces: 0,
        over: false,
    };
    for _ in 0..MOST_FRAMES {
        done = one(rt, file, list, done)?;
        if done.over {
            return Ok(());
        }
    }
    Ok(())
}

// Replays the list of a file. What cannot be opened is told on standard error.
fn replay_file(rt: &(impl Files + Print + Eprint), list: &str) -> io::Result<()> {
    match fs::open(rt, list) {
        Ok(mut file) => replay(rt, &mut file, list),
        Err(e) => eprintln!(rt; "{list}: {e}"),
    }
}

fn main(rt: HostRuntime) -> io::Result<()> {
    replay_file(&rt, "answers")?;
    replay_file(&rt, "stops")
}
