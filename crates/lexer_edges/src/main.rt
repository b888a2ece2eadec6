// The whole-text call at its edges, run: each case prints what the call answers, then all words of the record memory and all bytes of the
// text memory, so that the file `stdout` shows what was written and that the rest stayed. What it has to print is worked out by hand
// from document 01. Refusal 20 wants a text of 4 GiB and is not run; `pieces_edges` shows it in pieces.
#![tactic(auto)]

ghost use Rattle.std.specs.Prelude.{◌*◌, ◌≤◌, length};
ghost use Rattle.items.specs.Items.{record_words};

use items::RECORD_WORDS;
use items::modes::{PLAIN, REPORT};
use lexer::{Needed, ReadError, read};
use refusal::{LIMIT_VALUE, NO_MODE, NOT_UTF8, SERVED, TOO_FEW, TOO_LONG};
use std::io;

// What both memories hold before a call.
const MARK_WORD: u32 = 7;

const MARK_BYTE: u8 = 7;

// How many words and bytes each memory has: two records, and the bytes of one long text. A call is lent a first part of them.
const RECORD_ROOM: usize = 2 * RECORD_WORDS;

const BYTE_ROOM: usize = 6;

fn number(rt: &impl Print, n: u64) -> io::Result<()> {
    print!(rt; "{n} ")
}

fn end_line(rt: &impl Print) -> io::Result<()> {
    println!(rt)
}

fn show_words(rt: &impl Print, words: &[u32]) -> io::Result<()> {
    for word in words {
        number(rt, *word as u64)?;
    }
    end_line(rt)
}

fn show_bytes(rt: &impl Print, bytes: &[u8]) -> io::Result<()> {
    for byte in bytes {
        number(rt, *byte as u64)?;
    }
    end_line(rt)
}

// 01's number of an answer, SERVED where there is none, and its two values.
fn show_answer(rt: &impl Print, answer: Result<Needed, ReadError>) -> io::Result<()> {
    match answer {
        Ok(done) => show_numbers(rt, SERVED, done.items as u64, done.text as u64)?,
        Err(ReadError::NoMode(mode)) => show_numbers(rt, NO_MODE, mode as u64, 0)?,
        Err(ReadError::TooLong) => show_numbers(rt, TOO_LONG, LIMIT_VALUE, 0)?,
        Err(ReadError::NotUtf8(at)) => show_numbers(rt, NOT_UTF8, at as u64, 0)?,
        Err(ReadError::NoRoom(needed)) => {
            show_numbers(rt, TOO_FEW, needed.items as u64, needed.text as u64)?
        }
    }
    end_line(rt)
}

fn show_numbers(rt: &impl Print, a: u32, b: u64, c: u64) -> io::Result<()> {
    number(rt, a as u64)?;
    number(rt, b)?;
    number(rt, c)
}

// One call, with the first so many words and bytes lent.
fn call(
    rt: &impl Print,
    source: &[u8],
    mode: u32,
    skip: bool,
    records: &mut [u32],
    text: &mut [u8],
    words: usize,
    bytes: usize,
) -> io::Result<()>
    requires { (words ≤ length records.old) × (bytes ≤ length text.old) }
{
    let answer = read(
        source,
        mode,
        skip,
        &mut records[..words],
        &mut text[..bytes],
    );
    show_answer(rt, answer)?;
    show_words(rt, records)?;
    show_bytes(rt, text)
}

// The same on fresh memories.
fn case(
    rt: &impl Print,
    source: &[u8],
    mode: u32,
    skip: bool,
    words: usize,
    bytes: usize,
) -> io::Result<()>
    requires { (words ≤ 2 * record_words) × (bytes ≤ 6) }
{
    let mut records = [MARK_WORD; RECORD_ROOM];
    let mut text = [MARK_BYTE; BYTE_ROOM];
    call(
        rt,
        source,
        mode,
        skip,
        &mut records,
        &mut text,
        words,
        bytes,
    )
}

fn main(rt: HostRuntime) -> io::Result<()> {
    // an empty text, and one blank
    case(&rt, b"", PLAIN, false, 0, 0)?;
    case(&rt, b" ", PLAIN, false, RECORD_ROOM, 6)?;
    // the last character, and past it
    case(&rt, b"\"\\x10FFFF;\"", PLAIN, false, RECORD_ROOM, 6)?;
    case(&rt, b"\"\\x110000;\"", PLAIN, false, RECORD_ROOM, 6)?;
    // records: one word short, and exactly enough
    case(&rt, b"(a", PLAIN, false, RECORD_ROOM - 1, 6)?;
    case(&rt, b"(a", PLAIN, false, RECORD_ROOM, 6)?;
    // text memory: one byte short, and exactly enough
    case(&rt, b"\"\\n\"\"\\t\"", PLAIN, false, RECORD_ROOM, 1)?;
    case(&rt, b"\"\\n\"\"\\t\"", PLAIN, false, RECORD_ROOM, 2)?;
    // no such mode, before anything else; no UTF-8
    case(&rt, b"\xFF", 2, false, 0, 0)?;
    case(&rt, b"a\xFF", PLAIN, false, 0, 0)?;
    // E8 in both modes, and with comments skipped
    case(&rt, b"14.7;gps", PLAIN, false, RECORD_ROOM, 0)?;
    case(&rt, b"14.7;gps", REPORT, false, RECORD_ROOM, 0)?;
    case(&rt, b"14.7;gps", PLAIN, true, RECORD_ROOM, 0)?;
    // the depth: a close with none open, and a skipped comment
    case(&rt, b")(", PLAIN, false, RECORD_ROOM, 0)?;
    case(&rt, b"(;a\nb", PLAIN, true, RECORD_ROOM, 0)
}
