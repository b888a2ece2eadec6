// What is printed: numbers, bytes in runs, items and how a reading ended.
ghost use Rattle.std.specs.Prelude.{◌≡◌};

use items::Record;
use items::modes::PLAIN;
use pieces_cuttings::{Cutting, Ending, Reading, part, record_at};
use std::io;

// The words or bytes of the memories that a reading is written to.
const READING_ROOM: usize = 8192;

pub fn print(rt: &impl Print, text: &[u8]) -> io::Result<()>
    ensures { text.exit.now ≡ text.entry.now }
{
    rt.write_all(text)
}

pub fn number(rt: &impl Print, n: u64) -> io::Result<()> {
    print!(rt; "{n} ")
}

pub fn end_line(rt: &impl Print) -> io::Result<()> {
    print(rt, b"\n")
}

// Whether the byte at a place is the last one, or another follows.
fn ends_run(bytes: &[u8], at: usize) -> bool {
    bytes.len().saturating_sub(at) <= 1 || bytes[at] != bytes[at + 1]
}

// So many times a byte.
fn run(rt: &impl Print, count: u64, byte: u8) -> io::Result<()> {
    print!(rt; "{count}*")?;
    number(rt, u64::from(byte))
}

// Bytes, each run of the same byte as its count and the byte: 2*97 1*98 for aab.
pub fn runs(rt: &impl Print, bytes: &[u8]) -> io::Result<()>
    ensures { bytes.exit.now ≡ bytes.entry.now }
{
    let mut count: u64 = 0;
    for i in 0..bytes.len() {
        count = std::num::wrapping_add_u64(count, 1);
        if ends_run(bytes, i) {
            run(rt, count, bytes[i])?;
            count = 0;
        }
    }
    Ok(())
}

// The words of a record.
pub fn record(rt: &impl Print, r: Record) -> io::Result<()> {
    let nine = r.nine;
    number(rt, nine.kind as u64)?;
    number(rt, nine.detail as u64)?;
    number(rt, nine.start as u64)?;
    number(rt, nine.end as u64)?;
    number(rt, nine.from as u64)?;
    number(rt, nine.to as u64)?;
    number(rt, nine.source as u64)?;
    number(rt, nine.first as u64)?;
    number(rt, nine.past as u64)?;
    number(rt, r.depth as u64)
}

// An item on a line: how many bytes were taken when it was given, its record, its text.
fn item(rt: &impl Print, taken: usize, r: Record, text: &[u8]) -> io::Result<()> {
    print(rt, b"  at ")?;
    number(rt, taken as u64)?;
    print(rt, b"item ")?;
    record(rt, r)?;
    runs(rt, text)?;
    end_line(rt)
}

// The items of a reading.
fn items(
    rt: &impl Print,
    count: usize,
    records: &[u32],
    counts: &[usize],
    texts: &[u8],
) -> io::Result<()> {
    let mut at: usize = 0;
    for n in 0..count.min(counts.len()) {
        let r = record_at(records, n);
        let next = std::num::wrapping_add_usize(at, r.nine.past as usize);
        item(rt, counts[n], r, part(texts, at, next))?;
        at = next;
    }
    Ok(())
}

// How a reading ended, after so many bytes, and whether a call changed text memory that it should not.
fn ending(rt: &impl Print, r: Reading) -> io::Result<()> {
    print(rt, b"  at ")?;
    number(rt, r.taken as u64)?;
    if let Some(Ending::Refused(refusal, place)) = r.ending {
        print(rt, b"refused ")?;
        number(rt, refusal as u64)?;
        number(rt, place as u64)?;
    } else {
        print(rt, b"finished")?;
    }
    if !r.kept {
        print(rt, b" text memory changed")?;
    }
    if r.ending.is_none() {
        print(rt, b" no end")?;
    }
    end_line(rt)
}

// Reads a text in plain mode under a cutting, and prints what is given.
pub fn reading(rt: &impl Print, source: &[u8], cutting: Cutting, skip: bool) -> io::Result<()>
    ensures { source.exit.now ≡ source.entry.now }
{
    let mut records = [0u32; READING_ROOM];
    let mut counts = [0usize; READING_ROOM];
    let mut texts = [0u8; READING_ROOM];
    let r = pieces_cuttings::read(
        source,
        cutting,
        PLAIN,
        skip,
        &mut records,
        &mut counts,
        &mut texts,
    );
    items(rt, r.items, &records, &counts, &texts)?;
    ending(rt, r)
}
