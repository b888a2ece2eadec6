// Items of 4,096 and of 4,097 bytes, of each sort that can be so long: brackets, quotes, `,@`, `#;`, `##` and booleans cannot. A line of
// their files has a name, the head of an item, the byte that is repeated, what closes the item, and what stands beyond it.
use crate::cases::{Job, cases};
use crate::files::{field, first, newlines, put};
use crate::show;
use pieces::LONGEST;
use pieces_cuttings::{Cutting, part};
use std::io;
use std::rt::Files;

// The longest text.
const LONG_ROOM: usize = 6000;

// More than an item may have.
const LONG: usize = 5000;

// How an item is read: under a cutting, comments skipped or kept. It has so many bytes, or so many before what closes it.
#[derive(Clone, Copy)]
pub struct LongItem {
    pub cutting: Cutting,
    pub size: usize,
    pub before_close: bool,
    pub skip: bool,
}

// Writes one byte from a place on up to another, as far as there is room; that place.
fn fill(source: &mut [u8], from: usize, to: usize, byte: u8) -> usize {
    let end = to.min(source.len());
    if from < end {
        source[from..end].fill(byte);
    }
    to
}

// How many bytes an item has before what closes it.
fn open_size(how: LongItem, close: &[u8]) -> usize {
    if how.before_close {
        return how.size;
    }
    std::num::wrapping_sub_usize(how.size, close.len())
}

// An item: a head, one byte again and again, and what closes it. It stands after a blank, and something beyond it.
fn item(
    rt: &impl Print,
    how: LongItem,
    head: &[u8],
    byte: u8,
    close: &[u8],
    beyond: &[u8],
) -> io::Result<()> {
    let mut source = [0u8; LONG_ROOM];
    let blank = put(&mut source, 0, b" ");
    let headed = put(&mut source, blank, head);
    let open = std::num::wrapping_add_usize(blank, open_size(how, close));
    let filled = fill(&mut source, headed, open, byte);
    let closed = put(&mut source, filled, close);
    let all = put(&mut source, closed, beyond);
    newlines(&mut source);
    let cutting = how.cutting;
    show::reading(rt, part(&source, 0, all), cutting, how.skip)
}

// The item of a line.
pub(crate) fn case(rt: &impl Print, how: LongItem, line: &[u8]) -> io::Result<()> {
    show::print(rt, field(line, 0))?;
    show::end_line(rt)?;
    item(
        rt,
        how,
        field(line, 1),
        first(field(line, 2)),
        field(line, 3),
        field(line, 4),
    )
}

// An item of so many bytes.
fn sized(cutting: Cutting, size: usize, skip: bool) -> Job {
    Job::Items(LongItem {
        cutting,
        size,
        before_close: false,
        skip,
    })
}

// Every sort of item, of so many bytes, and skipped comments.
fn sorts(rt: &(impl Files + Print), cutting: Cutting, size: usize) -> io::Result<()> {
    let kept = sized(cutting, size, false);
    cases(rt, kept, "words")?;
    cases(rt, kept, "characters")?;
    cases(rt, kept, "strings")?;
    cases(rt, kept, "lines")?;
    cases(rt, kept, "comments")?;
    cases(rt, kept, "quoted_errors")?;
    cases(rt, kept, "unclosed")?;
    show::print(rt, b"comments skipped\n")?;
    cases(rt, sized(cutting, size, true), "comments")
}

// Every sort of item at the longest, and a byte longer.
pub(crate) fn edge(rt: &(impl Files + Print), cutting: Cutting) -> io::Result<()> {
    show::print(rt, b"-- 4096 bytes\n")?;
    sorts(rt, cutting, LONGEST)?;
    show::print(rt, b"-- 4097 bytes\n")?;
    sorts(rt, cutting, LONGEST + 1)
}

// A character of two, three and four bytes whose last byte makes the item too long, the first byte not yet.
pub(crate) fn wide_ends(rt: &(impl Files + Print), cutting: Cutting) -> io::Result<()> {
    let how = LongItem {
        cutting,
        size: LONGEST - 1,
        before_close: true,
        skip: false,
    };
    cases(rt, Job::Items(how), "wide_ends")
}

// What is no item may be longer: blanks, and a first line that starts with #!.
pub(crate) fn no_items(rt: &(impl Files + Print), cutting: Cutting) -> io::Result<()> {
    cases(rt, sized(cutting, LONG, false), "blanks")?;
    let mut source = [0u8; LONG_ROOM];
    let headed = put(&mut source, 0, b"#!");
    let filled = fill(&mut source, headed, LONG, b'x');
    let all = put(&mut source, filled, b"\na)");
    show::print(rt, b"first line\n")?;
    show::reading(rt, part(&source, 0, all), cutting, false)
}
