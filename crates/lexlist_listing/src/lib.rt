// Lists the items of what a reader gives on a writer, a line each: kind, start and end, and for an error its place. The text is read in
// pieces, in plain mode, comments kept. The last line is `end` and the count of items, `refused` and the refusal's number and place, or
// `unread` where the input cannot be read. Program `lexlist` lists standard input, and `lexlist_edges` some files.
#![tactic(auto)]

ghost use Rattle.std.specs.Prelude.{◌≡◌, ◌≤◌, length};
ghost use Rattle.lexlist_listing.specs.declared.Ending.TheVariants.{Refused};
ghost use Rattle.lexlist_listing.specs.Counted.{heed, PieceListed, EndListed};

use items::modes::PLAIN;
use items::{Nine, kinds};
use pieces::{Answer, Got, LONGEST, State};
use pieces_calls::calls::{end, piece};
use pieces_calls::opening::open;
use std::io;
use std::io::{Read, Write};

// How many bytes are read at once. A piece may have any length: this one keeps the program small.
const PIECE: usize = 512;

// After the end is declared at most this many calls give an item: the pair that waits, the last extent.
const LAST_CALLS: usize = 4;

// How a text ends: all was given, or a refusal's number and place.
#[derive(Clone, Copy)]
enum Ending {
    Finished,
    Refused(u32, usize),
}

// Where the listing stands: the state, how many items were listed, and how the text ended once it has.
#[derive(Clone, Copy)]
struct Listing {
    state: State,
    items: u64,
    ending: Option<Ending>,
}

// Where the lines go, and what came of writing them: after a write that fails nothing more is written.
#[derive(Drop)]
struct Lines<W> {
    to: W,
    written: io::Result<()>,
}

fn print<W: Write>(lines: &mut Lines<W>, text: &[u8]) {
    if lines.written.is_ok() {
        lines.written = lines.to.write_all(text);
    }
}

fn number<W: Write>(lines: &mut Lines<W>, n: u64) {
    if lines.written.is_ok() {
        lines.written = write!(lines.to, "{n}");
    }
}

fn space<W: Write>(lines: &mut Lines<W>) {
    print(lines, b" ");
}

fn end_line<W: Write>(lines: &mut Lines<W>) {
    print(lines, b"\n");
}

fn list_item<W: Write>(lines: &mut Lines<W>, r: Nine) {
    number(lines, r.kind as u64);
    space(lines);
    number(lines, r.start as u64);
    space(lines);
    number(lines, r.end as u64);
    if kinds::FIRST_ERROR < r.kind {
        space(lines);
        number(lines, r.from as u64);
        space(lines);
        number(lines, r.to as u64);
    }
    end_line(lines);
}

fn list_refusal<W: Write>(lines: &mut Lines<W>, refusal: u32, place: usize) {
    print(lines, b"refused ");
    number(lines, refusal as u64);
    space(lines);
    number(lines, place as u64);
    end_line(lines);
}

fn list_count<W: Write>(lines: &mut Lines<W>, items: u64) {
    print(lines, b"end ");
    number(lines, items);
    end_line(lines);
}

// The listing after an answer, whose item is printed. Inlined, so that the state is not copied once more at each call.
#[inline(always)]
fn heed<W: Write>(lines: &mut Lines<W>, items: u64, answer: Answer) -> Listing
    ensures { result ≡ heed items answer }
{
    let state = answer.state;
    match answer.got {
        Got::Item(r) => {
            list_item(lines, r.nine);
            Listing {
                state,
                items: std::num::wrapping_add_u64(items, 1),
                ending: None,
            }
        }
        Got::More => Listing {
            state,
            items,
            ending: None,
        },
        Got::Finished => Listing {
            state,
            items,
            ending: Some(Ending::Finished),
        },
        Got::Refused(refusal, place) => Listing {
            state,
            items,
            ending: Some(Ending::Refused(refusal, place)),
        },
    }
}

// The calls were too few, which no text brings about.
fn too_few(listing: Listing) -> Listing
    ensures { result ≡ record { state = listing.state; items = listing.items; ending = Some (Refused 0 0) } }
{
    Listing {
        ending: Some(Ending::Refused(0, 0)),
        ..listing
    }
}

// Hands a piece over until all of it is taken: each call takes a byte or gives the second item of a pair that took two.
fn list_piece<W: Write>(
    lines: &mut Lines<W>,
    listing: Listing,
    bytes: &[u8],
    text: &mut [u8],
) -> Listing
    requires { length bytes.now ≤ 512 }
    ensures { PieceListed (length text.old) listing bytes.now result }
{
    let mut now = listing;
    let mut from: usize = 0;
    for _ in 0..2 * bytes.len() + 2 {
        let answer = piece(now.state, &bytes[from..], text);
        let taken = answer.taken;
        now = heed(lines, now.items, answer);
        if now.ending.is_some() {
            return now;
        }
        if bytes.len() - from <= taken {
            return now;
        }
        from = from + taken;
    }
    too_few(now)
}

// Declares the end, until all items are given.
fn list_end<W: Write>(lines: &mut Lines<W>, listing: Listing, text: &mut [u8]) -> Listing
    ensures { EndListed (length text.old) listing result }
{
    let mut now = listing;
    for _ in 0..LAST_CALLS {
        let answer = end(now.state, text);
        now = heed(lines, now.items, answer);
        if now.ending.is_some() {
            return now;
        }
    }
    too_few(now)
}

// Lists all that is read, to a refusal or to the end of the input; it fails where a read does, which is not the end. A proved loop has to
// end, and nothing says that an input does: so the turns are counted, up to a number that no run uses up.
fn list_all<R: Read, W: Write>(
    reader: &mut R,
    lines: &mut Lines<W>,
    listing: Listing,
    text: &mut [u8],
) -> io::Result<Listing> {
    let mut now = listing;
    for _ in 0..u64::MAX {
        let mut bytes = [0u8; PIECE];
        let n = reader.read(&mut bytes)?;
        if n == 0 {
            return Ok(now);
        }
        now = list_piece(lines, now, &bytes[..n], text);
        if now.ending.is_some() {
            return Ok(now);
        }
    }
    Ok(now)
}

// The listing to its end, unless a refusal ended it.
fn list_rest<W: Write>(lines: &mut Lines<W>, listing: Listing, text: &mut [u8]) -> Listing {
    if listing.ending.is_some() {
        return listing;
    }
    list_end(lines, listing, text)
}

// The last line.
fn list_last<W: Write>(lines: &mut Lines<W>, listing: Listing) {
    match listing.ending {
        None => list_refusal(lines, 0, 0),
        Some(Ending::Finished) => list_count(lines, listing.items),
        Some(Ending::Refused(refusal, place)) => list_refusal(lines, refusal, place),
    }
}

// Lists the items of what is read, to its end, to a refusal, or to a read that fails. It fails where a write of a line does.
pub fn list<R: Read, W: Write + Drop>(reader: &mut R, writer: W) -> io::Result<()> {
    let opened = open(PLAIN, false);
    let state = opened.state;
    let mut text = [0u8; LONGEST];
    let mut lines = Lines {
        to: writer,
        written: Ok(()),
    };
    let first = Listing {
        state,
        items: 0,
        ending: None,
    };
    let Ok(all) = list_all(reader, &mut lines, first, &mut text) else {
        print(&mut lines, b"unread\n");
        return lines.written;
    };
    let rest = list_rest(&mut lines, all, &mut text);
    list_last(&mut lines, rest);
    lines.written
}
