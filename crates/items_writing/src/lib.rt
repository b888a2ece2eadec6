// Writing a plan back: from records with their texts and source a Scheme text, one space between two items, that reads back as the same
// items in report mode. 02 (viii) says how; specs/Written has the text, specs/Records which records are refused, specs/Call the call, all
// with examples. Crate items_writing_theorems shows the round trip.
//
// No memory is needed but the result's: the records are gone over three times, to judge them, to measure the result and to put it. What is
// written next is a turn: one item, or a pair such as `+foo` in one word. Whether a name reads back bare the machine of the lexer says
// (crate steps), over the name and one step more.
#![tactic(auto)]

ghost use Rattle.std.specs.Prelude.{◌≡◌, true, ◌≤◌, length};
ghost use Rattle.laws.specs.Lent.{written};
ghost use Rattle.items_writing.specs.Records.{records_in};
ghost use Rattle.items_writing.specs.Call.{call, write_of, answered};
ghost use Rattle.items_writing.specs.Pieces.{AllRight, onward, Measured};

use items::{Outcome, Quotes, RECORD_WORDS};
use refusal::LIMIT;

mod quoting;
mod records;
mod turning;
mod whole;
mod word;

// What the call looks at in a record.
#[derive(Clone, Copy)]
pub struct WriteWords {
    pub kind: u32,
    // the extent
    pub start: u32,
    pub end: u32,
    // where the text lies: 0 nowhere, 1 in the source, 2 in the text memory; and its places there
    pub origin: u32,
    pub first: u32,
    pub past: u32,
}

// What the call refuses: specs/Call gives the number and what comes with it for each case.
#[derive(Clone, Copy)]
pub enum WriteError {
    // 48, with the first record concerned: its kind is none that 01 has, or its extent or text is not whole characters of what is lent
    Alien(usize),
    // 47, with the first record concerned: it is an error or a comment
    Unwritten(usize),
    // 20
    TooLong,
    // 22, with the bytes needed
    NoRoom(usize),
}

// What is written next.
#[derive(Clone, Copy)]
pub struct WriteTurn {
    // the last record that it takes
    pub last: usize,
    // whether the one before is the plus of a pair
    pub pair: bool,
    pub form: Option<Quotes>,
}

// A turn, with the bytes that its word is made of.
#[derive(Clone, Copy)]
struct Taken<'a> {
    turn: WriteTurn,
    body: &'a [u8],
}

// How many bytes the result has, as far as the limit.
fn measure<'a>(records: &[u32], source: &'a [u8], text: &'a [u8]) -> usize
    requires { AllRight source.now text.now (records_in records.now) }
    ensures { Measured (onward records.now source.now text.now true 0) result }
{
    let count = records.len() / RECORD_WORDS;
    let mut n: usize = 0;
    let mut p = 0;
    let mut first = true;
    while p < count {
        let Taken { turn, body } = turning::taken(records, source, text, p, first);
        n += turning::piece_length(body, turn, first);
        if LIMIT < n {
            return n;
        }
        p = turn.last + 1;
        first = false;
    }
    n
}

// The result, from the memory's start on.
fn put<'a>(records: &[u32], source: &'a [u8], text: &'a [u8], out: &mut [u8])
    requires all_right { AllRight source.now text.now (records_in records.now) }
    requires true_in_bounds { length (onward records.now source.now text.now true 0) ≤ length out.old }
    ensures { out.new ≡ written (onward records.now source.now text.now true 0) out.old }
{
    let count = records.len() / RECORD_WORDS;
    let mut n: usize = 0;
    let mut p = 0;
    let mut first = true;
    while p < count {
        let Taken { turn, body } = turning::taken(records, source, text, p, first);
        n += turning::put_piece(body, turn, first, &mut out[n..]);
        p = turn.last + 1;
        first = false;
    }
}

// The call: the text of these records, from the memory's start on, and how many bytes it has. `text` is the text memory that they name.
pub fn write<'a>(
    records: &[u32],
    source: &'a [u8],
    text: &'a [u8],
    out: &mut [u8],
) -> Result<usize, WriteError>
    ensures { call (answered result) out.new ≡ write_of records.now source.now text.now out.old }
{
    records::judge(records, source, text)?;
    let n = measure(records, source, text);
    if LIMIT < n {
        return Err(WriteError::TooLong);
    }
    if out.len() < n {
        return Err(WriteError::NoRoom(n));
    }
    put(records, source, text, out);
    Ok(n)
}
