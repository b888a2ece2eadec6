// Reading a text that comes in pieces, item by item: document 01, "Piecewise". A state holds the bytes of the item that is being read
// and the marks of where the reader stands; each call takes bytes of a piece and gives one item, or asks for more.
//
// Here are the types, what they mean, and the theorems: specs/Expected says, on the definition of items alone, what all calls together
// give for a text however it is cut; specs/Calls says what one call does with a state, and proofs/ that the two agree. The calls
// themselves are the crate pieces_calls.
#![tactic(auto)]

use chars::Begun;
use items::{Phase, Record};

// How many bytes an item has at most, and the text memory at least.
pub const LONGEST: usize = 4096;

// Where the reader stands.
#[derive(Clone, Copy)]
pub enum Stage {
    // at the start of the text
    Opening,
    // after a # there
    Pound,
    // in a first line that starts with #!
    FirstLine,
    // between items
    Idle,
    // in an item that starts at this place
    Busy(usize, Phase),
    // after a pair that starts at this place, of which one item was given
    Waiting(usize, Option<u32>),
    // a stop's number and place
    Stopped(u32, usize),
}

// A character begun: how many of its bytes were taken, and what may follow.
#[derive(Clone, Copy)]
pub struct Part {
    pub count: usize,
    pub state: Begun,
}

#[derive(Clone, Copy)]
pub struct Marks {
    // 0 plain, 1 report
    pub mode: u32,
    // comments are skipped
    pub skip: bool,
    // the end was declared
    pub ended: bool,
    pub stage: Stage,
    // the place past the last whole character
    pub at: usize,
    pub part: Part,
    // the last error range
    pub from: usize,
    pub to: usize,
    // how many bytes of the item are held
    pub len: usize,
    // how many brackets are open before it
    pub depth: u32,
}

#[derive(Clone, Copy)]
pub struct State {
    pub buf: [u8; LONGEST],
    pub marks: Marks,
}

// What a call gives beside the bytes taken.
#[derive(Clone, Copy)]
pub enum Got {
    Item(Record),
    More,
    Finished,
    // a refusal's number and place
    Refused(u32, usize),
}

// Why a piece state was not opened.
#[derive(Clone, Copy)]
pub enum OpenError {
    // there is no such mode
    NoMode(u32),
}

// A fresh state; a plain one where opening was refused.
#[derive(Clone, Copy)]
pub struct Opened {
    pub state: State,
    pub start: Result<(), OpenError>,
}

// What a call answers: the state after it, how many bytes of the piece were taken, and what is given.
#[derive(Clone, Copy)]
pub struct Answer {
    pub state: State,
    pub taken: usize,
    pub got: Got,
}

// The same inside, where the buffer is lent.
#[derive(Clone, Copy)]
pub struct Pieced {
    pub marks: Marks,
    pub taken: usize,
    pub got: Got,
}

// What one byte did: `More` where nothing is given yet.
#[derive(Clone, Copy)]
pub struct Turned {
    pub marks: Marks,
    pub got: Got,
}
