// Reads a text by the piece calls under a cutting, and writes down what they give: an aid of the programs that run the piece calls, and
// no part of the reader. What it writes down is said by the calls' definition: specs/Notes.
#![tactic(auto)]

use pieces::State;

mod handing;
mod noting;
mod parts;

pub use handing::read;
pub use parts::{copy, part, record_at};

// How a text is cut: a first piece of so many bytes, then pieces of `low` bytes, of one byte more each time up to `high`, then of `low`
// again.
#[derive(Clone, Copy)]
pub struct Cutting {
    pub first: usize,
    pub low: usize,
    pub high: usize,
}

// How a reading ended: all was given, or a refusal's number and place.
#[derive(Clone, Copy)]
pub enum Ending {
    Finished,
    Refused(u32, usize),
}

// What a reading has come to.
#[derive(Clone, Copy)]
pub struct Reading {
    // how many items are written down, and how many bytes their texts have
    pub items: usize,
    pub bytes: usize,
    // how many bytes of the text were taken
    pub taken: usize,
    // how it ended, once it has
    pub ending: Option<Ending>,
    // whether each call left all bytes of the text memory but those of the item's text as they were
    pub kept: bool,
}

// The same, and the state.
#[derive(Clone, Copy)]
struct ReadingAndState {
    state: State,
    reading: Reading,
}

// What the text memory holds before a call.
pub const MARK_BYTE: u8 = 7;
