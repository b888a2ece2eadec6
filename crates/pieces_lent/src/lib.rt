// Reading in pieces with a state that the caller keeps: document 01, "The piece state is lent and updated where the caller keeps it".
// The state is numbers alone, 4,096 bytes and nineteen words, so that it can stand in the memory of a program in any language.
//
// specs/Coding says which words stand for which marks of crate `pieces`, specs/Calls what the calls do. docs/STATE.md lists the words.
#![tactic(auto)]

use pieces::{Got, LONGEST, Marks, OpenError};

pub mod calls;
pub mod codes;
mod decoding;
mod encoding;
pub mod lending;
pub mod opening;

// The marks of a state as numbers. A word that a stage does not use is 0.
#[derive(Clone, Copy)]
pub struct Words {
    // 0 plain, 1 report
    pub mode: u64,
    // 1 where comments are skipped
    pub skip: u64,
    // 1 where the end was declared
    pub ended: u64,
    // the stage, and in an item its phase: the module `codes` has the numbers
    pub stage: u64,
    // the start of the item, or the place of a stop
    pub start: u64,
    // the kind of quotes, an outcome's kind or error number, or a stop's number
    pub which: u64,
    // a closer, an outcome's detail, or the character beyond a pair
    pub detail: u64,
    // a depth, or where an escape or an error's range starts
    pub one: u64,
    // how many bytes stand before a hex escape's digits, or where an error's range ends
    pub two: u64,
    // the place past the last whole character
    pub at: u64,
    // a character begun: how many of its bytes were taken, and what may follow
    pub count: u64,
    pub need: u64,
    pub low: u64,
    pub high: u64,
    pub code: u64,
    // the last error range
    pub from: u64,
    pub to: u64,
    // how many bytes of the item are held
    pub len: u64,
    // how many brackets are open before it
    pub depth: u64,
}

// A stage as numbers.
#[derive(Clone, Copy, PartialEq)]
pub struct StageRow {
    pub stage: u64,
    pub start: u64,
    pub which: u64,
    pub detail: u64,
    pub one: u64,
    pub two: u64,
}

// A state as the caller keeps it.
#[derive(Clone, Copy)]
pub struct LentState {
    pub buf: [u8; LONGEST],
    pub words: Words,
}

// A fresh state to lend; a plain one where opening was refused.
#[derive(Clone, Copy)]
pub struct Fresh {
    pub state: LentState,
    pub start: Result<(), OpenError>,
}

// What a call answers where the buffer alone is lent: the words after it, how many bytes of the piece were taken, and what is given.
#[derive(Clone, Copy)]
pub struct Told {
    pub words: Words,
    pub taken: usize,
    pub got: Got,
}

// What a call answers where the state is lent.
#[derive(Clone, Copy)]
pub struct Taken {
    pub taken: usize,
    pub got: Got,
}
