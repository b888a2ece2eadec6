// Line and column beside every place of a text: an index of its line starts, built of the whole text or from pieces, and the question
// that answers a byte place. Lines and columns count from 1, columns in characters.
//
// Here are the types, what the calls answer (specs/) and the theorems about it (proofs/); the calls themselves are the crates
// lines_calls.
#![tactic(auto)]

ghost use Rattle.std.specs.Prelude.{◌≡◌, Err};
ghost use Rattle.lines.specs.Starts.{told_of};
ghost use Rattle.lines.specs.Place.{where_of};
ghost use Rattle.lines.specs.Numbers.{answer_number, answer_value, located_number, located_first};

use chars::Begun;
use refusal::{ALIEN, LIMIT, LINES_NO_ROOM, NO_PLACE, NOT_UTF8, OUT_OF_BOUNDS, TOO_LONG};

// Why an index is not built, or many places are not answered.
#[derive(Clone, Copy)]
pub enum LinesError {
    // the text exceeds LIMIT bytes
    TooLong,
    // bytes aren't UTF-8; with the start of the first bad sequence
    NotUtf8(usize),
    // a state outside its bounds
    OutOfBounds,
    // the line starts, or the answers, don't fit; with the number needed
    NoRoom(usize),
    // the index isn't the text's
    Alien,
}

impl LinesError {
    // Document 01's number of the refusal.
    pub fn number(self) -> u32
        ensures { result ≡ answer_number (told_of (Err self)) }
    {
        match self {
            LinesError::TooLong => TOO_LONG,
            LinesError::NotUtf8(_) => NOT_UTF8,
            LinesError::OutOfBounds => OUT_OF_BOUNDS,
            LinesError::NoRoom(_) => LINES_NO_ROOM,
            LinesError::Alien => ALIEN,
        }
    }

    // What the refusal comes with.
    pub fn value(self) -> usize
        ensures { result ≡ answer_value (told_of (Err self)) }
    {
        match self {
            LinesError::TooLong => LIMIT,
            LinesError::NotUtf8(at) => at,
            LinesError::OutOfBounds => 0,
            LinesError::NoRoom(needed) => needed,
            LinesError::Alien => 0,
        }
    }
}

// Where a byte place lies, both from 1.
#[derive(Clone, Copy)]
pub struct LineColumn {
    pub line: usize,
    // in characters
    pub column: usize,
}

// Why a place is not answered.
#[derive(Clone, Copy)]
pub enum LocateError {
    // the index isn't the text's
    Alien,
    // the place lies past the end or inside a character; with the place
    NoPlace(usize),
}

impl LocateError {
    // Document 01's number of the refusal.
    pub fn number(self) -> u32
        ensures { result ≡ located_number (where_of (Err self)) }
    {
        match self {
            LocateError::Alien => ALIEN,
            LocateError::NoPlace(_) => NO_PLACE,
        }
    }

    // What the refusal comes with.
    pub fn value(self) -> usize
        ensures { result ≡ located_first (where_of (Err self)) }
    {
        match self {
            LocateError::Alien => 0,
            LocateError::NoPlace(place) => place,
        }
    }
}

// The index of a text that comes in pieces.
#[derive(Clone, Copy)]
pub struct LineState {
    // where the byte machine stands within a character
    pub begun: Begun,
    // where the character starts that it is in; a bad sequence, once one was shown
    pub from: u32,
    // how many bytes were taken
    pub at: u32,
    // how many newline bytes are among them
    pub lines: u32,
    // the refusal that was shown, 20 or 21, or 0: a number, since a state is words in lent memory
    pub stop: u32,
}
