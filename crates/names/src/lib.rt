// One table of names for two parties, in memory that the caller lends: 32-bit words and bytes, half of each for each party. `open_table`
// empties it; `enter` gives a name its number, the same one whoever asks, and enters a new name in the half of the party that asks;
// `name_mark`, `place_of` and `name_of` go from a number back to its name. A name is bytes: a caller passes the text of an identifier as
// the text call gives it. What the table means and what each call does to it is specs/Book.antt; how it lies in memory is
// specs/Layout.antt, and specs/Call.antt is what the contracts cite. docs/NAMES.md has the memory and its bounds in words.
#![tactic(auto)]

ghost use Rattle.std.specs.Prelude.{◌≡◌};
ghost use Rattle.names.specs.Answers.{error_number};

use refusal::{NO_NAME, NO_PARTY, NO_ROOM, OUT_OF_BOUNDS};

mod blocks;
mod entering;
mod finding;
mod layout;
mod naming;

pub use entering::{enter, open_table};
pub use naming::{name_mark, name_of, place_of};

// Why a call on the table is refused.
#[derive(Clone, Copy)]
pub enum NameError {
    // the words or the bytes are outside their bounds
    OutOfBounds,
    // the party is neither 0 nor 1
    NoParty,
    // the name is absent, and the party's own half lacks the entry or the bytes
    NoRoom,
    // there is no name of this number
    NoName,
}

impl NameError {
    // Document 01's number of the refusal.
    pub fn number(self) -> u32
        ensures { result ≡ error_number self }
    {
        match self {
            NameError::OutOfBounds => OUT_OF_BOUNDS,
            NameError::NoParty => NO_PARTY,
            NameError::NoRoom => NO_ROOM,
            NameError::NoName => NO_NAME,
        }
    }
}

// Where a name lies in the lent bytes; 0 and 0 where there is none.
#[derive(Clone, Copy)]
pub struct Place {
    pub start: usize,
    pub end: usize,
}

// What an index answers.
#[derive(Clone, Copy)]
pub enum Proposal {
    // an entry that bears the name
    Entry(usize),
    // an empty slot, and then no entry does
    Free(usize),
    // neither, in as many slots as are asked
    Full,
}

// What a half, or both, answer for a name.
#[derive(Clone, Copy)]
pub struct Sought {
    // its number, if it is there
    pub number: Option<usize>,
    // the slot of the index at which it goes if it is entered
    pub free: usize,
}
