// From spot to spot in a piece: a spot is where the reader stands between two characters, as numbers. A move goes past blanks, into an item,
// past the bytes that leave it in its phase or past a byte that closes it, on bytes of ASCII and letters of two bytes, and the spot that it
// comes to feeds on as the one that it left (specs/Spots: `Onward`). Where a move does not tell it stays. The crate `pieces_quick` makes the piece call of them.
#![tactic(auto)]

mod comments;
mod ending;
mod first_byte;
mod lines;
mod moving;
mod pairs;

pub use comments::past_line;
pub use ending::{tell, tell_boolean, tell_closed};
pub use first_byte::{DETAIL, KIND, KINDS, first};
pub use moving::{begin, close, past};
pub use pairs::run_on;

// Where the reader stands: the row of its stage, its place, the bytes of the item held, and the bytes of the piece taken.
#[derive(Clone, Copy)]
pub struct PieceSpot {
    pub stage: u64,
    pub start: u64,
    pub which: u64,
    pub detail: u64,
    pub at: u64,
    pub len: usize,
    pub i: usize,
}
