// The calls of line and column: an index of a text's line starts, built of the whole text, and the question for one place or for many.
// What they answer is the crate lines. Modules `pieces` and `lent` have the index of a text that comes in pieces, the state by value and
// lent.
#![tactic(auto)]

mod asking;
mod building;
pub mod lent;
pub mod pieces;

pub use asking::{locate, locate_all};
pub use building::build;
