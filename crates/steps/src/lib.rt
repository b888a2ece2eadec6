// The machine's code: what one character does in each phase of an item, what the end of the text makes of a phase, and the scan of an
// item from its first character to its end. Document 01 and the Rust say what an item is; crate `items` has their definition and the
// machine, and each contract here cites the machine. Nothing is decoded: a step finds where the item ends and what it turned out to be.
// Internal: `meaning`, `lexer`, the crates of pieces and `items_writing` stand on it.
#![tactic(auto)]

use items::Outcome;

mod comments;
mod endings;
mod hash;
mod here;
mod machine;
mod quotes;
mod runs;
mod search;
pub mod signs;
mod words;

pub use endings::{line_ending, nested_ending, quoted_ending, run_ending, word_ending};
pub use here::{delimiter_length, here_line};
pub use machine::{finish, first_phase, scan, step};
pub use runs::ascii_run;

// What an item turned out to be, and where it ends.
#[derive(Clone, Copy)]
pub struct Scanned {
    pub what: Outcome,
    pub end: usize,
}
