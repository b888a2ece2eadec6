// The calls that read a text in pieces: `opening::open`, `calls::piece` and `calls::end`, as the crate pieces says what a call does with
// a state. `calls::piece_call` and `calls::end_call` are the same with the buffer lent.
#![tactic(auto)]

pub mod calls;
pub mod opening;
