// What follows an extent that ended, for the crates above: its items are given, their text copied to the start of the text memory, and the
// character beyond it begins another. Its functions ask what specs/Inner says; the public calls are those of the crate pieces_calls.
#![tactic(auto)]

pub mod ends;
pub mod give;
pub mod lay;
pub mod marks;
