// What the bytes of a piece do with a state, for the crate pieces_calls: `turn::turn` what one does, `passing::pass` what a run of them does
// that leave the reader where it stands. They ask what specs/Inner says; the public calls are those of the crate pieces_calls.
#![tactic(auto)]

pub mod passing;
pub mod turn;
