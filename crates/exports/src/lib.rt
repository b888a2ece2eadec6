// The library for programs in C and Rust, which the crate `mihadrena` exports: each function passes plain numbers and parts of memory, and
// nothing else. A slice is a pointer and a length there. The answers are those of the crates below; an answer that is an enum there is a
// number here.
#![tactic(auto)]

pub mod flat;
mod number;
mod piece;
mod quick;
mod read;
mod text;
mod utf8;

pub use number::mihadrena_number;
pub use piece::{mihadrena_end, mihadrena_open, mihadrena_piece};
pub use read::mihadrena_read;
pub use text::mihadrena_text_mark;
pub use utf8::{
    mihadrena_code_at, mihadrena_good_bytes, mihadrena_is_blank, mihadrena_next_at,
    mihadrena_put_char,
};
