// The archive for programs in C and Rust, libmihadrena.a: its functions, under the names that include/mihadrena.h declares, and no other. Each
// calls the library's function of its name and states its clauses again, so that a caller of the archive is promised what a caller of
// the library is. What a call does is said and proved in the crate that it calls.
#![tactic(auto)]

mod choice;
mod coordinate;
mod fields;
mod file;
mod finding;
mod line;
mod name;
mod nesting;
mod node;
mod number;
mod piece;
mod read;
mod reading;
mod record;
mod rendering;
mod text;
mod utf8;
mod version;
mod writing;
