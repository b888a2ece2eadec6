// What a foreman can act on in a plan: its errors, and what reads well but is hardly meant. A finding is a severity, a code, a detail, a
// place and a second place. Which findings a plan has, and in which order, is defined in specs/: Told goes row by row, Slips has the
// warnings' conditions, Lists the one finding about brackets, dots and marks. How a finding reads is for crate `findings_render`.
#![tactic(auto)]

pub mod codes;
mod laying;
mod lines;
mod lists;
mod misfits;
mod plans;
mod rows;
mod slips;
mod swallowing;
mod telling;

pub use plans::find;

// A finding. A second place is never empty: 0 and 0 say that there is none.
#[derive(Clone, Copy)]
pub struct Finding {
    // WARNING or ERROR
    pub severity: u32,
    // the number after W or E
    pub code: u32,
    pub detail: u32,
    // the place
    pub start: u32,
    pub end: u32,
    // the second place: the opener, the left-over quote, the list that starts no further right
    pub also: u32,
    pub past: u32,
}

// What is asked of a row.
#[derive(Clone, Copy)]
pub struct Row {
    pub kind: u32,
    // the extent
    pub start: u32,
    pub end: u32,
    // the place
    pub from: u32,
    pub to: u32,
    // the error's number, 0 of none, and its detail
    pub error: u32,
    pub about: u32,
    // how many brackets are open before it
    pub depth: u32,
}

// The finding about lists, and the row that tells it.
#[derive(Clone, Copy)]
pub struct ListTold {
    pub row: usize,
    pub finding: Finding,
}

// How many findings there are, and how many of them are errors.
#[derive(Clone, Copy)]
pub struct Counted {
    pub findings: usize,
    pub errors: usize,
}

// Why the call tells nothing, 22: the rows do not fit; so many are needed.
#[derive(Clone, Copy)]
pub struct TooFew {
    pub rows: usize,
}
