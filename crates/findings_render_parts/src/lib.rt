// What a rendered finding is made of: bytes laid into lent memory, numbers, characters as a terminal shows them, lines and columns. Which of
// them a finding has is for crate `findings_render`.
#![tactic(auto)]

pub mod characters;
pub mod laying;
pub mod numbers;
pub mod places;

// How a character is shown.
#[derive(Clone, Copy)]
pub enum Showing {
    // as it is, in no column, one or two: a combining mark, a, 木
    NoColumn,
    OneColumn,
    TwoColumns,
    // a tab, as it is
    Tab,
    // by its number: `<U+202E>`
    ByNumber,
    // what is no character, as a byte: `<E5>`
    AsByte,
}

// What stands at a place of a text: how many bytes it has, how it is shown, and its number.
#[derive(Clone, Copy)]
pub struct Seen {
    pub size: usize,
    pub kind: Showing,
    pub code: u32,
}

// What is shown of a line: where it starts and ends, and from where to where it is shown.
#[derive(Clone, Copy)]
pub struct Window {
    pub start: usize,
    pub from: usize,
    pub to: usize,
    pub end: usize,
}
