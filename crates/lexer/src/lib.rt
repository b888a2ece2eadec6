// The reader of felling plans over a whole text. `read` writes the records of all items, and their decoded texts, into lent memory;
// `text_of`, `text_mark` and `text_and_mark` hand back an item's text; `open` and `next_at` give one item a call, and crate `reader` holds
// the source beside its position. Which items a text has is document 01's "An item", defined in crate `items`; what each call answers is
// defined in specs/ of this crate and in items/specs/Whole.
#![tactic(auto)]

ghost use Rattle.std.specs.Prelude.{◌≡◌};
ghost use Rattle.lexer.specs.Answers.{read_error};

use items::{Nine, Phase, Record};
use meaning::Range;

mod glance;
mod opening;
mod reader;
mod reading;
mod strings;
mod text;
mod whole;

pub use opening::{OUTSIDE, UNSET, open, start as begin};
pub use reader::next_at;
pub use reading::next_item;
pub use text::{text_and_mark, text_mark, text_of};
pub use whole::{count, read, write};

// Where in a source reading stands.
#[derive(Clone, Copy)]
pub struct Spot {
    // the place of the next character
    pub at: usize,
    // the last error range that was set; it is empty where none was
    pub last: Range,
    // of the two items of the extent that starts here, the first was given: +foo
    pub second: bool,
    // report mode
    pub report: bool,
    // comments are skipped
    pub skip: bool,
}

// Where reading stands: its spot, and how many brackets are open there.
#[derive(Clone, Copy)]
pub struct Position {
    pub spot: Spot,
    pub depth: u32,
}

// The first character of an item: its code, its place, and the place past it.
#[derive(Clone, Copy)]
pub struct FirstChar {
    pub code: u32,
    pub at: usize,
    pub past: usize,
}

// What reading on gives: an item by itself, and the spot after it.
#[derive(Clone, Copy)]
pub struct Found {
    pub nine: Nine,
    pub after: Spot,
}

// How far counting got: the place, and the items before it.
#[derive(Clone, Copy)]
pub struct CountedTo {
    pub at: usize,
    pub items: usize,
}

// How far writing got: the place, the words that the records take, and how many brackets are open there.
#[derive(Clone, Copy)]
pub struct Wrote {
    pub at: usize,
    pub words: usize,
    pub depth: u32,
}

// What the items of a text need: records, and bytes of text memory.
#[derive(Clone, Copy)]
pub struct Needed {
    pub items: usize,
    pub text: usize,
}

// Why a source is not opened.
#[derive(Clone, Copy)]
pub enum OpenError {
    // 25, with the mode
    NoMode(u32),
    // 20
    TooLong,
    // 21, with the start of the first bad sequence
    NotUtf8(usize),
}

// Why the whole-text call writes nothing.
#[derive(Clone, Copy)]
pub enum ReadError {
    // 25, with the mode
    NoMode(u32),
    // 20
    TooLong,
    // 21, with the start of the first bad sequence
    NotUtf8(usize),
    // 22, with what the items need
    NoRoom(Needed),
}

// What opening refuses the whole-text call refuses too.
impl From<OpenError> for ReadError {
    ghost from_gives = { λ e r. r ≡ read_error e };

    fn from(e: OpenError) -> ReadError {
        match e {
            OpenError::NoMode(mode) => ReadError::NoMode(mode),
            OpenError::TooLong => ReadError::TooLong,
            OpenError::NotUtf8(at) => ReadError::NotUtf8(at),
        }
    }
}

// What the reader gives: the record of an item, and the position after it.
#[derive(Clone, Copy)]
pub struct Given {
    pub item: Record,
    pub after: Position,
}

// Why the reader gives nothing.
#[derive(Clone, Copy)]
pub enum NextError {
    // 20
    TooLong,
    // 22, with the text bytes needed
    NoRoom(usize),
}

// Where the item begins that comes next, as far as one look reads it. Internal.
#[derive(Clone, Copy)]
pub enum Beginning {
    // it starts at a place, and stands in a phase at another
    At(usize, usize, Phase),
    // it is the error of a string that starts right here, and ends at a place
    Wrong(usize),
    // there is none
    Nothing,
}
