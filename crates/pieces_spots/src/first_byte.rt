// What a byte makes of an item, as one number: the stage after it, and of a token that is whole KIND times its kind and DETAIL times its detail.
ghost use Rattle.pieces_spots.specs.Spots.{Firsts};

use items::kinds;
use pieces_lent::codes::{
    AFTER_COMMA, AFTER_HASH, CLOSED, DONE_TOKEN, IDLE, IN_LINE, IN_RUN, IN_WORD, LINES, QUOTED,
};

// What the kind is multiplied by, how many kinds fit, and what the detail is multiplied by.
pub const KIND: u64 = 64;

pub const KINDS: u64 = 32;

pub const DETAIL: u64 = 2048;

// ( ) [ ] { } '
const OPEN_ROUND_DONE: u64 = DONE_TOKEN
    + KIND * kinds::OPEN_PAREN as u64
    + DETAIL * kinds::ROUND as u64;

const CLOSE_ROUND_DONE: u64 = DONE_TOKEN
    + KIND * kinds::CLOSE_PAREN as u64
    + DETAIL * kinds::ROUND as u64;

const OPEN_SQUARE_DONE: u64 = DONE_TOKEN
    + KIND * kinds::OPEN_PAREN as u64
    + DETAIL * kinds::SQUARE as u64;

const CLOSE_SQUARE_DONE: u64 = DONE_TOKEN
    + KIND * kinds::CLOSE_PAREN as u64
    + DETAIL * kinds::SQUARE as u64;

const OPEN_CURLY_DONE: u64 = DONE_TOKEN
    + KIND * kinds::OPEN_PAREN as u64
    + DETAIL * kinds::CURLY as u64;

const CLOSE_CURLY_DONE: u64 = DONE_TOKEN
    + KIND * kinds::CLOSE_PAREN as u64
    + DETAIL * kinds::CURLY as u64;

const TICK_DONE: u64 = DONE_TOKEN + KIND * kinds::QUOTE_TICK as u64;

// in vertical lines: the kind of quotes stands where a token has its kind
const IN_LINES: u64 = QUOTED + KIND * LINES;

// past the vertical line that closes them
pub const LINES_CLOSED: u64 = CLOSED + KIND * LINES;

// a comment to the end of its line, past the newline
pub const LINE_DONE: u64 = DONE_TOKEN + KIND * kinds::COMMENT as u64;

// the opening of a vector, past its bracket
pub const VECTOR_DONE: u64 = DONE_TOKEN
    + KIND * kinds::OPEN_PAREN as u64
    + DETAIL * kinds::VECTOR as u64;

// a byte that is not told here
pub const NOT_TOLD: u64 = 0;

// What a byte begins between items: IDLE for a blank, else as above; NOT_TOLD where the crate `pieces_lent` has to say it.
pub fn first(b: u8) -> u64
    ensures { Firsts b result }
{
    match b {
        b' ' => IDLE,
        b'\n' => IDLE,
        b'\r' => IDLE,
        b'\t' => IDLE,
        b'a'..=b'z' => IN_WORD,
        b'='..=b'Z' => IN_WORD,
        b'*' => IN_WORD,
        b'0'..=b'9' => IN_RUN,
        b'-' => IN_RUN,
        b'+' => IN_RUN,
        b'.' => IN_RUN,
        b'(' => OPEN_ROUND_DONE,
        b')' => CLOSE_ROUND_DONE,
        b'[' => OPEN_SQUARE_DONE,
        b']' => CLOSE_SQUARE_DONE,
        b'{' => OPEN_CURLY_DONE,
        b'}' => CLOSE_CURLY_DONE,
        b'"' => QUOTED,
        b';' => IN_LINE,
        b'\'' => TICK_DONE,
        b',' => AFTER_COMMA,
        b'|' => IN_LINES,
        b'#' => AFTER_HASH,
        _ => NOT_TOLD,
    }
}

// The same, where most items are words: a small letter is told at once.
pub fn begun_by(b: u8) -> u64
    ensures { Firsts b result }
{
    match b {
        b'a'..=b'z' => IN_WORD,
        _ => first(b),
    }
}
