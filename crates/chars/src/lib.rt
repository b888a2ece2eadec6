// Characters out of bytes and back: UTF-8 as RFC 3629 has it, and document 01's blanks. Reads a text as bytes, whole or one byte at a
// time, and answers characters by their code points; writes a character's bytes into lent memory. What the characters mean is for others.
#![tactic(auto)]

// Where the byte machine stands within a character: how many bytes it still wants, the range of the next of them, and the code so far.
// At need 0 it stands between two characters.
#[derive(Clone, Copy)]
pub struct Begun {
    pub need: u8,
    pub low: u8,
    pub high: u8,
    pub code: u32,
}

// What one byte does.
#[derive(Clone, Copy)]
pub enum Step {
    // The character wants more bytes: CE, the first byte of λ.
    More(Begun),
    // The character is whole: BB after CE.
    Char(u32),
    // No valid text goes on with this byte: FF anywhere, 28 after CE.
    Bad,
}

// What stands at a place of a text.
#[derive(Clone, Copy)]
pub enum Decoded {
    // A character, and the place past it.
    Char { code: u32, next: usize },
    // A bad sequence: C0, or CE 28.
    Bad,
    // A sequence that the end cuts: CE at the end.
    Cut,
    // Nothing: the place is at the end or past it.
    End,
}

mod blank;
mod decode;
pub mod encode;
mod letters;

pub use blank::is_blank;
pub use byte_runs::between;
pub use decode::{TAIL_HIGH, TAIL_LOW, byte_step, decode_at, first_bad};
pub use encode::{char_width, is_scalar, put_char};
pub use letters::{chars_end, letter_at, wide_end};
