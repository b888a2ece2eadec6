// The calls of the crate `chars`: RFC 3629, and document 01's blanks.
ghost use Rattle.std.specs.Prelude.{◌≡◌, length, drop};
ghost use Rattle.chars.specs.Utf8.{placed, front, first_bad};
ghost use Rattle.chars.specs.Blank.{is_blank};
ghost use Rattle.chars.specs.Encode.{encode, lay, laid};
ghost use Rattle.exports.specs.Utf8.{good_bytes, code_or, next_or};

use chars::Decoded;

// What `mihadrena_code_at` answers where no character stands.
const BAD: u32 = 0x110000;

const CUT: u32 = 0x110001;

const END: u32 = 0x110002;

// How many bytes of a text are good UTF-8: all of them, or those before its first bad sequence.
pub fn mihadrena_good_bytes(text: &[u8]) -> usize
    ensures { result ≡ good_bytes (length text.now) (first_bad text.now) }
{
    match chars::first_bad(text) {
        None => text.len(),
        Some(at) => at,
    }
}

// The code point of the character at a place, or that the bytes there are bad, cut by the end, or none.
pub fn mihadrena_code_at(text: &[u8], at: usize) -> u32
    ensures { result ≡ code_or (placed at (front (drop at text.now))) }
{
    match chars::decode_at(text, at) {
        Decoded::Char { code, next: _ } => code,
        Decoded::Bad => BAD,
        Decoded::Cut => CUT,
        Decoded::End => END,
    }
}

// The place past the character at a place; that place itself where no character stands.
pub fn mihadrena_next_at(text: &[u8], at: usize) -> usize
    ensures { result ≡ next_or at (placed at (front (drop at text.now))) }
{
    match chars::decode_at(text, at) {
        Decoded::Char { code: _, next } => next,
        Decoded::Bad => at,
        Decoded::Cut => at,
        Decoded::End => at,
    }
}

// Whether a character is blank.
pub fn mihadrena_is_blank(code: u32) -> bool
    ensures { result ≡ is_blank code }
{
    chars::is_blank(code)
}

// Writes a character's bytes at the front of `text`; answers how many, 0 for no character or too little room.
pub fn mihadrena_put_char(code: u32, text: &mut [u8]) -> usize
    ensures { (result ≡ laid (encode code) text.old) × (text.new ≡ lay (encode code) text.old) }
{
    chars::put_char(code, text)
}
