// A character as bytes: RFC 3629, section 3.
ghost use Rattle.std.specs.Prelude.{◌≡◌, ◌+◌, ◌%◌};
ghost use Rattle.chars.specs.Encode.{is_scalar, width, encode, lay, laid};

// The first code points of two, three and four bytes, and the first past them all.
pub const TWO_FROM: u32 = 0x80;

pub const THREE_FROM: u32 = 0x800;

pub const FOUR_FROM: u32 = 0x10000;

const ALL_END: u32 = 0x110000;

// The surrogates, which are no characters, and the first code point past them.
const SURROGATES: u32 = 0xD800;

const SURROGATES_END: u32 = 0xE000;

// The marks of a first byte, 110xxxxx, 1110xxxx and 11110xxx, and of a later one, 10xxxxxx, which holds six bits.
pub const MARK_TWO: u32 = 0xC0;

pub const MARK_THREE: u32 = 0xE0;

pub const MARK_FOUR: u32 = 0xF0;

const MARK_LATER: u32 = 0x80;

pub const SIX_BITS: u32 = 64;

pub const TWELVE_BITS: u32 = 64 * 64;

pub const EIGHTEEN_BITS: u32 = 64 * 64 * 64;

// Whether a number is a character's.
pub fn is_scalar(c: u32) -> bool
    ensures { result ≡ is_scalar c }
{
    c < SURROGATES || SURROGATES_END <= c && c < ALL_END
}

// How many bytes a character has.
pub fn char_width(c: u32) -> usize
    ensures { result ≡ width c }
{
    if c < TWO_FROM {
        return 1;
    }
    if c < THREE_FROM {
        return 2;
    }
    if c < FOUR_FROM {
        return 3;
    }
    4
}

// A later byte, with the last six bits of `bits`.
pub fn later(bits: u32) -> u8
    ensures { result ≡ 0x80 + bits % 64 }
{
    (MARK_LATER + bits % SIX_BITS) as u8
}

// A character's bytes at the front of `text`, and their count; 0, with nothing written, for no character or too little room.
pub fn put_char(code: u32, text: &mut [u8]) -> usize
    ensures { (result ≡ laid (encode code) text.old) × (text.new ≡ lay (encode code) text.old) }
{
    if !is_scalar(code) {
        return 0;
    }
    if text.len() < char_width(code) {
        return 0;
    }
    if code < TWO_FROM {
        text[0] = code as u8;
        return 1;
    }
    if code < THREE_FROM {
        text[0] = (MARK_TWO + code / SIX_BITS) as u8;
        text[1] = later(code);
        return 2;
    }
    if code < FOUR_FROM {
        text[0] = (MARK_THREE + code / TWELVE_BITS) as u8;
        text[1] = later(code / SIX_BITS);
        text[2] = later(code);
        return 3;
    }
    text[0] = (MARK_FOUR + code / EIGHTEEN_BITS) as u8;
    text[1] = later(code / TWELVE_BITS);
    text[2] = later(code / SIX_BITS);
    text[3] = later(code);
    4
}
