// Whether parts of what is lent are whole characters. Most items are a few bytes long: their characters are told one after another, and by
// blocks only those of longer ones.
ghost use Rattle.std.specs.Prelude.{◌≡◌, true, false, get_or};
ghost use Rattle.laws.specs.Quoted.{within};
ghost use Rattle.chars.specs.Utf8.{first_bad};
ghost use Rattle.chars.specs.Wide.{Passed};
ghost use Rattle.items_writing.specs.Records.{is_good, is_whole};

use byte_runs::ASCII_END;
use chars::{TAIL_HIGH, TAIL_LOW, first_bad, wide_end};

// A part of so many bytes is short.
const SHORT_PART: usize = 16;

// Past the ASCII from a place on.
fn ascii_end(t: &[u8], from: usize) -> usize
    ensures { Passed t.now from result }
{
    for i in from..t.len() {
        if ASCII_END <= t[i] {
            return i;
        }
    }
    from.max(t.len())
}

// Past the characters at the front of a text, as far as direct tests tell them.
fn good_end(t: &[u8]) -> usize
    ensures { Passed t.now 0 result }
{
    let mut i = ascii_end(t, 0);
    while i < t.len() {
        let j = wide_end(t, i);
        if j <= i {
            return i;
        }
        i = ascii_end(t, j);
    }
    i
}

// Whether a text is whole characters.
fn is_good(t: &[u8]) -> bool
    ensures { result ≡ is_good (first_bad t.now) }
{
    t.len() <= SHORT_PART && t.len() <= good_end(t) || first_bad(t).is_none()
}

// Whether a part of a slice is there and is whole characters.
pub fn is_whole(s: &[u8], a: u32, b: u32) -> bool
    ensures { result ≡ is_whole s.now a b }
{
    let from = a as usize;
    let to = b as usize;
    from <= to && to <= s.len() && is_good(&s[from..to])
}

// Whether what stands at a place, if anything does, is not inside a character.
fn is_border(s: &[u8], at: u32) -> bool
    ensures { result ≡ true → within 0x80 0xBF (get_or s.now at 0) ≡ false }
{
    let i = at as usize;
    s.len() <= i || s[i] < TAIL_LOW || TAIL_HIGH < s[i]
}

// Whether a part is whole characters because it lies in a part that is, as a string's text lies between its quotes.
pub fn is_inside(s: &[u8], a: u32, b: u32, first: u32, past: u32) -> bool
    ensures { result ≡ true → is_whole s.now a b ≡ true → is_whole s.now first past ≡ true }
{
    a <= first && first <= past && past <= b && is_border(s, first) && is_border(s, past)
}
