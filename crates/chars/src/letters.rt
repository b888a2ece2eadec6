// Characters past ASCII by direct tests of their bytes, without the byte machine. The bytes written out are those of the table of RFC 3629,
// section 4.
ghost use Rattle.std.specs.Prelude.{◌≡◌, ◌≤◌, IfSome, ltb, length, drop, if◌then◌else◌};
ghost use Rattle.laws.specs.Quoted.{within};
ghost use Rattle.chars.specs.Wide.{second3, second4, PastAscii, Wide, Wides, Solid};
ghost use Rattle.chars.specs.Walk.{Walk};

use crate::decode::{TAIL_HIGH, TAIL_LOW};
use byte_runs::{ASCII_END, between, plain_end};

// Whether a byte is UTF8-tail.
fn is_tail(c: u8) -> bool
    ensures { result ≡ within 0x80 0xBF c }
{
    between(TAIL_LOW, TAIL_HIGH, c)
}

// Whether a byte may be the second of three or four, by the first.
fn is_second(b: u8, x: u8) -> bool
    ensures { result ≡ (if ltb b 0xF0 then second3 b x else second4 b x) }
{
    match b {
        0xE0 => between(0xA0, TAIL_HIGH, x),
        0xED => between(TAIL_LOW, 0x9F, x),
        0xF0 => between(0x90, TAIL_HIGH, x),
        0xF4 => between(TAIL_LOW, 0x8F, x),
        _ => is_tail(x),
    }
}

// How many bytes the character past ASCII has that stands at a place; nothing where none stands there.
fn wide_at(s: &[u8], at: usize) -> Option<usize>
    ensures { IfSome result (λ n. PastAscii (drop at s.now) n) }
{
    if s.len() <= at {
        return None;
    }
    let b = s[at];
    let room = s.len() - at;
    match b {
        0xC2..=0xDF => {
            if 2 <= room && is_tail(s[at + 1]) {
                return Some(2);
            }
        }
        0xE0..=0xEF => {
            if 3 <= room && is_second(b, s[at + 1]) && is_tail(s[at + 2]) {
                return Some(3);
            }
        }
        0xF0..=0xF4 => {
            if 4 <= room && is_second(b, s[at + 1]) && is_tail(s[at + 2]) && is_tail(s[at + 3]) {
                return Some(4);
            }
        }
        _ => {}
    }
    None
}

// Past the characters past ASCII from a place on.
pub fn wide_end(s: &[u8], from: usize) -> usize
    ensures { Wides s.now from result }
{
    let mut i = from;
    while let Some(n) = wide_at(s, i) {
        i += n;
    }
    i
}

// How many bytes the character past ASCII has that stands at a place and that its first byte tells to be no blank, as those past ASCII begin
// with one of four; 0 where there is none, which is how far a word goes on there.
pub fn letter_at(s: &[u8], at: usize) -> usize
    ensures { Wide (drop at s.now) result × Solid (drop at s.now) result }
{
    if s.len() <= at {
        return 0;
    }
    let b = s[at];
    if b == 0xC2 || between(0xE1, 0xE3, b) {
        return 0;
    }
    wide_at(s, at).unwrap_or(0)
}

// Past the characters from a place on that begin before another, or to where none stands.
pub fn chars_end(s: &[u8], from: usize, until: usize) -> usize
    requires { until ≤ length s.now }
    ensures { Walk s.now until from result }
{
    let mut i = from;
    while i < until {
        match wide_at(s, i) {
            Some(n) => i += n,
            None => {
                let j = plain_end(&s[..until], i, ASCII_END, ASCII_END);
                if j <= i {
                    return i;
                }
                i = j;
            }
        }
    }
    i
}
