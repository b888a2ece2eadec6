// Characters out of bytes: RFC 3629, section 4.
ghost use Rattle.std.specs.Prelude.{◌≡◌, ◌≤◌, drop};
ghost use Rattle.chars.specs.Utf8.{ascii, first, placed, front, first_bad};
ghost use Rattle.chars.specs.Machine.{step};
ghost use Rattle.chars.specs.Wide.{Passed};

use crate::letters::wide_end;
use crate::{Begun, Decoded, Step, encode};
use byte_runs::{ASCII_END, BLOCK, ByteClass, pairs_at, run_end, starts_run};

// UTF8-tail, and the six bits that it holds.
pub const TAIL_LOW: u8 = 0x80;

pub const TAIL_HIGH: u8 = 0xBF;

const SIX_BITS: u8 = encode::SIX_BITS as u8;

// The marks of a first byte: 110xxxxx, 1110xxxx and 11110xxx.
const MARK_TWO: u8 = encode::MARK_TWO as u8;

const MARK_THREE: u8 = encode::MARK_THREE as u8;

const MARK_FOUR: u8 = encode::MARK_FOUR as u8;

// How many bytes of ASCII are tested at once at the start of a text.
const LONG_BLOCK: usize = 4 * BLOCK;

// With six bits more, a code past this is past every character.
const CODE_TOP: u32 = 0x7FFF;

// `need` bytes are to follow, the next of them in low..high.
fn more(need: u8, low: u8, high: u8, code: u8) -> Step
    ensures { result ≡ Step.More (record { need = need; low = low; high = high; code = code }) }
{
    Step::More(Begun {
        need,
        low,
        high,
        code: code as u32,
    })
}

// The first byte of a character past ASCII. The bytes written out are those of the table of section 4.
#[tactic(auto, using(crate::proofs::Table::first_gap, crate::proofs::Table::first_c2, crate::proofs::Table::first_e0, crate::proofs::Table::first_e1, crate::proofs::Table::first_ed, crate::proofs::Table::first_ee, crate::proofs::Table::first_f0, crate::proofs::Table::first_f1, crate::proofs::Table::first_f4, crate::proofs::Table::first_past))]
fn first_of_more(b: u8) -> Step
    requires { 0x80 ≤ b }
    ensures { result ≡ first b }
{
    match b {
        0x00..=0xC1 => Step::Bad,
        0xC2..=0xDF => more(1, TAIL_LOW, TAIL_HIGH, b - MARK_TWO),
        0xE0 => more(2, 0xA0, TAIL_HIGH, b - MARK_THREE),
        0xE1..=0xEC => more(2, TAIL_LOW, TAIL_HIGH, b - MARK_THREE),
        0xED => more(2, TAIL_LOW, 0x9F, b - MARK_THREE),
        0xEE..=0xEF => more(2, TAIL_LOW, TAIL_HIGH, b - MARK_THREE),
        0xF0 => more(3, 0x90, TAIL_HIGH, b - MARK_FOUR),
        0xF1..=0xF3 => more(3, TAIL_LOW, TAIL_HIGH, b - MARK_FOUR),
        0xF4 => more(3, TAIL_LOW, 0x8F, b - MARK_FOUR),
        0xF5..=0xFF => Step::Bad,
    }
}

// A character's first byte. Most are of ASCII, so these are told before the others are looked at.
#[tactic(auto, using(crate::proofs::Table::first_ascii))]
fn first_byte(b: u8) -> Step
    ensures { result ≡ first b }
{
    if b < ASCII_END {
        return Step::Char(b as u32);
    }
    first_of_more(b)
}

// One byte more of a text that comes a byte at a time. It is bad at the first byte after which no valid text can follow. Inlined, since a step
// that is handed over in memory takes twice the time in `lines_calls`.
#[inline(always)]
pub fn byte_step(t: Begun, b: u8) -> Step
    ensures { result ≡ step t b }
{
    if t.need == 0 {
        return first_byte(b);
    }
    if b < t.low {
        return Step::Bad;
    }
    if t.high < b {
        return Step::Bad;
    }
    if CODE_TOP < t.code {
        return Step::Bad;
    }
    let code = t.code * SIX_BITS as u32 + (b % SIX_BITS) as u32;
    if t.need == 1 {
        return Step::Char(code);
    }
    Step::More(Begun {
        need: t.need - 1,
        low: TAIL_LOW,
        high: TAIL_HIGH,
        code,
    })
}

// The character at a place of a text, byte by byte.
fn decode_bytes(s: &[u8], at: usize) -> Decoded
    ensures { result ≡ placed at (front (drop at s.now)) }
{
    if s.len() <= at {
        return Decoded::End;
    }
    let mut t = Begun {
        need: 0,
        low: 0,
        high: 0,
        code: 0,
    };
    for i in at..s.len() {
        match byte_step(t, s[i]) {
            Step::More(u) => t = u,
            Step::Char(code) => return Decoded::Char { code, next: i + 1 },
            Step::Bad => return Decoded::Bad,
        }
    }
    Decoded::Cut
}

// The character at a place of a text. One of ASCII, as most are, is its byte.
pub fn decode_at(s: &[u8], at: usize) -> Decoded
    ensures { result ≡ placed at (front (drop at s.now)) }
{
    if s.len() <= at {
        return Decoded::End;
    }
    let b = s[at];
    if b < ASCII_END {
        return Decoded::Char {
            code: b as u32,
            next: at + 1,
        };
    }
    decode_bytes(s, at)
}

// The characters of ASCII.
#[derive(Clone, Copy)]
struct Ascii;

impl ByteClass for Ascii {
    ghost passes = { λ s c. ascii c };

    fn ends(self, c: u8) -> bool {
        ASCII_END <= c
    }
}

// Past the long blocks of ASCII at the start of a text. Most texts are ASCII throughout, or begin so.
fn past_long_blocks(s: &[u8]) -> usize
    ensures { Passed s.now 0 result }
{
    let mut i = 0;
    while starts_run(s, i, LONG_BLOCK, Ascii) {
        i += LONG_BLOCK;
    }
    i
}

// Past the blocks, from a place on, of ASCII and of characters of one byte or two.
fn past_blocks(s: &[u8], from: usize) -> usize
    ensures { Passed s.now from result }
{
    let mut i = from;
    loop {
        if starts_run(s, i, BLOCK, Ascii) {
            i += BLOCK;
        } else {
            match pairs_at(s, i) {
                Some(n) => i += n,
                None => return i,
            }
        }
    }
}

// Whether a text is UTF-8, else where its first bad sequence starts: refusal 21 and its place. What is good is passed by direct tests; what
// they leave is read byte by byte.
pub fn first_bad(s: &[u8]) -> Option<usize>
    ensures { result ≡ first_bad s.now }
{
    let mut i = past_long_blocks(s);
    while i < s.len() {
        let j = wide_end(s, run_end(s, past_blocks(s, i), Ascii));
        if i < j {
            i = j;
        } else {
            match decode_at(s, i) {
                Decoded::Char { code: _, next } => {
                    i = next;
                }
                Decoded::Bad | Decoded::Cut => return Some(i),
                Decoded::End => return None,
            }
        }
    }
    None
}
