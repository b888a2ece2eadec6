// Digits, signs and integers of the number grammar (R7RS 7.1.1), and the hexadecimal digits of escapes and `#\x` characters (document
// 01, "Rules that bite"): specs/Digits and specs/Hex say what each function answers. A part of a text is a slice that starts where the
// text starts, so that an index is a place of the text, and the place where the part starts. Internal: the number call is in `numbers`.
#![tactic(auto)]

ghost use Rattle.std.specs.Prelude.{◌≡◌, ◌+◌, ◌^◌, ◌≤◌, ◌<◌, ltb, length, drop};
ghost use Rattle.laws.specs.Letters.{is_sign};
ghost use Rattle.digits.specs.Digits.{digit_of, digits, sign, uinteger, value, run_value, short, short_in_any, fit, signed, top, whole_of, integer};

use byte_runs::{ByteClass, between, bytes_end};

mod hexadecimal;

pub use hexadecimal::hex_value;

// Places of a text: from `start` to before `end`.
#[derive(Clone, Copy)]
pub struct Span {
    pub start: usize,
    pub end: usize,
}

// A run of digits: where it ends, and their value.
#[derive(Clone, Copy)]
pub struct Run {
    pub end: usize,
    pub value: u64,
}

// An integer. Small: its value. Big, as 9223372036854775808 is: whether it has a minus sign, and where its digits stand.
#[derive(Clone, Copy)]
pub enum Int {
    Small(i64),
    Big(bool, Span),
}

// What is wrong with hexadecimal digits: the detail of error 11, as a record has it, and at which place of their text.
#[derive(Clone, Copy)]
pub struct HexError {
    pub detail: u32,
    pub place: usize,
}

// The digit of a byte that is none, a digit of no radix.
const NO_DIGIT: u64 = 16;

// The value of the letter A as a digit.
const LETTER: u64 = 10;

// The radix of a text that names none.
pub const DECIMAL_RADIX: u64 = 10;

// The decimal digits of a text of so many bytes, whatever they are, have a value within signed 64 bits.
pub const SHORT: usize = 18;

// The digits of a text of so many bytes, whatever they are and in whatever radix, have a value within signed 64 bits.
pub const SHORT_IN_ANY: usize = 15;

// The first magnitude past signed 64 bits, and the first one after a minus sign.
const TOP: u64 = 0x8000_0000_0000_0000;

const NEGATIVE_TOP: u64 = 0x8000_0000_0000_0001;

// A digit's value.
pub fn digit(c: u8) -> u64
    ensures { result ≡ digit_of c }
{
    match c {
        b'0'..=b'9' => (c - b'0') as u64,
        b'A'..=b'F' => (c - b'A') as u64 + LETTER,
        b'a'..=b'f' => (c - b'a') as u64 + LETTER,
        _ => NO_DIGIT,
    }
}

// The digits of a radix.
#[derive(Clone, Copy)]
struct DigitOf {
    radix: u64,
}

impl ByteClass for DigitOf {
    ghost passes = { λ s c. ltb (digit_of c) s.radix };

    fn ends(self, c: u8) -> bool {
        self.radix <= digit(c)
    }
}

// The decimal digits, with one test a byte.
#[derive(Clone, Copy)]
struct Decimal;

impl ByteClass for Decimal {
    ghost passes = { λ s c. ltb (digit_of c) 10 };

    fn ends(self, c: u8) -> bool {
        !between(b'0', b'9', c)
    }
}

// Where the run of digits from a place on ends.
pub fn run_end(t: &[u8], from: usize, radix: u64) -> usize
    ensures { result ≡ from + digits radix (drop from t.now) }
{
    bytes_end(t, from, DigitOf { radix })
}

// Where the run of decimal digits from a place on ends, with one test a byte.
pub fn decimal_end(t: &[u8], from: usize) -> usize
    ensures { result ≡ from + digits 10 (drop from t.now) }
{
    bytes_end(t, from, Decimal)
}

// The run of decimal digits from a place on in a short text, after digits of the value before that stand before the place.
pub fn decimal_run(t: &[u8], from: usize, before: u64) -> Run
    requires { (length t.now ≤ short) × (before < 10 ^ from) }
    ensures { (result.end ≡ from + digits 10 (drop from t.now)) × (result.value ≡ run_value before (drop from t.now)) × (result.value < 10 ^ result.end) }
{
    let mut v = before;
    let mut i = from;
    while i < t.len() {
        let c = t[i];
        if between(b'0', b'9', c) {
            v = v * DECIMAL_RADIX + (c - b'0') as u64;
            i += 1;
        } else {
            return Run { end: i, value: v };
        }
    }
    Run { end: i, value: v }
}

// The run of digits of a radix from a place on in a text that is short in any; the value is that of all digits where they end the text.
pub fn short_run(t: &[u8], from: usize, radix: u64) -> Run
    requires { (length t.now ≤ short_in_any) × (radix ≤ 16) }
    ensures { (result.end ≡ from + digits radix (drop from t.now)) × (length t.now ≤ result.end → result.value ≡ value radix 0 (drop from t.now)) × (result.value < 16 ^ result.end) }
{
    let mut v: u64 = 0;
    let mut i = from;
    while i < t.len() {
        let d = digit(t[i]);
        if radix <= d {
            return Run { end: i, value: v };
        }
        v = v * radix + d;
        i += 1;
    }
    Run { end: i, value: v }
}

// Whether a byte is a sign.
pub fn is_sign(c: u8) -> bool
    ensures { result ≡ is_sign c }
{
    matches!(c, b'+' | b'-')
}

// Where the sign at a place ends, if one is there.
pub fn sign_end(t: &[u8], from: usize) -> usize
    ensures { result ≡ from + sign (drop from t.now) }
{
    if t.len() <= from {
        return from;
    }
    if is_sign(t[from]) {
        return from + 1;
    }
    from
}

// Whether one or more digits stand from a place on, and nothing else.
pub fn unsigned(t: &[u8], from: usize, radix: u64) -> bool
    ensures { result ≡ uinteger radix (drop from t.now) }
{
    if t.len() <= from {
        return false;
    }
    let end = run_end(t, from, radix);
    end == t.len()
}

// The value of the digits from a place on.
fn magnitude_at(t: &[u8], from: usize, radix: u64) -> Option<u64>
    requires { (1 ≤ radix) × (radix ≤ 16) }
    ensures { result ≡ fit (value radix 0 (drop from t.now)) }
{
    let mut v: u64 = 0;
    for i in from..t.len() {
        let d = digit(t[i]);
        if (TOP - d) / radix < v {
            return None;
        }
        v = v * radix + d;
    }
    Some(v)
}

// The signed number of a magnitude.
pub fn small(neg: bool, m: u64) -> i64
    requires { m < top neg }
    ensures { result ≡ signed neg m }
{
    if neg {
        if m == 0 {
            return 0;
        }
        return -1 - ((m - 1) as i64);
    }
    m as i64
}

// The first magnitude past signed 64 bits.
fn top_of(neg: bool) -> u64
    ensures { result ≡ top neg }
{
    if neg {
        return NEGATIVE_TOP;
    }
    TOP
}

// The integer of the digits from a place on, after its sign.
pub fn whole(t: &[u8], from: usize, radix: u64, neg: bool) -> Option<Int>
    requires { (1 ≤ radix) × (radix ≤ 16) }
    ensures { result ≡ whole_of radix neg from (drop from t.now) }
{
    if unsigned(t, from, radix) {
        let end = t.len();
        match magnitude_at(t, from, radix) {
            Some(m) => {
                if m < top_of(neg) {
                    Some(Int::Small(small(neg, m)))
                } else {
                    Some(Int::Big(neg, Span { start: from, end }))
                }
            }
            None => Some(Int::Big(neg, Span { start: from, end })),
        }
    } else {
        None
    }
}

// The integer from a place on: an optional sign, then digits.
pub fn integer(t: &[u8], from: usize, radix: u64) -> Option<Int>
    requires { (1 ≤ radix) × (radix ≤ 16) }
    ensures { result ≡ integer radix from (drop from t.now) }
{
    let neg = byte_runs::starts_at(t, from, b'-');
    let a = sign_end(t, from);
    whole(t, a, radix, neg)
}
