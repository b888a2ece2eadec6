// The number call: a text's number by the number grammar of R7RS 7.1.1, as document 01 and the Rust have it (specs/Reals, specs/Grammar,
// which name the departures). It answers the number's parts, with places of the text for digits and no float; or that the text is no
// number; or that a denominator is zero. A part of the text is a slice that starts where the text starts, so that an index is a place of
// the text, and the place where the part starts.
#![tactic(auto)]

ghost use Rattle.std.specs.Prelude.{◌≡◌, ◌≤◌, length, drop};
ghost use Rattle.numbers.specs.Grammar.{zero_int, zero_real, zero_parts, judged, radix_mark, prefix, parse_number};
ghost use Rattle.refusal.specs.Refusals.{limit};
ghost use Rattle.numbers.specs.Grammars.{parts_by};
ghost use Rattle.numbers.specs.Plain.{fraction, ratio, plain};
ghost use Rattle.numbers.specs.Call.{answered, given, number};

use digits::{DECIMAL_RADIX, Int, Span};
use grammar::Bought;
use refusal::LIMIT;

mod brief;
mod complexes;
mod grammar;
mod plus;
mod reals;

pub use brief::brief_parts;
pub use plus::plus_number;

// What a grammar is given by, and what its reader is made of: the second one is crate numbers_standard. Internal.
pub use complexes::{complex, just, polar, to_sign};
pub use grammar::NumberGrammar;
pub use reals::{decimal_at, integral, is_marker, rational};

// A decimal's exponent: whether it has a minus sign, and where its digits stand.
#[derive(Clone, Copy)]
pub struct Exponent {
    pub negative: bool,
    pub digits: Span,
}

// A decimal: its sign, and where its digits stand. Of 1e5 the fraction, of 1.5 the exponent is the empty place after the digits.
#[derive(Clone, Copy)]
pub struct Point {
    pub negative: bool,
    pub whole: Span,
    pub fraction: Span,
    pub exponent: Exponent,
}

#[derive(Clone, Copy)]
pub enum Real {
    // 5
    Integer(Int),
    // 1/2
    Rational(Int, Int),
    // 1.5
    Decimal(Point),
    // +inf.0
    PosInf,
    // -inf.0
    NegInf,
    // +nan.0
    PosNan,
    // -nan.0
    NegNan,
    // the real part of +5i
    ImpliedZero,
    // the imaginary part of +i, and of -i (true)
    ImpliedOne(bool),
}

#[derive(Clone, Copy)]
pub enum Parts {
    // 5
    Just(Real),
    // 1+2i
    Complex(Real, Real),
    // 1@2
    Polar(Real, Real),
}

// Why a text that is known to be UTF-8 and short enough is no number.
#[derive(Clone, Copy)]
pub enum ParseError {
    // abc
    NoNumber,
    // 1/0
    ZeroDenominator,
}

// Why the number call gives no parts: specs/Call gives document 01's numbers for each case.
#[derive(Clone, Copy)]
pub enum NumberError {
    // abc
    NoNumber,
    // 1/0
    ZeroDenominator,
    // a text of 4,294,967,296 bytes
    TooLong,
    // the byte FF: the start of the first bad sequence
    NotUtf8(usize),
}

// What follows a decimal's digits.
#[derive(Clone, Copy)]
pub enum Suffix {
    Empty,
    // e5
    Marked(Exponent),
    // e
    Bad,
}

// What a plainest real without a slash has from a place on: whether a minus sign, where its digits start, where those before a dot end and where
// all end, and the value of those before the dot.
#[derive(Clone, Copy)]
pub struct Outline {
    pub negative: bool,
    pub start: usize,
    pub dot: usize,
    pub end: usize,
    pub value: u64,
}

// Document 01's number of the error of a zero denominator: 1/0
pub const ZERO_DENOMINATOR: u32 = 8;

// The radices that a prefix names beside DECIMAL_RADIX; a text without a prefix is decimal.
const BINARY_RADIX: u64 = 2;

const OCTAL_RADIX: u64 = 8;

pub const HEXADECIMAL_RADIX: u64 = 16;

// The length of a prefix.
pub const PREFIX: usize = 2;

// What stands for the radix where none is named.
pub const NO_RADIX: u64 = 0;

// Whether an integer is zero.
fn zero_int(n: Int) -> bool
    ensures { result ≡ zero_int n }
{
    match n {
        Int::Small(v) => v == 0,
        Int::Big(_, _) => false,
    }
}

// Whether a real has a zero denominator.
fn zero_real(a: Real) -> bool
    ensures { result ≡ zero_real a }
{
    match a {
        Real::Rational(_, d) => zero_int(d),
        _ => false,
    }
}

// Whether a part has a zero denominator.
fn zero_parts(p: Parts) -> bool
    ensures { result ≡ zero_parts p }
{
    match p {
        Parts::Just(a) => zero_real(a),
        Parts::Complex(a, b) | Parts::Polar(a, b) => zero_real(a) || zero_real(b),
    }
}

// What parts amount to.
pub fn judge(m: Option<Parts>) -> Result<Parts, ParseError>
    ensures { result ≡ judged m }
{
    match m {
        Some(p) => {
            if zero_parts(p) {
                Err(ParseError::ZeroDenominator)
            } else {
                Ok(p)
            }
        }
        None => Err(ParseError::NoNumber),
    }
}

// The radix that a letter names.
fn radix_mark(c: u8) -> u64
    ensures { result ≡ radix_mark c }
{
    match c {
        b'x' | b'X' => HEXADECIMAL_RADIX,
        b'd' | b'D' => DECIMAL_RADIX,
        b'o' | b'O' => OCTAL_RADIX,
        b'b' | b'B' => BINARY_RADIX,
        _ => NO_RADIX,
    }
}

// The radix that a text names.
pub fn prefix(t: &[u8]) -> u64
    ensures { result ≡ prefix t.now }
{
    if t.len() < PREFIX {
        return NO_RADIX;
    }
    if t[0] == b'#' {
        radix_mark(t[1])
    } else {
        NO_RADIX
    }
}

// The parts of a text by a grammar. Internal: the two readers judge them.
pub fn number_parts<G: NumberGrammar>(t: &[u8]) -> Option<Parts>
    ensures { result ≡ parts_by G.complex t.now }
{
    let radix = prefix(t);
    if radix == NO_RADIX {
        complexes::complex_at::<G>(t, 0, DECIMAL_RADIX)
    } else {
        complexes::complex_at::<G>(t, PREFIX, radix)
    }
}

// What a text is as a number. Internal: for a text that is known to be UTF-8 and short enough.
pub fn parse_number(t: &[u8]) -> Result<Parts, ParseError>
    ensures { result ≡ parse_number t.now }
{
    judge(number_parts::<Bought>(t))
}

// Whether a dot and digits stand from a place on, and nothing else.
fn fraction_at(t: &[u8], from: usize) -> bool
    ensures { result ≡ fraction (drop from t.now) }
{
    if byte_runs::starts_at(t, from, b'.') {
        let start = from + 1;
        if t.len() <= start {
            return false;
        }
        return digits::decimal_end(t, start) == t.len();
    }
    false
}

// Whether a slash and digits stand from a place on, the first of them not zero, and nothing else.
fn ratio_at(t: &[u8], from: usize) -> bool
    ensures { result ≡ ratio (drop from t.now) }
{
    if byte_runs::starts_at(t, from, b'/') {
        let start = from + 1;
        if t.len() <= start {
            return false;
        }
        if t[start] <= b'0' {
            return false;
        }
        return digits::decimal_end(t, start) == t.len();
    }
    false
}

// Whether a text is one of the plainest numbers, in one pass: 14, -14, 14.7, 1/2. Internal: where this is enough no parts are needed.
pub fn is_plain(t: &[u8]) -> bool
    ensures { result ≡ plain t.now }
{
    let from = digits::sign_end(t, 0);
    let end = digits::decimal_end(t, from);
    if end == t.len() {
        return from < end;
    }
    if fraction_at(t, end) {
        return true;
    }
    if from < end {
        return ratio_at(t, end);
    }
    false
}

// The answer to a text that is not refused.
pub fn serve(p: Result<Parts, ParseError>) -> Result<Parts, NumberError>
    ensures { answered result ≡ given p }
{
    match p {
        Ok(parts) => Ok(parts),
        Err(ParseError::NoNumber) => Err(NumberError::NoNumber),
        Err(ParseError::ZeroDenominator) => Err(NumberError::ZeroDenominator),
    }
}

// The number call on a text that is short enough, by the whole grammar.
pub fn by_grammar(t: &[u8]) -> Result<Parts, NumberError>
    requires { length t.now ≤ limit }
    ensures { answered result ≡ number t.now }
{
    match chars::first_bad(t) {
        Some(at) => Err(NumberError::NotUtf8(at)),
        None => serve(parse_number(t)),
    }
}

// The number call on any bytes. A brief number is ASCII, so its text need not be asked whether it is UTF-8.
pub fn number(t: &[u8]) -> Result<Parts, NumberError>
    ensures { answered result ≡ number t.now }
{
    if LIMIT < t.len() {
        return Err(NumberError::TooLong);
    }
    match brief_parts(t) {
        Some(p) => Ok(p),
        None => by_grammar(t),
    }
}
