// An answer of the number call as a number, and a number's parts as twenty-seven words: what C and Rust are told. Internal. A refusal
// of the text has one word instead, what it comes with.
//
//     0         the number's form (REAL, COMPLEX, POLAR)
//     1 to 13   a real: the number itself, the real part, or the magnitude
//     14 to 26  a second one: the imaginary part, or the angle
//
// A real is its form (INTEGER and so on) and three figures of four words: an integer has one, a rational two, a decimal three (the
// digits before the dot, those after it, those of the exponent). A figure is what it has (NOTHING, VALUE, PLACES), 1 for a minus sign,
// and then the value's magnitude and 0, or where the digits start and end in the text. The first figure of an infinity, of a NaN and
// of an implied 1 is a sign alone. Whatever is not there is 0.
#![tactic(auto)]

ghost use Rattle.std.specs.Prelude.{◌≡◌, false, ◌≤◌, length, nat_abs, [], ◌∷◌};
ghost use Rattle.laws.specs.Lent.{written};
ghost use Rattle.chars.specs.Encode.{lay};
ghost use Rattle.numbers.specs.Call.{answered};
ghost use Rattle.numbers_words.specs.Words.{bit, minus, sign, nothing, places, int_words, formed, no_real, real_words, joined, parts_words, flattened, number_words, room_or, number_or, figure, real};

use digits::{Int, Span};
use numbers::{NumberError, Parts, Point, Real, ZERO_DENOMINATOR};
use refusal::{LIMIT_VALUE, NOT_UTF8, TOO_FEW, TOO_LONG};

// What the call answers beside the error of a zero denominator and refusals: a number, or none.
const A_NUMBER: u32 = 0;

const NO_NUMBER: u32 = 1;

// How many words an answer has that is no refusal.
const NUMBER_WORDS: usize = 27;

// Where the words of the two reals start.
const FIRST_REAL: usize = 1;

const SECOND_REAL: usize = 14;

// A number's forms: 5, 1+2i, 1@2.
const REAL: u64 = 0;

const COMPLEX: u64 = 1;

const POLAR: u64 = 2;

// A real's forms: none, 5, 1/2, 1.5, +inf.0, +nan.0, the real part of +5i, the imaginary part of +i.
const NO_REAL: u64 = 0;

const INTEGER: u64 = 1;

const RATIONAL: u64 = 2;

const DECIMAL: u64 = 3;

const INFINITY: u64 = 4;

const NAN: u64 = 5;

const IMPLIED_ZERO: u64 = 6;

const IMPLIED_ONE: u64 = 7;

// What a figure has.
const NOTHING: u64 = 0;

const VALUE: u64 = 1;

const PLACES: u64 = 2;

// The words of a figure.
#[derive(Clone, Copy)]
pub struct Figure {
    pub has: u64,
    pub minus: u64,
    pub first: u64,
    pub second: u64,
}

// The words of a real.
#[derive(Clone, Copy)]
pub struct Flat {
    pub form: u64,
    pub one: Figure,
    pub two: Figure,
    pub three: Figure,
}

// 1 for yes, 0 for no.
fn bit(yes: bool) -> u64
    ensures { result ≡ bit yes }
{
    if yes {
        return 1;
    }
    0
}

// 1 for a negative value, 0 for any other.
fn minus(v: i64) -> u64
    ensures { result ≡ minus v }
{
    if v < 0 {
        return 1;
    }
    0
}

// A value without its sign.
fn magnitude(v: i64) -> u64
    ensures { result ≡ nat_abs v }
{
    if v < 0 {
        return (-1 - v) as u64 + 1;
    }
    v as u64
}

// A figure that has nothing.
fn nothing() -> Figure
    ensures { figure result ≡ nothing }
{
    signed(false)
}

// A figure that is a sign alone.
fn signed(negative: bool) -> Figure
    ensures { figure result ≡ sign negative }
{
    Figure {
        has: NOTHING,
        minus: bit(negative),
        first: 0,
        second: 0,
    }
}

// Digits at places of the text.
fn placed(negative: bool, digits: Span) -> Figure
    ensures { figure result ≡ places negative digits }
{
    Figure {
        has: PLACES,
        minus: bit(negative),
        first: digits.start as u64,
        second: digits.end as u64,
    }
}

// An integer: its value, or the places of its digits.
fn integer(n: Int) -> Figure
    ensures { figure result ≡ int_words n }
{
    match n {
        Int::Small(v) => Figure {
            has: VALUE,
            minus: minus(v),
            first: magnitude(v),
            second: 0,
        },
        Int::Big(negative, digits) => placed(negative, digits),
    }
}

// A real of a form and one figure.
fn simple(form: u64, one: Figure) -> Flat
    ensures { real result ≡ formed form (figure one) nothing nothing }
{
    Flat {
        form,
        one,
        two: nothing(),
        three: nothing(),
    }
}

// A numerator and a denominator.
fn rational(n: Int, d: Int) -> Flat
    ensures { real result ≡ formed 2 (int_words n) (int_words d) nothing }
{
    Flat {
        form: RATIONAL,
        one: integer(n),
        two: integer(d),
        three: nothing(),
    }
}

// A decimal: the digits before the dot, those after it, those of the exponent.
fn decimal(d: Point) -> Flat
    ensures { real result ≡ formed 3 (places d.negative d.whole) (places false d.fraction) (places d.exponent.negative d.exponent.digits) }
{
    Flat {
        form: DECIMAL,
        one: placed(d.negative, d.whole),
        two: placed(false, d.fraction),
        three: placed(d.exponent.negative, d.exponent.digits),
    }
}

// The words of a real.
fn real_words(a: Real) -> Flat
    ensures { real result ≡ real_words a }
{
    match a {
        Real::Integer(n) => simple(INTEGER, integer(n)),
        Real::Rational(n, d) => rational(n, d),
        Real::Decimal(d) => decimal(d),
        Real::PosInf => simple(INFINITY, signed(false)),
        Real::NegInf => simple(INFINITY, signed(true)),
        Real::PosNan => simple(NAN, signed(false)),
        Real::NegNan => simple(NAN, signed(true)),
        Real::ImpliedZero => simple(IMPLIED_ZERO, nothing()),
        Real::ImpliedOne(negative) => simple(IMPLIED_ONE, signed(negative)),
    }
}

// The words where no real is.
fn no_real() -> Flat
    ensures { real result ≡ no_real }
{
    simple(NO_REAL, nothing())
}

// Writes a real's words at the front of `words`.
fn put_real(words: &mut [u64], r: Flat)
    requires { 13 ≤ length words.old }
    ensures { words.new ≡ written (real r) words.old }
{
    words[0] = r.form;
    words[1] = r.one.has;
    words[2] = r.one.minus;
    words[3] = r.one.first;
    words[4] = r.one.second;
    words[5] = r.two.has;
    words[6] = r.two.minus;
    words[7] = r.two.first;
    words[8] = r.two.second;
    words[9] = r.three.has;
    words[10] = r.three.minus;
    words[11] = r.three.first;
    words[12] = r.three.second;
}

// Writes an answer's words at the front of `words`: its first one, and those of two reals.
fn put_answer(words: &mut [u64], first: u64, one: Flat, two: Flat)
    requires { number_words ≤ length words.old }
    ensures { words.new ≡ written (joined first (real one) (real two)) words.old }
{
    words[0] = first;
    put_real(&mut words[FIRST_REAL..], one);
    put_real(&mut words[SECOND_REAL..], two);
}

// Tells an answer that is no refusal: its number, and its words at the front of `words`. With fewer than NUMBER_WORDS words it is
// TOO_FEW, and nothing is written.
fn tell_served(words: &mut [u64], number: u32, first: u64, one: Flat, two: Flat) -> u32
    ensures { (result ≡ room_or words.old number) × (words.new ≡ lay (joined first (real one) (real two)) words.old) }
{
    if words.len() < NUMBER_WORDS {
        return TOO_FEW;
    }
    put_answer(words, first, one, two);
    number
}

// Tells an answer without parts.
fn tell_bare(words: &mut [u64], number: u32) -> u32
    ensures { (result ≡ room_or words.old number) × (words.new ≡ lay (joined 0 no_real no_real) words.old) }
{
    tell_served(words, number, 0, no_real(), no_real())
}

// Tells a number's parts.
fn tell_parts(words: &mut [u64], p: Parts) -> u32
    ensures { (result ≡ room_or words.old 0) × (words.new ≡ lay (parts_words p) words.old) }
{
    match p {
        Parts::Just(a) => tell_served(words, A_NUMBER, REAL, real_words(a), no_real()),
        Parts::Complex(a, b) => tell_served(words, A_NUMBER, COMPLEX, real_words(a), real_words(b)),
        Parts::Polar(a, b) => tell_served(words, A_NUMBER, POLAR, real_words(a), real_words(b)),
    }
}

// Tells a refusal: its number, and what it comes with as the first word, where there is one. Every other word stays.
fn tell_refused(words: &mut [u64], number: u32, with: u64) -> u32
    ensures { (result ≡ number) × (words.new ≡ lay (with ∷ []) words.old) }
{
    if words.len() < 1 {
        return number;
    }
    words[0] = with;
    number
}

// Tells an answer: its number, and its words at the front of `words`, where there are so many.
pub fn tell(words: &mut [u64], a: Result<Parts, NumberError>) -> u32
    ensures { (result ≡ number_or words.old (answered a)) × (words.new ≡ lay (flattened (answered a)) words.old) }
{
    match a {
        Ok(p) => tell_parts(words, p),
        Err(NumberError::NoNumber) => tell_bare(words, NO_NUMBER),
        Err(NumberError::ZeroDenominator) => tell_bare(words, ZERO_DENOMINATOR),
        Err(NumberError::TooLong) => tell_refused(words, TOO_LONG, LIMIT_VALUE),
        Err(NumberError::NotUtf8(at)) => tell_refused(words, NOT_UTF8, at as u64),
    }
}
