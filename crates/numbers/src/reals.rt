// A real number from a place on: <real R> and the productions below it (specs/Reals). From an integer or a rational on they are those of a grammar.
ghost use Rattle.std.specs.Prelude.{◌≡◌, ◌-◌, ◌≤◌, eqb, drop};
ghost use Rattle.digits.specs.Digits.{digits};
ghost use Rattle.numbers.specs.Reals.{exponent_marker, exponent, suffix, point_of, dotted, undotted, decimal, integral_of, rational_of};

use crate::grammar::NumberGrammar;
use crate::{Exponent, Point, Real, Suffix};
use digits::{DECIMAL_RADIX, Int, Span};

// Whether a byte marks an exponent.
pub fn is_marker(c: u8) -> bool
    ensures { result ≡ exponent_marker c }
{
    matches!(c, b'e' | b'E')
}

// The exponent after its marker.
fn exponent_at(t: &[u8], from: usize) -> Suffix
    ensures { result ≡ exponent from (drop from t.now) }
{
    let negative = byte_runs::starts_at(t, from, b'-');
    let start = digits::sign_end(t, from);
    if digits::unsigned(t, start, DECIMAL_RADIX) {
        let end = t.len();
        Suffix::Marked(Exponent {
            negative,
            digits: Span { start, end },
        })
    } else {
        Suffix::Bad
    }
}

// What follows a decimal's digits.
fn suffix_at(t: &[u8], from: usize) -> Suffix
    ensures { result ≡ suffix from (drop from t.now) }
{
    if t.len() <= from {
        return Suffix::Empty;
    }
    if is_marker(t[from]) {
        exponent_at(t, from + 1)
    } else {
        Suffix::Bad
    }
}

// A decimal of its sign, the places of its digits and its suffix.
pub(crate) fn point_of(negative: bool, whole: Span, fraction: Span, x: Suffix) -> Option<Real>
    ensures { result ≡ point_of negative whole fraction x }
{
    match x {
        Suffix::Empty => Some(Real::Decimal(Point {
            negative,
            whole,
            fraction,
            exponent: Exponent {
                negative: false,
                digits: Span {
                    start: fraction.end,
                    end: fraction.end,
                },
            },
        })),
        Suffix::Marked(exponent) => Some(Real::Decimal(Point {
            negative,
            whole,
            fraction,
            exponent,
        })),
        Suffix::Bad => None,
    }
}

// The decimal whose dot stands before a place; the digits before the dot stand from start to end.
fn dotted(t: &[u8], from: usize, neg: bool, start: usize, end: usize) -> Option<Real>
    requires { start ≤ end }
    ensures { result ≡ dotted neg start (end - start) from (drop from t.now) }
{
    let stop = digits::decimal_end(t, from);
    let whole = Span { start, end };
    let fraction = Span {
        start: from,
        end: stop,
    };
    if start == end {
        if from == stop {
            return None;
        }
        return point_of(neg, whole, fraction, suffix_at(t, stop));
    }
    point_of(neg, whole, fraction, suffix_at(t, stop))
}

// The decimal without a dot, whose digits stand from start to end.
fn undotted(neg: bool, start: usize, end: usize, x: Suffix) -> Option<Real>
    requires { start ≤ end }
    ensures { result ≡ undotted neg start (end - start) x }
{
    match x {
        Suffix::Empty => None,
        Suffix::Marked(_) => {
            if start == end {
                None
            } else {
                point_of(neg, Span { start, end }, Span { start: end, end }, x)
            }
        }
        Suffix::Bad => None,
    }
}

// The decimal from a place on, after its sign.
pub fn decimal_at(t: &[u8], from: usize, neg: bool) -> Option<Real>
    ensures { result ≡ decimal neg from (drop from t.now) }
{
    let end = digits::decimal_end(t, from);
    if byte_runs::starts_at(t, end, b'.') {
        dotted(t, end + 1, neg, from, end)
    } else {
        undotted(neg, from, end, suffix_at(t, end))
    }
}

// One of the four texts of an infinity or of no number.
fn infnan_at<G: NumberGrammar>(t: &[u8], from: usize) -> Option<Real>
    ensures { result ≡ G.infnan (drop from t.now) }
{
    if G::spells(t, from, b"+inf.0") {
        return Some(Real::PosInf);
    }
    if G::spells(t, from, b"-inf.0") {
        return Some(Real::NegInf);
    }
    if G::spells(t, from, b"+nan.0") {
        return Some(Real::PosNan);
    }
    if G::spells(t, from, b"-nan.0") {
        return Some(Real::NegNan);
    }
    None
}

// An integer as a real.
pub fn integral(n: Option<Int>) -> Option<Real>
    ensures { result ≡ integral_of n }
{
    Some(Real::Integer(n?))
}

// A rational of two integers.
pub fn rational(n: Option<Int>, d: Option<Int>) -> Option<Real>
    ensures { result ≡ rational_of n d }
{
    Some(Real::Rational(n?, d?))
}

// Whether no digit stands at a place.
fn no_digit_at(t: &[u8], from: usize, radix: u64) -> bool
    ensures { result ≡ eqb (digits radix (drop from t.now)) 0 }
{
    if t.len() <= from {
        return true;
    }
    radix <= digits::digit(t[from])
}

// The integer or rational from a place on, after its sign.
pub(crate) fn exact_at<G: NumberGrammar>(
    t: &[u8],
    from: usize,
    radix: u64,
    neg: bool,
) -> Option<Real>
    requires { (1 ≤ radix) × (radix ≤ 16) }
    ensures { result ≡ G.exact radix neg from (drop from t.now) }
{
    if no_digit_at(t, from, radix) {
        return None;
    }
    let k = byte_runs::find(t, from, b'/');
    if k < t.len() {
        rational(
            digits::whole(&t[..k], from, radix, neg),
            G::denominator_at(t, k + 1, radix),
        )
    } else {
        integral(digits::whole(t, from, radix, neg))
    }
}

// The real from a place on, after its sign.
pub(crate) fn ureal_at<G: NumberGrammar>(
    t: &[u8],
    from: usize,
    radix: u64,
    neg: bool,
) -> Option<Real>
    requires { (1 ≤ radix) × (radix ≤ 16) }
    ensures { result ≡ G.ureal radix neg from (drop from t.now) }
{
    if radix == DECIMAL_RADIX {
        if let Some(x) = decimal_at(t, from, neg) {
            return Some(x);
        }
    }
    exact_at::<G>(t, from, radix, neg)
}

// The real from a place on.
pub(crate) fn real_at<G: NumberGrammar>(t: &[u8], from: usize, radix: u64) -> Option<Real>
    requires { (1 ≤ radix) × (radix ≤ 16) }
    ensures { result ≡ G.real radix from (drop from t.now) }
{
    if let Some(x) = infnan_at::<G>(t, from) {
        return Some(x);
    }
    let neg = byte_runs::starts_at(t, from, b'-');
    let a = digits::sign_end(t, from);
    ureal_at::<G>(t, a, radix, neg)
}
