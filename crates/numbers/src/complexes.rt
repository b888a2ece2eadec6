// A number of one or two parts from a place on: <complex R> (specs/Grammar), by a grammar.
ghost use Rattle.std.specs.Prelude.{◌≡◌, ◌+◌, ◌-◌, ◌≤◌, length, drop};
ghost use Rattle.numbers.specs.Grammar.{just_of, complex_of, polar_of, to_sign};

use crate::grammar::NumberGrammar;
use crate::reals::{is_marker, real_at};
use crate::{Parts, Real};
use digits::is_sign;

// A number of one part.
pub fn just(a: Option<Real>) -> Option<Parts>
    ensures { result ≡ just_of a }
{
    Some(Parts::Just(a?))
}

// A number of a real and an imaginary part.
pub fn complex(a: Option<Real>, b: Option<Real>) -> Option<Parts>
    ensures { result ≡ complex_of a b }
{
    Some(Parts::Complex(a?, b?))
}

// A number of a magnitude and an angle.
pub fn polar(a: Option<Real>, b: Option<Real>) -> Option<Parts>
    ensures { result ≡ polar_of a b }
{
    Some(Parts::Polar(a?, b?))
}

// Whether the last byte is `i`, and stands at a place or past it.
pub(crate) fn ends_i<G: NumberGrammar>(t: &[u8], from: usize) -> bool
    ensures { result ≡ G.ends_i (drop from t.now) }
{
    if t.len() <= from {
        return false;
    }
    let last = t.len() - 1;
    G::spells(t, last, b"i")
}

// The imaginary part from a place on, its `i` taken off.
pub(crate) fn imaginary_at<G: NumberGrammar>(t: &[u8], from: usize, radix: u64) -> Option<Real>
    requires { (1 ≤ radix) × (radix ≤ 16) }
    ensures { result ≡ G.imaginary radix from (drop from t.now) }
{
    if byte_runs::equal_from(t, from, b"+") {
        return Some(Real::ImpliedOne(false));
    }
    if byte_runs::equal_from(t, from, b"-") {
        return Some(Real::ImpliedOne(true));
    }
    real_at::<G>(t, from, radix)
}

// The number from a place on, where nothing joins two parts.
fn alone<G: NumberGrammar>(t: &[u8], from: usize, radix: u64) -> Option<Parts>
    requires { (1 ≤ radix) × (radix ≤ 16) }
    ensures { result ≡ G.alone_of radix from (drop from t.now) }
{
    if ends_i::<G>(t, from) {
        if digits::sign_end(t, from) == from {
            None
        } else {
            let last = t.len() - 1;
            complex(
                Some(Real::ImpliedZero),
                imaginary_at::<G>(&t[..last], from, radix),
            )
        }
    } else {
        just(real_at::<G>(t, from, radix))
    }
}

// The number from a place on, where two parts join at k.
fn pair<G: NumberGrammar>(t: &[u8], from: usize, k: usize, radix: u64) -> Option<Parts>
    requires { (1 ≤ radix) × (radix ≤ 16) × (from ≤ k) × (k ≤ length t.now) }
    ensures { result ≡ G.pair_of radix from (k - from) (drop from t.now) }
{
    if ends_i::<G>(t, k) {
        let last = t.len() - 1;
        complex(
            real_at::<G>(&t[..k], from, radix),
            imaginary_at::<G>(&t[..last], k, radix),
        )
    } else {
        None
    }
}

// Where the first sign from a place on stands, or the end; a byte after `e` or `E` is passed over, and the first one too where skip.
pub fn to_sign(t: &[u8], from: usize, skip: bool) -> usize
    ensures { result ≡ from + to_sign skip (drop from t.now) }
{
    let mut pass = skip;
    for i in from..t.len() {
        let c = t[i];
        if pass {
            pass = false;
            continue;
        }
        if is_sign(c) {
            return i;
        }
        pass = is_marker(c);
    }
    from.max(t.len())
}

// The number without @ from a place on.
fn rectangular_at<G: NumberGrammar>(t: &[u8], from: usize, radix: u64) -> Option<Parts>
    requires { (1 ≤ radix) × (radix ≤ 16) }
    ensures { result ≡ G.rectangular radix from (drop from t.now) }
{
    if t.len() <= from {
        return alone::<G>(t, from, radix);
    }
    let k = G::joint_at(t, from, radix);
    if t.len() <= k {
        return alone::<G>(t, from, radix);
    }
    if G::is_cut_again(t, from, k) {
        None
    } else {
        pair::<G>(t, from, k, radix)
    }
}

// The number from a place on, its prefix taken off.
pub(crate) fn complex_at<G: NumberGrammar>(t: &[u8], from: usize, radix: u64) -> Option<Parts>
    requires { (1 ≤ radix) × (radix ≤ 16) }
    ensures { result ≡ G.complex radix from (drop from t.now) }
{
    let k = byte_runs::find(t, from, b'@');
    if k < t.len() {
        polar(
            real_at::<G>(&t[..k], from, radix),
            real_at::<G>(t, k + 1, radix),
        )
    } else {
        rectangular_at::<G>(t, from, radix)
    }
}
