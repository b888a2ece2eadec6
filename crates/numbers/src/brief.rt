// Brief numbers by a way of their own: one of the plainest reals, two with `@` or a sign between them, or an integer behind a prefix, in a text
// whose digits have a value within signed 64 bits whatever they are. Each byte is read once, and no part is handed on but as numbers.
// Internal: for both readers.
ghost use Rattle.std.specs.Prelude.{◌≡◌, ◌⊎◌, ◌^◌, ◌≤◌, ◌<◌, length, get_or, drop};
ghost use Rattle.laws.specs.Quoted.{code};
ghost use Rattle.digits.specs.Digits.{short};
ghost use Rattle.numbers.specs.Brief.{fraction_end, Outlines, sound, outlined, Begins, Briefly};

use crate::{Exponent, NO_RADIX, Outline, PREFIX, Parts, Point, Real, prefix};
use digits::{Int, SHORT, SHORT_IN_ANY, Span, is_sign};

// Where the fraction from a place on ends, if a dot is there.
fn fraction_end(t: &[u8], from: usize) -> usize
    ensures { result ≡ fraction_end from (drop from t.now) }
{
    if byte_runs::starts_at(t, from, b'.') {
        return digits::decimal_end(t, from + 1);
    }
    from
}

// The outline of a real from a place on.
fn outline_at(t: &[u8], from: usize) -> Outline
    requires { (length t.now ≤ short) × (from ≤ length t.now) }
    ensures { Outlines t.now from result × (result.value < 10 ^ short) × (result.dot ≤ result.end) × (result.end ≤ length t.now) }
{
    let negative = byte_runs::starts_at(t, from, b'-');
    let start = digits::sign_end(t, from);
    let run = digits::decimal_run(t, start, 0);
    let end = fraction_end(t, run.end);
    Outline {
        negative,
        start,
        dot: run.end,
        end,
        value: run.value,
    }
}

// Whether an outline is a real's: it has digits, and where it has a dot some after it.
fn is_sound(o: Outline) -> bool
    requires { o.dot ≤ o.end }
    ensures { result ≡ sound o }
{
    let dot = o.dot;
    let end = o.end;
    if dot == end {
        return o.start < dot;
    }
    dot + 1 < end
}

// The real of an outline.
fn real_of(o: Outline) -> Real
    requires { (o.value < 10 ^ short) × (o.dot ≤ o.end) }
    ensures { result ≡ outlined o }
{
    let dot = o.dot;
    let end = o.end;
    if dot == end {
        return Real::Integer(Int::Small(digits::small(o.negative, o.value)));
    }
    Real::Decimal(Point {
        negative: o.negative,
        whole: Span {
            start: o.start,
            end: dot,
        },
        fraction: Span {
            start: dot + 1,
            end,
        },
        exponent: Exponent {
            negative: false,
            digits: Span { start: end, end },
        },
    })
}

// The parts of a text that begins with a real and `@`.
fn brief_polar(t: &[u8], one: Outline) -> Option<Parts>
    requires { Begins t.now one × (get_or t.now one.end 0 ≡ code "@") }
    ensures { Briefly t.now result }
{
    let two = outline_at(t, one.end + 1);
    if !is_sound(two) {
        return None;
    }
    if two.end < t.len() {
        return None;
    }
    Some(Parts::Polar(real_of(one), real_of(two)))
}

// The parts of a text that begins with a real and a sign.
fn brief_complex(t: &[u8], one: Outline) -> Option<Parts>
    requires { Begins t.now one × ((get_or t.now one.end 0 ≡ code "+") ⊎ (get_or t.now one.end 0 ≡ code "-")) }
    ensures { Briefly t.now result }
{
    let two = outline_at(t, one.end);
    if !is_sound(two) {
        return None;
    }
    let end = two.end;
    if end + 1 != t.len() {
        return None;
    }
    if t[end] != b'i' {
        return None;
    }
    Some(Parts::Complex(real_of(one), real_of(two)))
}

// The parts of a text that begins with an integer and a slash. A denominator that begins with zero may be zero, and none is told then.
fn brief_ratio(t: &[u8], one: Outline) -> Option<Parts>
    requires { Begins t.now one × (one.dot ≡ one.end) × (get_or t.now one.end 0 ≡ code "/") }
    ensures { Briefly t.now result }
{
    let start = one.end + 1;
    if t.len() <= start {
        return None;
    }
    if t[start] <= b'0' {
        return None;
    }
    let run = digits::decimal_run(t, start, 0);
    if run.end < t.len() {
        return None;
    }
    let over = Int::Small(digits::small(one.negative, one.value));
    let under = Int::Small(digits::small(false, run.value));
    Some(Parts::Just(Real::Rational(over, under)))
}

// The parts of a text that is a prefix and an integer.
fn brief_radix(t: &[u8]) -> Option<Parts>
    ensures { Briefly t.now result }
{
    let radix = prefix(t);
    if radix == NO_RADIX {
        return None;
    }
    if SHORT_IN_ANY < t.len() {
        return None;
    }
    let negative = byte_runs::starts_at(t, PREFIX, b'-');
    let start = digits::sign_end(t, PREFIX);
    let run = digits::short_run(t, start, radix);
    if t.len() <= start {
        return None;
    }
    if run.end < t.len() {
        return None;
    }
    Some(Parts::Just(Real::Integer(Int::Small(digits::small(negative, run.value)))))
}

// The parts of a brief number; none are told of any other text.
pub fn brief_parts(t: &[u8]) -> Option<Parts>
    ensures { Briefly t.now result }
{
    if SHORT < t.len() {
        return None;
    }
    let one = outline_at(t, 0);
    if !is_sound(one) {
        return brief_radix(t);
    }
    let end = one.end;
    if t.len() <= end {
        return Some(Parts::Just(real_of(one)));
    }
    let c = t[end];
    if c == b'@' {
        return brief_polar(t, one);
    }
    if is_sign(c) {
        return brief_complex(t, one);
    }
    if one.dot < end {
        return None;
    }
    if c == b'/' {
        return brief_ratio(t, one);
    }
    None
}
