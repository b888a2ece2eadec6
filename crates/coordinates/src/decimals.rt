// The answer to a text by its parts, each passed once: a sign, digits, a dot and digits, an exponent.
ghost use Rattle.std.specs.Prelude.{◌≡◌, ◌^◌, ◌<◌, true, false, length, drop};
ghost use Rattle.laws.specs.Quoted.{code};
ghost use Rattle.laws.specs.Texts.{starts};
ghost use Rattle.numbers.specs.Reals.{exponent, one_decimal};
ghost use Rattle.coordinates.specs.Answers.{answered};
ghost use Rattle.coordinates.specs.Inner.{suffixed, told, wanted, Passed};

use crate::runs::{long_run, run};
use crate::scaling::{divided, multiplied, shifted};
use crate::{CoordinateError, no_coordinate};
use digits::{Run, sign_end};
use numbers::is_marker;

// The answer to a decimal whose exponent's marker stands before a place: its digits have the value m, and f of them are of its fraction.
fn exponent(t: &[u8], from: usize, neg: bool, m: u64, f: u64) -> Result<f64, CoordinateError>
    requires { f < 2 ^ 32 }
    ensures { answered result ≡ suffixed t.now neg m f (exponent from (drop from t.now)) }
{
    let down = byte_runs::starts_at(t, from, b'-');
    let start = sign_end(t, from);
    let e = long_run(t, start, 0);
    if e.end == start {
        return no_coordinate(t);
    }
    if e.end == t.len() {
        return shifted(neg, m, down, e.value, f);
    }
    no_coordinate(t)
}

// The answer to a text with a dot after its first digits.
fn dotted(t: &[u8], neg: bool, start: usize, whole: Run) -> Result<f64, CoordinateError>
    requires { Passed t.now neg start whole × (true ≡ starts (code ".") (drop whole.end t.now)) }
    ensures { answered result ≡ told t.now (one_decimal t.now) }
{
    let from = whole.end + 1;
    let all = run(t, from, whole.value);
    if start + 1 == all.end {
        return no_coordinate(t);
    }
    let end = all.end;
    let f = (end - from) as u64;
    if end == t.len() {
        return divided(neg, all.value, f);
    }
    if is_marker(t[end]) {
        return exponent(t, end + 1, neg, all.value, f);
    }
    no_coordinate(t)
}

// The answer to a text without one there. An integer is ASCII, so it need not be asked whether it is UTF-8.
fn undotted(
    t: &[u8],
    neg: bool,
    start: usize,
    whole: Run,
    wholes: bool,
) -> Result<f64, CoordinateError>
    requires { Passed t.now neg start whole × (false ≡ starts (code ".") (drop whole.end t.now)) }
    ensures { answered result ≡ wanted wholes t.now }
{
    let end = whole.end;
    if start == end {
        return no_coordinate(t);
    }
    if end == t.len() {
        if wholes {
            return multiplied(neg, whole.value, 0);
        }
        return Err(CoordinateError::NoCoordinate);
    }
    if is_marker(t[end]) {
        return exponent(t, end + 1, neg, whole.value, 0);
    }
    no_coordinate(t)
}

// The coordinate of a text that is short enough, or, where integers are wanted too, its value.
pub(crate) fn read(t: &[u8], wholes: bool) -> Result<f64, CoordinateError>
    requires { length t.now < 2 ^ 32 }
    ensures { answered result ≡ wanted wholes t.now }
{
    let neg = byte_runs::starts_at(t, 0, b'-');
    let start = sign_end(t, 0);
    let whole = run(t, start, 0);
    if byte_runs::starts_at(t, whole.end, b'.') {
        return dotted(t, neg, start, whole);
    }
    undotted(t, neg, start, whole, wholes)
}
