// A whole number times or by a power of ten, as a float: both operands are exact, so the one operation is the one rounding.
ghost use Rattle.std.specs.Prelude.{◌≡◌, ◌^◌, ◌<◌, ◌≤◌, pos, ◌-ℤ◌, neg_ℤ};
ghost use Rattle.std.specs.Float.{binary64};
ghost use Rattle.std.specs.Float.Ieee.{round};
ghost use Rattle.digits.specs.Digits.{short, signed};
ghost use Rattle.coordinates.specs.Answers.{answered};
ghost use Rattle.coordinates.specs.Inner.{ten_to, weighed};

use crate::CoordinateError;
use crate::runs::MOST_EXACT;

// The largest power of ten that a float has exactly is 10^22.
const MOST_SCALE: u64 = 22;

// A power of ten, by a table: each is exact.
fn power(k: u64) -> f64
    requires { k ≤ 22 }
    ensures { result ≡ ten_to k }
{
    match k {
        0 => 1e0,
        1 => 1e1,
        2 => 1e2,
        3 => 1e3,
        4 => 1e4,
        5 => 1e5,
        6 => 1e6,
        7 => 1e7,
        8 => 1e8,
        9 => 1e9,
        10 => 1e10,
        11 => 1e11,
        12 => 1e12,
        13 => 1e13,
        14 => 1e14,
        15 => 1e15,
        16 => 1e16,
        17 => 1e17,
        18 => 1e18,
        19 => 1e19,
        20 => 1e20,
        21 => 1e21,
        22 => 1e22,
        _ => 1e0,
    }
}

// A whole number with its sign, exact up to 2^53. Zero keeps its sign too.
fn float(neg: bool, m: u64) -> f64
    requires { m ≤ 2 ^ 53 }
    ensures { result ≡ round binary64 neg m 1 }
{
    let x = m as f64;
    if neg {
        return -x;
    }
    x
}

// m times 10^k.
pub(crate) fn multiplied(neg: bool, m: u64, k: u64) -> Result<f64, CoordinateError>
    ensures { answered result ≡ weighed neg m (pos k) }
{
    if MOST_EXACT < m {
        return Err(CoordinateError::NoCoordinate);
    }
    if MOST_SCALE < k {
        return Err(CoordinateError::NoCoordinate);
    }
    Ok(float(neg, m) * power(k))
}

// m by 10^k.
pub(crate) fn divided(neg: bool, m: u64, k: u64) -> Result<f64, CoordinateError>
    ensures { answered result ≡ weighed neg m (neg_ℤ (pos k)) }
{
    if MOST_EXACT < m {
        return Err(CoordinateError::NoCoordinate);
    }
    if MOST_SCALE < k {
        return Err(CoordinateError::NoCoordinate);
    }
    Ok(float(neg, m) / power(k))
}

// m with the exponent e (down: its sign is minus) and f fraction digits.
pub(crate) fn shifted(neg: bool, m: u64, down: bool, e: u64, f: u64) -> Result<f64, CoordinateError>
    requires { (e < 10 ^ short) × (f < 2 ^ 32) }
    ensures { answered result ≡ weighed neg m (signed down e -ℤ pos f) }
{
    if down {
        return divided(neg, m, e + f);
    }
    if e < f {
        return divided(neg, m, f - e);
    }
    multiplied(neg, m, e - f)
}
