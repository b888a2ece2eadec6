// The value of a run of decimal digits, in one pass with its end: exact in a short text, else counted no further than just past 2^53.
ghost use Rattle.std.specs.Prelude.{◌≡◌, ◌+◌, ◌^◌, ◌<◌, ◌≤◌, length, drop};
ghost use Rattle.digits.specs.Digits.{digits, run_value, short};
ghost use Rattle.coordinates.specs.Inner.{capped, Held};

use digits::{DECIMAL_RADIX, Run, SHORT};
use std::num::wrapping_sub_u64;

// The digit 0 as a character, and the largest digit.
const ZERO: u64 = b'0' as u64;

const LAST_DIGIT: u64 = 9;

// The largest whole number up to which a float has every one: 2^53.
pub(crate) const MOST_EXACT: u64 = 9_007_199_254_740_992;

// What stands for every larger one.
const BEYOND: u64 = 9_007_199_254_740_993;

// A whole number up to 2^53; one number for all past it.
fn capped(v: u64) -> u64
    ensures { result ≡ capped v }
{
    if MOST_EXACT < v {
        return BEYOND;
    }
    v
}

// The run of decimal digits from a place on in a text of any length, after digits of the value before.
pub(crate) fn long_run(t: &[u8], from: usize, before: u64) -> Run
    requires { Held before from }
    ensures { (result.end ≡ from + digits 10 (drop from t.now)) × (capped result.value ≡ capped (run_value before (drop from t.now))) × Held result.value result.end }
{
    let mut v = before;
    let mut i = from;
    while i < t.len() {
        let c = t[i];
        if chars::between(b'0', b'9', c) {
            v = capped(v * DECIMAL_RADIX + (c - b'0') as u64);
            i += 1;
        } else {
            return Run { end: i, value: v };
        }
    }
    Run { end: i, value: v }
}

// The run of decimal digits from a place on in a short text, after digits of the value before that stand before the place. As
// `digits::decimal_run`, with a byte's digit by one difference and one test.
fn short_run(t: &[u8], from: usize, before: u64) -> Run
    requires { (length t.now ≤ short) × (before < 10 ^ from) }
    ensures { (result.end ≡ from + digits 10 (drop from t.now)) × (result.value ≡ run_value before (drop from t.now)) × (result.value < 10 ^ result.end) }
{
    let mut v = before;
    let mut i = from;
    while i < t.len() {
        let d = wrapping_sub_u64(t[i] as u64, ZERO);
        if LAST_DIGIT < d {
            return Run { end: i, value: v };
        }
        v = v * DECIMAL_RADIX + d;
        i += 1;
    }
    Run { end: i, value: v }
}

// The same, without the test at each digit where the text is short.
pub(crate) fn run(t: &[u8], from: usize, before: u64) -> Run
    requires { Held before from }
    ensures { (result.end ≡ from + digits 10 (drop from t.now)) × (capped result.value ≡ capped (run_value before (drop from t.now))) × Held result.value result.end }
{
    if SHORT < t.len() {
        return long_run(t, from, before);
    }
    short_run(t, from, before)
}
