// The hexadecimal digits of an escape (`\x41;`, `\u{41}`) or of a character (`#\x41`).
ghost use Rattle.std.specs.Prelude.{◌≡◌, drop};
ghost use Rattle.digits.specs.Hex.{hex_digits, hex_value};

use crate::{HexError, digit};

// The details of error 11 (document 01, "An item").
const EMPTY: u32 = 1;

const BAD_DIGIT: u32 = 2;

const OVERFLOW: u32 = 3;

const RADIX: u64 = 16;

// The first value that 32 bits do not hold.
const OVERFLOW_FROM: u64 = 0x1_0000_0000;

// The value of the digits from a place on.
fn hex_digits(t: &[u8], from: usize) -> Result<u32, HexError>
    ensures { result ≡ hex_digits from 0 (drop from t.now) }
{
    let mut v: u64 = 0;
    for i in from..t.len() {
        let d = digit(t[i]);
        if RADIX <= d {
            return Err(HexError {
                detail: BAD_DIGIT,
                place: i,
            });
        }
        let next = v * RADIX + d;
        if OVERFLOW_FROM <= next {
            return Err(HexError {
                detail: OVERFLOW,
                place: i,
            });
        }
        v = next;
    }
    Ok(v as u32)
}

// The value of a whole text of digits with at most one `+` before them, or what is wrong with it and where.
pub fn hex_value(t: &[u8]) -> Result<u32, HexError>
    ensures { result ≡ hex_value t.now }
{
    if t.len() == 0 {
        return Err(HexError {
            detail: EMPTY,
            place: 0,
        });
    }
    if t[0] == b'+' {
        if t.len() == 1 {
            return Err(HexError {
                detail: BAD_DIGIT,
                place: 0,
            });
        }
        return hex_digits(t, 1);
    }
    hex_digits(t, 0)
}
