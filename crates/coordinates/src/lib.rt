// Coordinates: a text that is one decimal, as a float of 64 bits, the exact value rounded once (specs/Coordinate says which texts have a
// coordinate, specs/Means and specs/Nearest what it is, over whole numbers). The digits as a whole number up to 2^53 and a power of ten up
// to 10^22 are both exact in a float, so one multiplication or one division rounds once.
#![tactic(auto)]

ghost use Rattle.std.specs.Prelude.{◌≡◌, length, ◌==◌};
ghost use Rattle.laws.specs.Texts.{span};
ghost use Rattle.chars.specs.Utf8.{ascii};
ghost use Rattle.coordinates.specs.Answers.{answered};
ghost use Rattle.coordinates.specs.Coordinate.{outside, judged, coordinate, record_coordinate};

use decimals::read;
use digits::SHORT;
use items::kinds;
use refusal::LIMIT;

mod decimals;
mod runs;
mod scaling;
mod values;

pub use values::{record_value, value};

// Why the calls give no value: specs/Answers gives the number and what comes with it for each case.
#[derive(Clone, Copy)]
pub enum CoordinateError {
    // a text of 4,294,967,296 bytes
    TooLong,
    // the byte FF: the start of the first bad sequence
    NotUtf8(usize),
    // an extent that goes back or passes the source
    NoExtent,
    // 12: no decimal; 1e23, 9007199254740993.: outside
    NoCoordinate,
}

// The last character of ASCII.
const LAST_ASCII: u8 = 0x7F;

// The coordinate of a text. A decimal is ASCII, so its text need not be asked whether it is UTF-8.
pub fn coordinate(t: &[u8]) -> Result<f64, CoordinateError>
    ensures { answered result ≡ coordinate t.now }
{
    if LIMIT < t.len() {
        return Err(CoordinateError::TooLong);
    }
    read(t, false)
}

// Whether a text is ASCII: a byte at a time, for a short one.
fn is_ascii(t: &[u8]) -> bool
    ensures { result ≡ (span ascii t.now == length t.now) }
{
    for &c in t {
        if LAST_ASCII < c {
            return false;
        }
    }
    true
}

// The answer to a text that has none: 20 and 21 go before 28.
fn no_coordinate(t: &[u8]) -> Result<f64, CoordinateError>
    ensures { answered result ≡ judged t.now outside }
{
    if LIMIT < t.len() {
        return Err(CoordinateError::TooLong);
    }
    if t.len() <= SHORT {
        if is_ascii(t) {
            return Err(CoordinateError::NoCoordinate);
        }
    }
    match chars::first_bad(t) {
        None => Err(CoordinateError::NoCoordinate),
        Some(at) => Err(CoordinateError::NotUtf8(at)),
    }
}

// The coordinate of a record's extent in its source, by the record's kind and its extent's places.
pub fn record_coordinate(
    source: &[u8],
    kind: u32,
    start: u32,
    end: u32,
) -> Result<f64, CoordinateError>
    ensures { answered result ≡ record_coordinate source.now kind start end }
{
    let from = start as usize;
    let to = end as usize;
    if to < from {
        return Err(CoordinateError::NoExtent);
    }
    if source.len() < to {
        return Err(CoordinateError::NoExtent);
    }
    let text = &source[from..to];
    if kind == kinds::NUMBER {
        return coordinate(text);
    }
    no_coordinate(text)
}
