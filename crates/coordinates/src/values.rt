// The value of a number that is a decimal or an integer: coordinates such as 6892014 are written without a dot.
ghost use Rattle.std.specs.Prelude.{◌≡◌};
ghost use Rattle.coordinates.specs.Answers.{answered};
ghost use Rattle.coordinates.specs.Values.{value, record_value};

use crate::decimals::read;
use crate::{CoordinateError, record_coordinate};
use items::kinds;
use refusal::LIMIT;

// The value of a text that is one decimal or one integer.
pub fn value(t: &[u8]) -> Result<f64, CoordinateError>
    ensures { answered result ≡ value t.now }
{
    if LIMIT < t.len() {
        return Err(CoordinateError::TooLong);
    }
    read(t, true)
}

// The value of a record's extent in its source, by the record's kind and its extent's places.
pub fn record_value(source: &[u8], kind: u32, start: u32, end: u32) -> Result<f64, CoordinateError>
    ensures { answered result ≡ record_value source.now kind start end }
{
    let from = start as usize;
    let to = end as usize;
    if to < from {
        return Err(CoordinateError::NoExtent);
    }
    if source.len() < to {
        return Err(CoordinateError::NoExtent);
    }
    if kind == kinds::NUMBER {
        return value(&source[from..to]);
    }
    record_coordinate(source, kind, start, end)
}
