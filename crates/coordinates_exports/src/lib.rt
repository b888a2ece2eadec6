// What C and Rust call of the crate `coordinates`: the answer is a number, its value and what a refusal comes with go to lent memory.
#![tactic(auto)]

ghost use Rattle.std.specs.Prelude.{◌≡◌};
ghost use Rattle.coordinates.specs.Answers.{answered};
ghost use Rattle.coordinates.specs.Coordinate.{coordinate, record_coordinate};
ghost use Rattle.coordinates.specs.Values.{record_value};
ghost use Rattle.coordinates_exports.specs.Told.{number_of, value_or, place_or};

use coordinates::CoordinateError;
use refusal::{LIMIT_VALUE, NO_COORDINATE, NOT_UTF8, OUT_OF_BOUNDS, SERVED, TOO_LONG};

// A value goes to `value`, what a refusal comes with to `place`; the other keeps what it has. The result is the answer's number.
fn tell(a: Result<f64, CoordinateError>, value: &mut f64, place: &mut u64) -> u32
    ensures { (result ≡ number_of (answered a)) × (value.new ≡ value_or value.old (answered a)) × (place.new ≡ place_or place.old (answered a)) }
{
    match a {
        Ok(x) => {
            *value = x;
            SERVED
        }
        Err(CoordinateError::TooLong) => {
            *place = LIMIT_VALUE;
            TOO_LONG
        }
        Err(CoordinateError::NotUtf8(at)) => {
            *place = at as u64;
            NOT_UTF8
        }
        Err(CoordinateError::NoExtent) => {
            *place = 0;
            OUT_OF_BOUNDS
        }
        Err(CoordinateError::NoCoordinate) => {
            *place = 0;
            NO_COORDINATE
        }
    }
}

// The coordinate of a text: 0 and the value, or the refusal's number and what it comes with.
pub fn mihadrena_coordinate(text: &[u8], value: &mut f64, place: &mut u64) -> u32
    ensures { (result ≡ number_of (coordinate text.now)) × (value.new ≡ value_or value.old (coordinate text.now)) × (place.new ≡ place_or place.old (coordinate text.now)) }
{
    tell(coordinates::coordinate(text), value, place)
}

// The coordinate of a record's extent, by the record's kind and its extent's places, told in the same way.
pub fn mihadrena_record_coordinate(
    source: &[u8],
    kind: u32,
    start: u32,
    end: u32,
    value: &mut f64,
    place: &mut u64,
) -> u32
    ensures { (result ≡ number_of (record_coordinate source.now kind start end)) × (value.new ≡ value_or value.old (record_coordinate source.now kind start end)) × (place.new ≡ place_or place.old (record_coordinate source.now kind start end)) }
{
    tell(
        coordinates::record_coordinate(source, kind, start, end),
        value,
        place,
    )
}

// The value of a record's extent that is a decimal or an integer, told in the same way.
pub fn mihadrena_record_value(
    source: &[u8],
    kind: u32,
    start: u32,
    end: u32,
    value: &mut f64,
    place: &mut u64,
) -> u32
    ensures { (result ≡ number_of (record_value source.now kind start end)) × (value.new ≡ value_or value.old (record_value source.now kind start end)) × (place.new ≡ place_or place.old (record_value source.now kind start end)) }
{
    tell(
        coordinates::record_value(source, kind, start, end),
        value,
        place,
    )
}
