// The calls that go from a number back to its name. They write nothing.
ghost use Rattle.std.specs.Prelude.{◌≡◌};
ghost use Rattle.names.specs.Answers.{mark_in};
ghost use Rattle.names.specs.Call.{mark_of, place_of, name_of};

use crate::layout::{HALF_NAMES, HALF_WORDS, in_bounds, nowhere, place_at, word};
use crate::{NameError, Place};

// Numbers lie below this one: those of both halves.
const TABLE_NAMES: u32 = 1024;

// Whether a number has a name, or why not.
pub fn name_mark(words: &[u32], bytes: &[u8], number: u32) -> Result<(), NameError>
    ensures { mark_in result ≡ mark_of words.now bytes.now number }
{
    if !in_bounds(words, bytes) {
        return Err(NameError::OutOfBounds);
    }
    if TABLE_NAMES <= number {
        return Err(NameError::NoName);
    }
    let party = number as usize / HALF_NAMES;
    let k = number as usize % HALF_NAMES;
    let n = word(words, party * HALF_WORDS);
    if n <= k {
        return Err(NameError::NoName);
    }
    Ok(())
}

// Where a number's name lies in `bytes`; 0 and 0 where it has none.
pub fn place_of(words: &[u32], bytes: &[u8], number: u32) -> Place
    ensures { result ≡ place_of words.now bytes.now number }
{
    if name_mark(words, bytes, number).is_err() {
        return nowhere();
    }
    place_at(
        words,
        number as usize / HALF_NAMES,
        number as usize % HALF_NAMES,
    )
}

// A number's name, as a part of the lent bytes; an empty part where it has none.
pub fn name_of<'a>(words: &[u32], bytes: &'a [u8], number: u32) -> &'a [u8]
    ensures { result.now ≡ name_of words.now bytes.now number }
{
    let place = place_of(words, bytes, number);
    let start = place.start;
    let end = place.end;
    &bytes[start..end]
}
