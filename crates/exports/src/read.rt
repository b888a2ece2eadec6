// The whole-text call of the crate `lexer`: its answer as a number and two values.
ghost use Rattle.std.specs.Prelude.{◌≡◌, [], ◌∷◌};
ghost use Rattle.chars.specs.Encode.{lay};
ghost use Rattle.items.specs.Whole.{read_of};
ghost use Rattle.lexer.specs.Answers.{answer_of};
ghost use Rattle.exports.specs.Read.{read_number, read_values};

use exports_values::put_values;
use lexer::{Needed, ReadError};
use refusal::{LIMIT_VALUE, NO_MODE, NOT_UTF8, SERVED, TOO_FEW, TOO_LONG};

// An answer: its number and its two values.
#[derive(Clone, Copy)]
struct NumberAndValues {
    number: u32,
    first: u64,
    second: u64,
}

// An answer of a number and two values.
fn tell(number: u32, first: u64, second: u64) -> NumberAndValues
    ensures { (result.number ≡ number) × (result.first ∷ result.second ∷ [] ≡ first ∷ second ∷ []) }
{
    NumberAndValues {
        number,
        first,
        second,
    }
}

// An answer by its number and its values.
fn answer(a: Result<Needed, ReadError>) -> NumberAndValues
    ensures { (result.number ≡ read_number (answer_of a)) × (result.first ∷ result.second ∷ [] ≡ read_values (answer_of a)) }
{
    match a {
        Ok(done) => tell(SERVED, done.items as u64, done.text as u64),
        Err(ReadError::NoMode(mode)) => tell(NO_MODE, mode as u64, 0),
        Err(ReadError::TooLong) => tell(TOO_LONG, LIMIT_VALUE, 0),
        Err(ReadError::NotUtf8(at)) => tell(NOT_UTF8, at as u64, 0),
        Err(ReadError::NoRoom(needed)) => tell(TOO_FEW, needed.items as u64, needed.text as u64),
    }
}

// Reads a whole text. `mode` is 0 for plain and 1 for report; `skip` leaves comments out. The items' records, ten words each, and
// their decoded texts are written from the front of `records` and `text` on. `values` gets how many items and how many bytes of text
// were written, or the two values of the refusal; where there is no room for both it is left as it was.
pub fn mihadrena_read(
    source: &[u8],
    mode: u32,
    skip: bool,
    records: &mut [u32],
    text: &mut [u8],
    values: &mut [u64],
) -> u32
    ensures value { result ≡ read_number (read_of source.now mode skip records.old text.old).answer }
    ensures values_after { values.new ≡ lay (read_values (read_of source.now mode skip records.old text.old).answer) values.old }
    ensures records_after { records.new ≡ (read_of source.now mode skip records.old text.old).records }
    ensures text_after { text.new ≡ (read_of source.now mode skip records.old text.old).text }
{
    let w = answer(lexer::read(source, mode, skip, records, text));
    put_values(values, w.first, w.second);
    w.number
}
