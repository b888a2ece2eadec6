// The call of the crate `items_writing` for programs in C and Rust: its answer as a number and one value.
#![tactic(auto)]

ghost use Rattle.std.specs.Prelude.{◌≡◌};
ghost use Rattle.items_writing.specs.Call.{write_of, answered};
ghost use Rattle.items_writing_exports.specs.Write.{number_of, value_of, sees, seen};

use exports_values::{NumberAndValue, put_value};
use items_writing::WriteError;
use refusal::{ALIEN, LIMIT_VALUE, SERVED, TOO_FEW, TOO_LONG, UNWRITTEN};

// An answer of a number and a value.
fn tell(number: u32, value: u64) -> NumberAndValue
    ensures { (result.number ≡ number) × (result.value ≡ value) }
{
    NumberAndValue { number, value }
}

// An answer by its number and its value.
fn answer(a: Result<usize, WriteError>) -> NumberAndValue
    ensures { (result.number ≡ number_of (answered a)) × (result.value ≡ value_of (answered a)) }
{
    match a {
        Ok(bytes) => tell(SERVED, bytes as u64),
        Err(WriteError::Alien(record)) => tell(ALIEN, record as u64),
        Err(WriteError::Unwritten(record)) => tell(UNWRITTEN, record as u64),
        Err(WriteError::TooLong) => tell(TOO_LONG, LIMIT_VALUE),
        Err(WriteError::NoRoom(bytes)) => tell(TOO_FEW, bytes as u64),
    }
}

// Writes the text of records, from the front of `out` on; `text` is the text memory that they name. `values` gets how many bytes it has, or
// what the refusal comes with; where there is no room for it, it is left as it was.
pub fn mihadrena_write<'a>(
    records: &[u32],
    source: &'a [u8],
    text: &'a [u8],
    out: &mut [u8],
    values: &mut [u64],
) -> u32
    ensures { sees result values.new out.new ≡ seen (write_of records.now source.now text.now out.old) values.old }
{
    let w = answer(items_writing::write(records, source, text, out));
    put_value(values, w.value);
    w.number
}
