// The call of the crate `lexer_fields` for programs in C and Rust: its answer as a number and two values.
#![tactic(auto)]

ghost use Rattle.std.specs.Prelude.{◌≡◌};
ghost use Rattle.chars.specs.Encode.{lay};
ghost use Rattle.lexer_fields.specs.Answers.{answer_of};
ghost use Rattle.lexer_fields_exports.specs.Told.{number_in, values_in, left_behind, fields_left};

use exports_values::put_values;
use lexer_fields::{FieldsError, Total};
use refusal::{BAD_ENDS, LIMIT_VALUE, NO_MODE, SERVED, TOO_FEW, TOO_LONG};

// An answer told: its values go to the lent memory, and its number back.
fn tell(a: Result<Total, FieldsError>, values: &mut [u64]) -> u32
    ensures { (result ≡ number_in (answer_of a)) × (values.new ≡ lay (values_in (answer_of a)) values.old) }
{
    match a {
        Ok(done) => {
            put_values(values, done.items as u64, done.text as u64);
            SERVED
        }
        Err(FieldsError::NoMode(mode)) => {
            put_values(values, mode as u64, 0);
            NO_MODE
        }
        Err(FieldsError::BadEnds) => {
            put_values(values, 0, 0);
            BAD_ENDS
        }
        Err(FieldsError::TooLong) => {
            put_values(values, LIMIT_VALUE, 0);
            TOO_LONG
        }
        Err(FieldsError::NoRoom(needed)) => {
            put_values(values, needed.items as u64, needed.text as u64);
            TOO_FEW
        }
    }
}

// Reads each part of a source as a text of its own: part i goes from the end before it, the first from 0, to `ends[i]`. `mode` is 0 for
// plain and 1 for report; `skip` leaves comments out. A row of four words for each part, the items' records and their decoded texts are
// written from the front of `rows`, `records` and `text` on. `values` gets how many items and how many bytes of text were written, or the
// two values of the refusal; where there is no room for both it is left as it was.
pub fn mihadrena_read_fields(
    source: &[u8],
    ends: &[u32],
    mode: u32,
    skip: bool,
    rows: &mut [u32],
    records: &mut [u32],
    text: &mut [u8],
    values: &mut [u64],
) -> u32
    ensures { left_behind result rows.new records.new text.new values.new
        ≡ fields_left source.now ends.now mode skip rows.old records.old text.old values.old }
{
    let a = lexer_fields::read_fields(source, ends, mode, skip, rows, records, text);
    tell(a, values)
}
