// The calls of the crate `items_files` for programs in C and Rust: each answer as a number and one value.
#![tactic(auto)]

ghost use Rattle.std.specs.Prelude.{◌≡◌, [], ◌∷◌};
ghost use Rattle.chars.specs.Encode.{lay};
ghost use Rattle.items_files.specs.Answers.{wrote, got};
ghost use Rattle.items_files.specs.Write.{write_of};
ghost use Rattle.items_files.specs.Read.{read_of};
ghost use Rattle.items_files_exports.specs.Told.{number_of, value_of};

use exports_values::{NumberAndValue, put_value};
use items_files::{LoadError, StoreError};
use refusal::{CUT_SHORT, GOES_BACK, OVER_SUM, SERVED, TOO_FEW, WRONG_NUMBER};

// An answer of a number and a value.
fn tell(number: u32, value: usize) -> NumberAndValue
    ensures { (result.number ≡ number) × (result.value ≡ value) }
{
    NumberAndValue {
        number,
        value: value as u64,
    }
}

// The writer's answer by its number and its value.
fn tell_write(a: Result<usize, StoreError>) -> NumberAndValue
    ensures { (result.number ≡ number_of (wrote a)) × (result.value ≡ value_of (wrote a)) }
{
    match a {
        Ok(bytes) => tell(SERVED, bytes),
        Err(StoreError::Back(record)) => tell(GOES_BACK, record),
        Err(StoreError::TooFew(bytes)) => tell(TOO_FEW, bytes),
    }
}

// The reader's answer by its number and its value.
fn tell_read(a: Result<usize, LoadError>) -> NumberAndValue
    ensures { (result.number ≡ number_of (got a)) × (result.value ≡ value_of (got a)) }
{
    match a {
        Ok(items) => tell(SERVED, items),
        Err(LoadError::Cut(number)) => tell(CUT_SHORT, number),
        Err(LoadError::Wrong(number)) => tell(WRONG_NUMBER, number),
        Err(LoadError::Over(number)) => tell(OVER_SUM, number),
        Err(LoadError::TooFew(items)) => tell(TOO_FEW, items),
    }
}

// Gives an answer to C: its value to the front of `values`, where there is room for it, and its number.
fn give(told: NumberAndValue, values: &mut [u64]) -> u32
    ensures number { result ≡ told.number }
    ensures value { values.new ≡ lay (told.value ∷ []) values.old }
{
    put_value(values, told.value);
    told.number
}

// Stores the records as an item file, from the front of `out` on. `values` gets how many bytes it has, or what the refusal comes with;
// where there is no room for it, it is left as it was.
pub fn mihadrena_items_write(records: &[u32], out: &mut [u8], values: &mut [u64]) -> u32
    ensures value { result ≡ number_of (write_of records.now out.old).answer }
    ensures values_after { values.new ≡ lay (value_of (write_of records.now out.old).answer ∷ []) values.old }
    ensures out_after { out.new ≡ (write_of records.now out.old).memory }
{
    give(tell_write(items_files::write(records, out)), values)
}

// Reads an item file into records, from the front of `records` on. `values` gets how many items it has, or what the refusal comes with.
pub fn mihadrena_items_read(file: &[u8], records: &mut [u32], values: &mut [u64]) -> u32
    ensures value { result ≡ number_of (read_of file.now records.old).answer }
    ensures values_after { values.new ≡ lay (value_of (read_of file.now records.old).answer ∷ []) values.old }
    ensures records_after { records.new ≡ (read_of file.now records.old).memory }
{
    give(tell_read(items_files::read(file, records)), values)
}
