// Item files: a list of records as numbers in groups of seven bits, and back (02 (x)). specs/Layout says which numbers an item has,
// specs/Groups how a number is stored, specs/Write and specs/Read what the two calls answer and write.
#![tactic(auto)]

ghost use Rattle.std.specs.Prelude.{◌≡◌};
ghost use Rattle.items_files.specs.Answers.{wrote, got, outcome};
ghost use Rattle.items_files.specs.Write.{write_of};
ghost use Rattle.items_files.specs.Read.{read_of};

use items::{RECORD_WORDS, Record};

mod glance;
mod layout;
mod loading;
mod storing;

// What lies before a word: which of its record's words it is, the word before it, and the start of the item last stored.
#[derive(Clone, Copy)]
pub struct Before {
    pub which: u32,
    pub last: u32,
    pub start: u32,
}

// A number of a file, with the place after it.
#[derive(Clone, Copy)]
pub struct Number {
    pub value: u32,
    pub next: usize,
}

// Why no number stands at a place of a file.
#[derive(Clone, Copy)]
pub enum NumberFault {
    // it is longer than needed, over 32 bits or goes on after its fifth group
    Wrong,
    // the file's end cuts it short
    Cut,
}

// A light item, as nearly all are: the starts of its place and of its text are brief and its other numbers have one group each. With it
// the place after it.
#[derive(Clone, Copy)]
pub struct Light {
    pub record: Record,
    pub next: usize,
}

// What the writer refuses: specs/Answers gives the number and what comes with it for each case.
#[derive(Clone, Copy)]
pub enum StoreError {
    // 32, with the first record that goes back
    Back(usize),
    // 22, with the bytes needed
    TooFew(usize),
}

// What the reader refuses.
#[derive(Clone, Copy)]
pub enum LoadError {
    // 29, 30 and 31, with the first number of the file that fails: cut short, wrong in itself, or of a word over 32 bits
    Cut(usize),
    Wrong(usize),
    Over(usize),
    // 22, with the items needed
    TooFew(usize),
}

// Stores the records as an item file: the bytes written.
pub fn write(records: &[u32], out: &mut [u8]) -> Result<usize, StoreError>
    ensures { outcome (wrote result) out.new ≡ write_of records.now out.old }
{
    let n = records.len() / RECORD_WORDS * RECORD_WORDS;
    let words = &records[..n];
    let bytes = storing::measure(words)?;
    if out.len() < bytes {
        return Err(StoreError::TooFew(bytes));
    }
    storing::put_words(words, out);
    Ok(bytes)
}

// Reads an item file into records: the items read.
pub fn read(file: &[u8], records: &mut [u32]) -> Result<usize, LoadError>
    ensures { outcome (got result) records.new ≡ read_of file.now records.old }
{
    let words = loading::scan(file)?;
    let items = words / RECORD_WORDS;
    if records.len() / RECORD_WORDS < items {
        return Err(LoadError::TooFew(items));
    }
    loading::fill(file, records);
    Ok(items)
}
