// The reader of the crate `lexer` for C and Rust: one item a call, over slices and numbers alone. A position is what a caller keeps as
// READER_WORDS words (docs/STATE.md); a call's answer is a number, an item's record goes to lent words, and so does what a refusal comes
// with. What the calls leave is defined in specs/Reader.
#![tactic(auto)]

ghost use Rattle.std.specs.Prelude.{◌≡◌, List, ℕ, ◌≤◌, length};
ghost use Rattle.items.specs.Items.{record_words};
ghost use Rattle.lexer.specs.Opening.{opening_of};
ghost use Rattle.lexer.specs.Answers.{reply_of};
ghost use Rattle.reader_exports.specs.Words.{reader_words};
ghost use Rattle.reader_exports.specs.Reader.{started, opens, open_left, memory, left, gives, is_room, next_left};

use exports_values::{VALUES, put_values};
use items::RECORD_WORDS;
use lexer::{Given, NextError, OpenError, Position, next_at};
use meaning::records::put;

mod position;

use position::{READER_WORDS, is_position, position_in, put_position};
use refusal::{
    FINISHED, ITEM, LIMIT_VALUE, NO_MODE, NOT_UTF8, OUT_OF_BOUNDS, SERVED, TOO_FEW, TOO_LONG,
};

// How many records one item needs: refusal 22 comes with it.
const ONE_RECORD: u64 = 1;

// Whether there is room for a record and for two values.
fn is_room(item: usize, values: usize) -> bool
    ensures { result ≡ is_room item values }
{
    RECORD_WORDS <= item && VALUES <= values
}

// Passes on what opening answered: the position's words and the two values; answers its number.
fn tell_open(answer: Result<Position, OpenError>, words: &mut [u64], values: &mut [u64]) -> u32
    requires { length words.old ≡ reader_words }
    ensures { started result words.new values.new ≡ opens (opening_of answer) words.old values.old }
{
    match answer {
        Ok(position) => {
            put_position(words, position);
            put_values(values, 0, 0);
            SERVED
        }
        Err(OpenError::NoMode(mode)) => {
            put_values(values, mode as u64, 0);
            NO_MODE
        }
        Err(OpenError::TooLong) => {
            put_values(values, LIMIT_VALUE, 0);
            TOO_LONG
        }
        Err(OpenError::NotUtf8(at)) => {
            put_values(values, at as u64, 0);
            NOT_UTF8
        }
    }
}

// Passes on what the reader answered: the position's words, an item's record, the two values; answers its number.
fn tell_next(
    answer: Result<Option<Given>, NextError>,
    words: &mut [u64],
    item: &mut [u32],
    values: &mut [u64],
) -> u32
    requires { (length words.old ≡ reader_words) × (record_words ≤ length item.old) }
    ensures { (old text : List ℕ) → left result (memory words.new text item.new values.new)
        ≡ gives (memory words.old old item.old values.old) (reply_of answer) text }
{
    match answer {
        Ok(Some(given)) => {
            put_position(words, given.after);
            put(item, given.item);
            put_values(values, 0, 0);
            ITEM
        }
        Ok(None) => {
            put_values(values, 0, 0);
            FINISHED
        }
        Err(NextError::TooLong) => {
            put_values(values, LIMIT_VALUE, 0);
            TOO_LONG
        }
        Err(NextError::NoRoom(bytes)) => {
            put_values(values, ONE_RECORD, bytes as u64);
            TOO_FEW
        }
    }
}

// Opens a source: 0, and `position` gets the words of its start; or document 01's refusals 25, 20 and 21, what they come with first in
// `values`, and before them 27 where `position` has not READER_WORDS words. Refused, `position` stays as it was. `values` gets two words,
// where there is room for both: 0 for what there is not.
pub fn mihadrena_reader_open(
    source: &[u8],
    mode: u32,
    skip: bool,
    position: &mut [u64],
    values: &mut [u64],
) -> u32
    ensures { started result position.new values.new ≡ open_left source.now mode skip position.old values.old }
{
    if position.len() != READER_WORDS {
        put_values(values, 0, 0);
        return OUT_OF_BOUNDS;
    }
    let answer = lexer::open(source, mode, skip);
    tell_open(answer, position, values)
}

// The next item of a source: 10, its record in `item` and its decoded text at the front of `text`, and `position` moves on; 12 once all
// were given. Refused with 22, with 1 and the text bytes needed, or 20, the position stays. Before that 22 with 1 and 0 where `item` or
// `values` are too few, and 27 where the words are no position's: then nothing else is written.
pub fn mihadrena_reader_next(
    source: &[u8],
    position: &mut [u64],
    text: &mut [u8],
    item: &mut [u32],
    values: &mut [u64],
) -> u32
    ensures { left result (memory position.new text.new item.new values.new)
        ≡ next_left source.now (memory position.old text.old item.old values.old) }
{
    if !is_room(item.len(), values.len()) {
        put_values(values, ONE_RECORD, 0);
        return TOO_FEW;
    }
    if !is_position(position) {
        put_values(values, 0, 0);
        return OUT_OF_BOUNDS;
    }
    let answer = next_at(source, position_in(position), text);
    tell_next(answer, position, item, values)
}
