// The piece calls of the crate `pieces_lent`, over slices and numbers alone, which is all that C and Rust pass. A state is what a caller lends as
// STATE_BYTES bytes and STATE_WORDS words (docs/STATE.md); what a call gives is a number, an item's record goes to lent words, and so do
// what a refusal comes with and the count of bytes taken.
ghost use Rattle.std.specs.Prelude.{◌≡◌, true, List, ℕ, ◌≤◌, length, drop};
ghost use Rattle.laws.specs.Lent.{written};
ghost use Rattle.items.specs.Items.{record_words};
ghost use Rattle.pieces.specs.Calls.{text_after};
ghost use Rattle.pieces.specs.Expected.{longest};
ghost use Rattle.pieces_calls.specs.Answers.{what_of};
ghost use Rattle.pieces_lent.specs.Stood.{Stood};
ghost use Rattle.pieces_lent.specs.Calls.{lent, said, piece_for, end_for};
ghost use Rattle.pieces_quick.specs.Words.{Ready};
ghost use Rattle.pieces_quick.specs.Gives.{later};
ghost use Rattle.pieces_last.specs.Ends.{Closing};
ghost use Rattle.exports.specs.Piece.{listed, words_in, state_words, is_a_state, opened, start_number, open_left, left, gives, what_number, what_place, record_after, is_room, piece_left, end_left, memory};

use crate::quick::{put_spot, tell_finished, tell_item, tell_last, tell_more};
use exports_values::{VALUES, put_values};
use items::RECORD_WORDS;
use meaning::records::put;
use pieces::{Got, LONGEST};
use pieces_last::{Last, end_quickly, is_closing};
use pieces_lent::calls::{end_words, open_words};
use pieces_lent::{Told, Words};
use pieces_quick::{Reached, is_served, plainly, quickly};
use refusal::{FINISHED, ITEM, MORE, OUT_OF_BOUNDS, SERVED, TOO_FEW};

// What a state has: the bytes of an item, and its words.
const STATE_BYTES: usize = LONGEST;

const STATE_WORDS: usize = 19;

// How many records one item needs: refusal 22 comes with it.
const ONE_RECORD: u64 = 1;

// Whether there are as many bytes and words as a state has.
fn is_state(bytes: usize, words: usize) -> bool
    ensures { result ≡ is_a_state bytes words }
{
    bytes == STATE_BYTES && words == STATE_WORDS
}

// Whether there is room for a record and for two values.
fn is_room(item: usize, values: usize) -> bool
    ensures { result ≡ is_room item values }
{
    RECORD_WORDS <= item && VALUES <= values
}

// The words of a state.
fn words_in(words: &[u64]) -> Words
    requires { length words.now ≡ state_words }
    ensures { result ≡ words_in words.now }
{
    Words {
        mode: words[0],
        skip: words[1],
        ended: words[2],
        stage: words[3],
        start: words[4],
        which: words[5],
        detail: words[6],
        one: words[7],
        two: words[8],
        at: words[9],
        count: words[10],
        need: words[11],
        low: words[12],
        high: words[13],
        code: words[14],
        from: words[15],
        to: words[16],
        len: words[17],
        depth: words[18],
    }
}

// Writes a state's words.
fn put_words(words: &mut [u64], w: Words)
    requires { length words.old ≡ state_words }
    ensures { words.new ≡ written (listed w) words.old }
{
    words[0] = w.mode;
    words[1] = w.skip;
    words[2] = w.ended;
    words[3] = w.stage;
    words[4] = w.start;
    words[5] = w.which;
    words[6] = w.detail;
    words[7] = w.one;
    words[8] = w.two;
    words[9] = w.at;
    words[10] = w.count;
    words[11] = w.need;
    words[12] = w.low;
    words[13] = w.high;
    words[14] = w.code;
    words[15] = w.from;
    words[16] = w.to;
    words[17] = w.len;
    words[18] = w.depth;
}

// What opening answers.
fn start_number(got: Got) -> u32
    ensures { (text : List ℕ) → result ≡ start_number (what_of got text) }
{
    match got {
        Got::Item(_record) => SERVED,
        Got::More => SERVED,
        Got::Finished => SERVED,
        Got::Refused(number, _place) => number,
    }
}

// What is given, as a number.
fn number(got: Got) -> u32
    ensures { (text : List ℕ) → result ≡ what_number (what_of got text) }
{
    match got {
        Got::Item(_record) => ITEM,
        Got::More => MORE,
        Got::Finished => FINISHED,
        Got::Refused(number, _place) => number,
    }
}

// A refusal's place.
fn place(got: Got) -> u64
    ensures { (text : List ℕ) → result ≡ what_place (what_of got text) }
{
    match got {
        Got::Item(_record) => 0,
        Got::More => 0,
        Got::Finished => 0,
        Got::Refused(_number, place) => place as u64,
    }
}

// Writes the record of an item.
fn put_item(item: &mut [u32], got: Got)
    requires { record_words ≤ length item.old }
    ensures { (text : List ℕ) → item.new ≡ record_after (what_of got text) item.old }
{
    match got {
        Got::Item(record) => put(item, record),
        Got::More => (),
        Got::Finished => (),
        Got::Refused(_number, _place) => (),
    }
}

// Passes on what a call of `pieces_lent` told: the state's words, an item's record, the two values; answers what is given, as a number.
fn tell(told: Told, words: &mut [u64], item: &mut [u32], values: &mut [u64]) -> u32
    requires { (length words.old ≡ state_words) × (record_words ≤ length item.old) }
    ensures { (buf text old : List ℕ) → left result (memory buf words.new (text_after (what_of told.got text) old) item.new values.new)
        ≡ gives (memory buf words.old old item.old values.old) (said told buf text) }
{
    put_words(words, told.words);
    put_item(item, told.got);
    put_values(values, place(told.got), told.taken as u64);
    number(told.got)
}

// Opens a state, written to `buf` and `words`: `mode` is 0 for plain and 1 for report; `skip` leaves comments out. A mode that is none is
// refused with 25, and the state is a plain one. OUT_OF_BOUNDS if these are not the bytes and words of a state; then nothing is written.
pub fn open(mode: u32, skip: bool, buf: &mut [u8], words: &mut [u64]) -> u32
    ensures { opened result buf.new words.new ≡ open_left mode skip buf.old words.old }
{
    if !is_state(buf.len(), words.len()) {
        return OUT_OF_BOUNDS;
    }
    let told = open_words(mode, skip, buf);
    put_words(words, told.words);
    start_number(told.got)
}

// Reads on in a piece from a place on as the crate `pieces_lent` does; words that are known to be those of a state that reads on are not held to
// their bounds again. The piece is lent anew: so it need not lie in memory where this is called.
fn read_plainly(
    buf: &mut [u8],
    words: &mut [u64],
    piece: &[u8],
    from: usize,
    known: bool,
    text: &mut [u8],
    item: &mut [u32],
    values: &mut [u64],
) -> u32
    requires { (length words.old ≡ state_words) × (record_words ≤ length item.old) × (from ≤ length piece.now)
        × (known ≡ true → Stood (words_in words.old) buf.old text.old) }
    ensures { left result (memory buf.new words.new text.new item.new values.new)
        ≡ gives (memory buf.old words.old text.old item.old values.old)
        (later from (piece_for (lent (words_in words.old) buf.old) (drop from piece.now) (length text.old))) }
{
    let told = plainly(words_in(words), buf, &piece[..], from, known, text);
    tell(told, words, item, values)
}

// Reads on in a piece from a state that the quick path knows: what it tells goes straight to where it belongs. Where it stops short its spot
// does, and the crate `pieces_lent` goes on from there.
fn read_on(
    state: Words,
    buf: &mut [u8],
    words: &mut [u64],
    piece: &[u8],
    text: &mut [u8],
    item: &mut [u32],
    values: &mut [u64],
) -> u32
    requires { (length words.old ≡ state_words) × (record_words ≤ length item.old) × (state ≡ words_in words.old)
        × (length buf.old ≡ longest) × (longest ≤ length text.old) × Ready state (length piece.now) }
    ensures { left result (memory buf.new words.new text.new item.new values.new)
        ≡ gives (memory buf.old words.old text.old item.old values.old)
        (piece_for (lent state buf.old) piece.now (length text.old)) }
{
    match quickly(state, buf, piece, text) {
        Reached::More(s) => tell_more(s, state.depth, words, values),
        Reached::Item(told) => tell_item(told, words, item, values),
        Reached::Before(s) => {
            put_spot(words, s, state.depth);
            read_plainly(buf, words, piece, s.i, true, text, item, values)
        }
    }
}

// Reads on in a piece: takes the fewest bytes of it that make an item ready, or all of them. `values` gets what a refusal comes with, or
// 0, and how many bytes were taken. An item's record goes to `item`, its text to the front of `text`; nothing else is written there.
// TOO_FEW with ONE_RECORD and 0 if `item` or `values` are too few, and OUT_OF_BOUNDS if these are not the bytes and words of a state: then
// nothing else is written.
pub fn piece(
    buf: &mut [u8],
    words: &mut [u64],
    piece: &[u8],
    text: &mut [u8],
    item: &mut [u32],
    values: &mut [u64],
) -> u32
    ensures { left result (memory buf.new words.new text.new item.new values.new)
        ≡ piece_left (memory buf.old words.old text.old item.old values.old) piece.now }
{
    if !is_room(item.len(), values.len()) {
        put_values(values, ONE_RECORD, 0);
        return TOO_FEW;
    }
    if !is_state(buf.len(), words.len()) {
        put_values(values, 0, 0);
        return OUT_OF_BOUNDS;
    }
    let state = words_in(words);
    if is_served(state, buf.len(), text.len(), piece.len()) {
        return read_on(state, buf, words, piece, text, item, values);
    }
    read_plainly(buf, words, piece, 0, false, text, item, values)
}

// Declares the end of the text as the crate `pieces_lent` does.
fn end_plainly(
    buf: &mut [u8],
    words: &mut [u64],
    text: &mut [u8],
    item: &mut [u32],
    values: &mut [u64],
) -> u32
    requires { (length words.old ≡ state_words) × (record_words ≤ length item.old) }
    ensures { left result (memory buf.new words.new text.new item.new values.new)
        ≡ gives (memory buf.old words.old text.old item.old values.old)
        (end_for (lent (words_in words.old) buf.old) (length text.old)) }
{
    let told = end_words(words_in(words), buf, text);
    tell(told, words, item, values)
}

// Declares the end of the text in a state whose end the quick path knows: what it tells goes straight to where it belongs. What it does not
// tell the crate `pieces_lent` does.
fn end_on(
    state: Words,
    buf: &mut [u8],
    words: &mut [u64],
    text: &mut [u8],
    item: &mut [u32],
    values: &mut [u64],
) -> u32
    requires { (length words.old ≡ state_words) × (record_words ≤ length item.old) × (state ≡ words_in words.old)
        × (length buf.old ≡ longest) × (longest ≤ length text.old) × Closing state }
    ensures { left result (memory buf.new words.new text.new item.new values.new)
        ≡ gives (memory buf.old words.old text.old item.old values.old)
        (end_for (lent state buf.old) (length text.old)) }
{
    match end_quickly(state, buf, text) {
        Some(Last::Item(depth, record)) => tell_last(depth, record, words, item, values),
        Some(Last::Finished) => tell_finished(words, values),
        None => end_plainly(buf, words, text, item, values),
    }
}

// Declares the end of the text: gives the next item, or says that all were given. It writes as a piece call does.
pub fn end(
    buf: &mut [u8],
    words: &mut [u64],
    text: &mut [u8],
    item: &mut [u32],
    values: &mut [u64],
) -> u32
    ensures { left result (memory buf.new words.new text.new item.new values.new)
        ≡ end_left (memory buf.old words.old text.old item.old values.old) }
{
    if !is_room(item.len(), values.len()) {
        put_values(values, ONE_RECORD, 0);
        return TOO_FEW;
    }
    if !is_state(buf.len(), words.len()) {
        put_values(values, 0, 0);
        return OUT_OF_BOUNDS;
    }
    let state = words_in(words);
    if is_closing(state, buf.len(), text.len()) {
        return end_on(state, buf, words, text, item, values);
    }
    end_plainly(buf, words, text, item, values)
}
