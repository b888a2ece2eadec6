// Hands a text over, piece by piece as its cutting says, and declares its end.
ghost use Rattle.std.specs.Prelude.{◌≡◌, ◌+◌, ◌%◌, ◌^◌, length};
ghost use Rattle.pieces_calls.specs.Answers.{what_of};
ghost use Rattle.pieces_cuttings.specs.Inner.{Gives};
ghost use Rattle.pieces_cuttings.specs.Notes as notes;

use crate::noting::{note, unread};
use crate::parts::part;
use crate::{Cutting, MARK_BYTE, Reading, ReadingAndState};
use pieces::Got;
use pieces_calls::calls::{end, piece};
use pieces_calls::opening::open;

// How many bytes of text memory each call is lent: more than it may use.
const TEXT: usize = 4100;

// More calls than any reading makes: each loop ends, whatever the calls give.
const MOST_CALLS: u64 = 1_000_000;

// What a call answered, written down. The state that it answered, which is large, is not handed on.
fn noted(
    before: Reading,
    got: Got,
    taken: usize,
    text: &[u8],
    records: &mut [u32],
    counts: &mut [usize],
    texts: &mut [u8],
) -> Reading
    requires { Gives got text.now }
    ensures { notes.notes result records.new counts.new texts.new
        ≡ notes.note (notes.notes before records.old counts.old texts.old) (what_of got text.now)
        ((before.taken + taken) % 2 ^ 64) }
{
    let all = std::num::wrapping_add_usize(before.taken, taken);
    note(before, got, all, text, records, counts, texts)
}

// One piece call: the bytes of the text that were not taken yet, up to a place.
fn call_piece(
    stand: ReadingAndState,
    source: &[u8],
    to: usize,
    records: &mut [u32],
    counts: &mut [usize],
    texts: &mut [u8],
) -> ReadingAndState
    ensures { notes.standing result records.new counts.new texts.new
        ≡ notes.piece_noted source.now to (notes.standing stand records.old counts.old texts.old) }
{
    let mut text = [MARK_BYTE; TEXT];
    let before = stand.reading;
    let answer = piece(stand.state, part(source, before.taken, to), &mut text);
    let reading = noted(
        before,
        answer.got,
        answer.taken,
        &text,
        records,
        counts,
        texts,
    );
    ReadingAndState {
        state: answer.state,
        reading,
    }
}

// One end call.
fn call_end(
    stand: ReadingAndState,
    records: &mut [u32],
    counts: &mut [usize],
    texts: &mut [u8],
) -> ReadingAndState
    ensures { notes.standing result records.new counts.new texts.new
        ≡ notes.end_noted (notes.standing stand records.old counts.old texts.old) }
{
    let mut text = [MARK_BYTE; TEXT];
    let answer = end(stand.state, &mut text);
    let reading = noted(
        stand.reading,
        answer.got,
        answer.taken,
        &text,
        records,
        counts,
        texts,
    );
    ReadingAndState {
        state: answer.state,
        reading,
    }
}

// Hands over the bytes up to a place, until all of them are taken; an empty piece once.
fn hand_over(
    stand: ReadingAndState,
    source: &[u8],
    to: usize,
    records: &mut [u32],
    counts: &mut [usize],
    texts: &mut [u8],
) -> ReadingAndState
    ensures { notes.standing result records.new counts.new texts.new
        ≡ notes.hand_over source.now to notes.most (notes.standing stand records.old counts.old texts.old) }
{
    let mut now = stand;
    for _ in 0..MOST_CALLS {
        now = call_piece(now, source, to, records, counts, texts);
        if now.reading.ending.is_some() {
            return now;
        }
        if to <= now.reading.taken {
            return now;
        }
    }
    now
}

// The place where a piece of so many bytes ends.
fn piece_end(source: &[u8], from: usize, size: usize) -> usize
    ensures { result ≡ notes.piece_end (length source.now) from size }
{
    if source.len() < from {
        return from;
    }
    if source.len() - from < size {
        return source.len();
    }
    from + size
}

// How many bytes the piece after one of `size` bytes has.
fn next_size(cutting: Cutting, size: usize) -> usize
    ensures { result ≡ notes.next_size cutting size }
{
    if size < cutting.low {
        return cutting.low;
    }
    if size < cutting.high {
        return size + 1;
    }
    cutting.low
}

// Hands over the whole text, piece by piece.
fn hand_all(
    stand: ReadingAndState,
    source: &[u8],
    cutting: Cutting,
    records: &mut [u32],
    counts: &mut [usize],
    texts: &mut [u8],
) -> ReadingAndState
    ensures { notes.standing result records.new counts.new texts.new
        ≡ notes.hand_all source.now cutting notes.most cutting.first (notes.standing stand records.old counts.old texts.old) }
{
    let mut now = stand;
    let mut size = cutting.first;
    for _ in 0..MOST_CALLS {
        if now.reading.ending.is_some() {
            return now;
        }
        if source.len() <= now.reading.taken {
            return now;
        }
        let to = piece_end(source, now.reading.taken, size);
        now = hand_over(now, source, to, records, counts, texts);
        size = next_size(cutting, size);
    }
    now
}

// Declares the end, until all items are given.
fn hand_end(
    stand: ReadingAndState,
    records: &mut [u32],
    counts: &mut [usize],
    texts: &mut [u8],
) -> ReadingAndState
    ensures { notes.standing result records.new counts.new texts.new
        ≡ notes.hand_end notes.most (notes.standing stand records.old counts.old texts.old) }
{
    let mut now = stand;
    for _ in 0..MOST_CALLS {
        if now.reading.ending.is_some() {
            return now;
        }
        now = call_end(now, records, counts, texts);
    }
    now
}

// Reads a text in pieces to its end or to a refusal. Writes down the records of the items, how many bytes were taken when each was given,
// and their texts, one after the other.
pub fn read(
    source: &[u8],
    cutting: Cutting,
    mode: u32,
    skip: bool,
    records: &mut [u32],
    counts: &mut [usize],
    texts: &mut [u8],
) -> Reading
    ensures { notes.notes result records.new counts.new texts.new
        ≡ notes.read_of source.now cutting mode skip records.old counts.old texts.old }
{
    let opened = open(mode, skip);
    let first = ReadingAndState {
        state: opened.state,
        reading: unread(),
    };
    let handed = hand_all(first, source, cutting, records, counts, texts);
    let last = hand_end(handed, records, counts, texts);
    last.reading
}
