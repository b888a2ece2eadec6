// Writes down what a call gave: the item's record, how many bytes were taken, and its text.
ghost use Rattle.std.specs.Prelude.{◌≡◌};
ghost use Rattle.pieces_calls.specs.Answers.{what_of};
ghost use Rattle.pieces_cuttings.specs.Inner.{unwritten, is_unwritten, Gives};
ghost use Rattle.pieces_cuttings.specs.Notes as notes;

use crate::parts::copy;
use crate::{Ending, MARK_BYTE, Reading};
use items::{RECORD_WORDS, Record};
use meaning::records::put;
use pieces::Got;

// Nothing is read yet.
pub fn unread() -> Reading
    ensures { result ≡ notes.unread }
{
    Reading {
        items: 0,
        bytes: 0,
        taken: 0,
        ending: None,
        kept: true,
    }
}

// Whether a text memory holds the mark alone. No byte ends the loop, so that the compiler tests many at once.
fn marked(text: &[u8]) -> bool
    ensures { result ≡ is_unwritten text.now }
{
    let mut all = true;
    for byte in text {
        all &= *byte == MARK_BYTE;
    }
    all
}

// The reading with an end that should not come: a memory has no room for what was given.
fn broken(before: Reading) -> Reading
    ensures { result ≡ notes.broken before }
{
    Reading {
        ending: Some(Ending::Finished),
        kept: false,
        ..before
    }
}

// Writes an item down.
fn note_item(
    before: Reading,
    r: Record,
    taken: usize,
    text: &[u8],
    records: &mut [u32],
    counts: &mut [usize],
    texts: &mut [u8],
) -> Reading
    requires { Gives (Got.Item r) text.now }
    ensures { notes.notes result records.new counts.new texts.new
        ≡ notes.note (notes.notes before records.old counts.old texts.old) (what_of (Got.Item r) text.now) taken }
{
    let items = before.items;
    let bytes = before.bytes;
    let past = r.nine.past as usize;
    if records.len() / RECORD_WORDS <= items {
        return broken(before);
    }
    if counts.len() <= items {
        return broken(before);
    }
    if text.len() < past {
        return broken(before);
    }
    if texts.len() < bytes {
        return broken(before);
    }
    if texts.len() - bytes < past {
        return broken(before);
    }
    let at = items * RECORD_WORDS;
    put(&mut records[at..], r);
    counts[items] = taken;
    copy(&text[..past], &mut texts[bytes..]);
    Reading {
        items: items + 1,
        bytes: bytes + past,
        taken,
        ending: None,
        kept: before.kept && marked(&text[past..]),
    }
}

// The reading after an answer that gives no item.
fn note_other(before: Reading, ending: Option<Ending>, taken: usize, text: &[u8]) -> Reading
    requires { text.now ≡ unwritten }
    ensures { result ≡ notes.note_other before ending taken }
{
    Reading {
        taken,
        ending,
        kept: before.kept && marked(text),
        ..before
    }
}

// The reading after an answer, when so many bytes were taken in all.
pub fn note(
    before: Reading,
    got: Got,
    taken: usize,
    text: &[u8],
    records: &mut [u32],
    counts: &mut [usize],
    texts: &mut [u8],
) -> Reading
    requires { Gives got text.now }
    ensures { notes.notes result records.new counts.new texts.new
        ≡ notes.note (notes.notes before records.old counts.old texts.old) (what_of got text.now) taken }
{
    match got {
        Got::Item(r) => note_item(before, r, taken, text, records, counts, texts),
        Got::More => note_other(before, None, taken, text),
        Got::Finished => note_other(before, Some(Ending::Finished), taken, text),
        Got::Refused(refusal, place) => {
            note_other(before, Some(Ending::Refused(refusal, place)), taken, text)
        }
    }
}
