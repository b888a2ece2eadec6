// The calls with the words by value and the buffer lent. None asks anything of its caller.
ghost use Rattle.std.specs.Prelude.{◌≡◌, [], length};
ghost use Rattle.pieces.specs.Calls.{text_after};
ghost use Rattle.pieces_lent.specs.Calls.{lent, said, told_of, piece_for, end_for, open_for};
ghost use Rattle.pieces_lent.specs.Stood.{Stood};

use crate::decoding::{decode, stand};
use crate::encoding::{encode, fresh_words};
use crate::{Told, Words};
use items::modes::{PLAIN, REPORT};
use pieces::{Got, LONGEST, Pieced};
use pieces_calls::calls::{end_call, piece_call, piece_on};
use refusal::{NO_MODE, OUT_OF_BOUNDS};

// An answer with its marks as words.
fn worded(r: Pieced) -> Told
    ensures { result ≡ told_of r }
{
    Told {
        words: encode(r.marks),
        taken: r.taken,
        got: r.got,
    }
}

// A refusal that takes nothing, with these words.
fn refuse(words: Words, number: u32, place: usize) -> Told
    ensures { result ≡ record { words = words; taken = 0; got = Got.Refused number place } }
{
    Told {
        words,
        taken: 0,
        got: Got::Refused(number, place),
    }
}

// Reads on in a piece: takes the fewest bytes of it that make an item ready, or all of them.
pub fn piece_words(words: Words, buf: &mut [u8], piece: &[u8], text: &mut [u8]) -> Told
    ensures { (said result buf.new text.new ≡ piece_for (lent words buf.old) piece.now (length text.old))
        × (text.new ≡ text_after (piece_for (lent words buf.old) piece.now (length text.old)).what text.old) }
{
    match decode(words) {
        Some(marks) => worded(piece_call(marks, buf, piece, text)),
        None => refuse(words, OUT_OF_BOUNDS, 0),
    }
}

// The same where the words are known to be those of a state within its bounds that reads on: they are not held to their code again.
pub fn piece_stood(words: Words, buf: &mut [u8], piece: &[u8], text: &mut [u8]) -> Told
    requires { Stood words buf.old text.old }
    ensures { (said result buf.new text.new ≡ piece_for (lent words buf.old) piece.now (length text.old))
        × (text.new ≡ text_after (piece_for (lent words buf.old) piece.now (length text.old)).what text.old) }
{
    worded(piece_on(stand(words), buf, piece, text))
}

// Declares the end of the text: gives the next item, or says that all were given.
pub fn end_words(words: Words, buf: &mut [u8], text: &mut [u8]) -> Told
    ensures { (said result buf.new text.new ≡ end_for (lent words buf.old) (length text.old))
        × (text.new ≡ text_after (end_for (lent words buf.old) (length text.old)).what text.old) }
{
    match decode(words) {
        Some(marks) => worded(end_call(marks, buf, text)),
        None => refuse(words, OUT_OF_BOUNDS, 0),
    }
}

// The same with the buffer as an array, which is how a state holds it.
pub(crate) fn piece_array(
    words: Words,
    buf: &mut [u8; LONGEST],
    piece: &[u8],
    text: &mut [u8],
) -> Told
    ensures { (said result buf.new text.new ≡ piece_for (lent words buf.old) piece.now (length text.old))
        × (text.new ≡ text_after (piece_for (lent words buf.old) piece.now (length text.old)).what text.old) }
{
    piece_words(words, buf, piece, text)
}

pub(crate) fn end_array(words: Words, buf: &mut [u8; LONGEST], text: &mut [u8]) -> Told
    ensures { (said result buf.new text.new ≡ end_for (lent words buf.old) (length text.old))
        × (text.new ≡ text_after (end_for (lent words buf.old) (length text.old)).what text.old) }
{
    end_words(words, buf, text)
}

// Opens a state, in a mode, with comments kept or skipped; 25 where there is no such mode, with a plain state.
pub fn open_words(mode: u32, skip: bool, buf: &mut [u8]) -> Told
    ensures { said result buf.new [] ≡ open_for mode skip buf.old }
{
    if buf.len() != LONGEST {
        return refuse(fresh_words(PLAIN, skip), OUT_OF_BOUNDS, 0);
    }
    buf.fill(0);
    if REPORT < mode {
        return refuse(fresh_words(PLAIN, skip), NO_MODE, mode as usize);
    }
    Told {
        words: fresh_words(mode, skip),
        taken: 0,
        got: Got::More,
    }
}
