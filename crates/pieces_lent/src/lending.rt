// The calls on a state that the caller lends: the buffer is lent on where it lies, and no state is copied.
ghost use Rattle.std.specs.Prelude.{◌≡◌, length};
ghost use Rattle.pieces.specs.Calls.{text_after};
ghost use Rattle.pieces_lent.specs.Calls.{said_of, piece_for, end_for};

use crate::calls::{end_array, piece_array};
use crate::{LentState, Taken};

// Reads on in a piece: takes the fewest bytes of it that make an item ready, or all of them.
pub fn piece_mut(state: &mut LentState, piece: &[u8], text: &mut [u8]) -> Taken
    ensures { (said_of result state.new text.new ≡ piece_for state.old piece.now (length text.old))
        × (text.new ≡ text_after (piece_for state.old piece.now (length text.old)).what text.old) }
{
    let r = piece_array(state.words, &mut state.buf, piece, text);
    state.words = r.words;
    Taken {
        taken: r.taken,
        got: r.got,
    }
}

// Declares the end of the text: gives the next item, or says that all were given.
pub fn end_mut(state: &mut LentState, text: &mut [u8]) -> Taken
    ensures { (said_of result state.new text.new ≡ end_for state.old (length text.old))
        × (text.new ≡ text_after (end_for state.old (length text.old)).what text.old) }
{
    let r = end_array(state.words, &mut state.buf, text);
    state.words = r.words;
    Taken {
        taken: r.taken,
        got: r.got,
    }
}
