// The piece calls on a state of crate `pieces` that the caller lends: document 01, "The piece state is lent and updated where the caller keeps
// it", in the form that it names, a thin layer over the by-value step: the state is taken by `&mut`, the step is called, and the new state is
// stored. Each call copies the state twice; `pieces_lent::lending` has the quick calls on a state of numbers, and proofs/ shows that both do the same.
#![tactic(auto)]

ghost use Rattle.std.specs.Prelude.{◌≡◌, length};
ghost use Rattle.pieces.specs.Calls.{piece_of, end_of, text_after};
ghost use Rattle.pieces_calls_mut.specs.Kept.{kept};

use pieces::State;
use pieces_calls::calls::{end, piece};
use pieces_lent::Taken;

// Reads on in a piece: takes the fewest bytes of it that make an item ready, or all of them.
pub fn piece_mut(state: &mut State, bytes: &[u8], text: &mut [u8]) -> Taken
    ensures { (kept result state.new text.new ≡ piece_of state.old bytes.now (length text.old))
        × (text.new ≡ text_after (piece_of state.old bytes.now (length text.old)).what text.old) }
{
    let r = piece(*state, bytes, text);
    *state = r.state;
    Taken {
        taken: r.taken,
        got: r.got,
    }
}

// Declares the end of the text: gives the next item, or says that all were given.
pub fn end_mut(state: &mut State, text: &mut [u8]) -> Taken
    ensures { (kept result state.new text.new ≡ end_of state.old (length text.old))
        × (text.new ≡ text_after (end_of state.old (length text.old)).what text.old) }
{
    let r = end(*state, text);
    *state = r.state;
    Taken {
        taken: r.taken,
        got: r.got,
    }
}
