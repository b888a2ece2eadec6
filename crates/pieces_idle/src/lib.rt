// The promise of a piece call, alone: `pieces_calls::calls::piece` under its own contract, and nothing else to prove. The edit of must-fail/ puts
// document 01's idle program in the place of the call: it does its reading in the first piece call and merely nods later.
#![tactic(auto)]

ghost use Rattle.std.specs.Prelude.{◌≡◌, length};
ghost use Rattle.pieces.specs.Calls.{piece_of, text_after};
ghost use Rattle.pieces_calls.specs.Answers.{answered};

use pieces::{Answer, Got, State};
use pieces_calls::calls;

pub fn piece(state: State, piece: &[u8], text: &mut [u8]) -> Answer
    ensures { (answered result text.new ≡ piece_of state piece.now (length text.old))
        × (text.new ≡ text_after (piece_of state piece.now (length text.old)).what text.old) }
{
    calls::piece(state, piece, text)
}
