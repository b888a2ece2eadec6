// A fresh state by value, for a caller that keeps one to lend.
ghost use Rattle.std.specs.Prelude.{◌≡◌};
ghost use Rattle.pieces.specs.Calls.{fresh, open_of};
ghost use Rattle.pieces_lent.specs.Calls.{lend, worded, freshly};

use crate::encoding::fresh_words;
use crate::{Fresh, LentState};
use items::modes::{PLAIN, REPORT};
use pieces::{LONGEST, OpenError};

// A state at the start of a text.
fn fresh_state(mode: u32, skip: bool) -> LentState
    ensures { result ≡ lend (fresh mode skip) }
{
    LentState {
        buf: [0u8; LONGEST],
        words: fresh_words(mode, skip),
    }
}

// Opens a state, in a mode, with comments kept or skipped; 25 where there is no such mode, with a plain state.
pub fn open(mode: u32, skip: bool) -> Fresh
    ensures { freshly result ≡ worded (open_of mode skip) }
{
    if REPORT < mode {
        return Fresh {
            state: fresh_state(PLAIN, skip),
            start: Err(OpenError::NoMode(mode)),
        };
    }
    Fresh {
        state: fresh_state(mode, skip),
        start: Ok(()),
    }
}
