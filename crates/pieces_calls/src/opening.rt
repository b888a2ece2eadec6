// A state as it is opened.
ghost use Rattle.std.specs.Prelude.{◌≡◌};
ghost use Rattle.pieces.specs.Calls.{fresh, open_of};
ghost use Rattle.pieces_calls.specs.Answers.{opened};

use items::modes::{PLAIN, REPORT};
use pieces::{LONGEST, Marks, OpenError, Opened, Stage, State};
use pieces_giving::marks::no_part;

// A state at the start of a text.
fn fresh_state(mode: u32, skip: bool) -> State
    ensures { result ≡ fresh mode skip }
{
    State {
        buf: [0u8; LONGEST],
        marks: Marks {
            mode,
            skip,
            ended: false,
            stage: Stage::Opening,
            at: 0,
            part: no_part(),
            from: 0,
            to: 0,
            len: 0,
            depth: 0,
        },
    }
}

// Opens a piece state, in a mode, with comments kept or skipped; 25 where there is no such mode, with a plain state.
pub fn open(mode: u32, skip: bool) -> Opened
    ensures { opened result ≡ open_of mode skip }
{
    if REPORT < mode {
        return Opened {
            state: fresh_state(PLAIN, skip),
            start: Err(OpenError::NoMode(mode)),
        };
    }
    Opened {
        state: fresh_state(mode, skip),
        start: Ok(()),
    }
}
