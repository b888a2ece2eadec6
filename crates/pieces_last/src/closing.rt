// Whether the words of a state are ones whose end is told here.
ghost use Rattle.std.specs.Prelude.{◌≡◌, true, ◌≤◌};
ghost use Rattle.pieces.specs.Expected.{longest};
ghost use Rattle.pieces_quick.specs.Words.{Stands};
ghost use Rattle.pieces_last.specs.Ends.{Rests, Stays, Closing};

use pieces::LONGEST;
use pieces_lent::Words;
use pieces_lent::codes::{IDLE, NO, OPENING, POUND, YES};
use pieces_quick::ready::{is_item, is_quiet, is_unheld, is_within};

// The first number that is no mode.
const MODES_END: u64 = 2;

// Whether a state that holds no item is known here: at the start of the text, in a first line or between items.
fn is_resting(w: Words) -> bool
    ensures { result ≡ true → w.stage ≤ 3 → Stays w }
{
    match w.stage {
        OPENING => w.at == 0 && is_unheld(w),
        POUND => false,
        _ => is_unheld(w),
    }
}

// Whether a state is known here by what it holds: no item, or one that `is_item` knows.
fn is_standing(w: Words) -> bool
    ensures { result ≡ true → Stands w × (w.stage ≤ 3 → Rests w) }
{
    if w.stage <= IDLE {
        return is_resting(w);
    }
    is_item(w)
}

// Whether the words are those of a state known here, whether the end was declared or not.
fn is_known(w: Words) -> bool
    ensures { result ≡ true → Closing w }
{
    w.ended <= YES
        && is_quiet(NO, w.one, w.two, w.count, w.need, w.low, w.high, w.code)
        && w.mode < MODES_END
        && w.skip <= YES
        && is_within(w.from, w.to, w.at, 0)
        && is_standing(w)
}

// Whether there are the bytes of a state and of a text memory, and the words are those of a state known here.
pub fn is_closing(w: Words, bytes: usize, room: usize) -> bool
    ensures { result ≡ true → (bytes ≡ longest) × (longest ≤ room) × Closing w }
{
    bytes == LONGEST && LONGEST <= room && is_known(w)
}
