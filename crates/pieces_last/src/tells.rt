// What an item is that ends with the text.
ghost use Rattle.std.specs.Prelude.{◌≡◌, ◌+◌, ◌^◌, ◌<◌, length};
ghost use Rattle.pieces_last.specs.Lasts.{TellsLast};

use items::kinds;
use items_telling::{Quick, bare, tell_run, tell_word};
use pieces_lent::codes::{CLOSED, DONE_TOKEN, IN_HASH, IN_LINE, IN_RUN, IN_WORD};
use pieces_spots::{KINDS, tell_boolean, tell_closed};

// What an item is, by its stage, that ends with the text.
pub fn tell_last(stage: u64, which: u64, detail: u64, at: usize, end: usize, raw: &[u8]) -> Quick
    requires { (0 < length raw.now) × (end ≡ at + length raw.now) × (which < 2 ^ 32) × (detail < 2 ^ 32) }
    ensures { TellsLast stage which detail at raw.now result }
{
    if stage == IN_LINE {
        return bare(kinds::COMMENT, kinds::NO_DETAIL, at, end);
    }
    if stage == DONE_TOKEN {
        if KINDS <= which {
            return Quick::Other;
        }
        return bare(which as u32, detail as u32, at, end);
    }
    if stage == CLOSED {
        return tell_closed(which, at, end, raw);
    }
    if stage == IN_WORD {
        return tell_word(at, end, raw);
    }
    if stage == IN_RUN {
        return tell_run(at, end, raw);
    }
    if stage == IN_HASH {
        return tell_boolean(at, end, raw);
    }
    Quick::Other
}
