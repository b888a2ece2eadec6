// The end call of the crate `pieces_lent`, quick where most calls are made: where no item is held, and where a word, a number, a string, an
// identifier in vertical lines, a boolean, a comment to the end of its line or a token ends with the text (`end_quickly`). Any other state
// the crate `pieces_lent` answers. The crate `exports` puts the answers into the words that are lent.
#![tactic(auto)]

ghost use Rattle.std.specs.Prelude.{◌≡◌, ◌≤◌, length, take};
ghost use Rattle.pieces.specs.Expected.{longest};
ghost use Rattle.pieces_quick.specs.Words.{spot_of};
ghost use Rattle.pieces_last.specs.Lasts.{Lasts};
ghost use Rattle.pieces_last.specs.Ends.{Closing, Held, Ends};

use items::Record;
use items_telling::Quick;
use meaning::Means;
use meaning::records::depth_after;
use pieces_lent::Words;
use pieces_lent::codes::IDLE;
use pieces_quick::finishing::{copied, decoded_record, is_escaped, skips};
use pieces_spots::PieceSpot;
use tells::tell_last;

mod closing;
mod tells;

pub use closing::is_closing;

// What the end gives: an item, by the brackets open past it and its record; or that all were given.
#[derive(Clone, Copy)]
pub enum Last {
    Item(u64, Record),
    Finished,
}

// Where the reader stands, by its words.
fn spot(w: Words) -> PieceSpot
    ensures { result ≡ spot_of w }
{
    PieceSpot {
        stage: w.stage,
        start: w.start,
        which: w.which,
        detail: w.detail,
        at: w.at,
        len: w.len as usize,
        i: 0,
    }
}

// Gives the item that ends with the text, by its meaning; nothing where it is not told here.
fn give_last(w: Words, s: PieceSpot, m: Means, buf: &[u8], text: &mut [u8]) -> Option<Last>
    requires { Held w buf.now text.old × (s ≡ spot_of w) × Lasts w.stage w.which w.detail w.start (take w.len buf.now) m }
    ensures { Ends w buf.now text.old text.new result }
{
    if skips(w.skip, m.kind) {
        return None;
    }
    let len = s.len;
    let depth = w.depth as u32;
    match copied(m, s, depth, &buf[..len], text) {
        Some(r) => Some(Last::Item(depth_after(m.kind, depth) as u64, r)),
        None => None,
    }
}

// Gives the string with an escape that ends with the text.
fn give_decoded(w: Words, s: PieceSpot, buf: &[u8], text: &mut [u8]) -> Option<Last>
    requires { Held w buf.now text.old × (s ≡ spot_of w) }
    ensures { Ends w buf.now text.old text.new result }
{
    let len = s.len;
    if !is_escaped(s.stage, s.which, &buf[..len]) {
        return None;
    }
    let r = decoded_record(s, w.depth as u32, &buf[..len], text);
    Some(Last::Item(w.depth, r))
}

// Declares the end of the text in a state that is known here: gives the last item, or says that all were given; nothing where the end is not told here.
pub fn end_quickly(w: Words, buf: &[u8], text: &mut [u8]) -> Option<Last>
    requires { Closing w × (length buf.now ≡ longest) × (longest ≤ length text.old) }
    ensures { Ends w buf.now text.old text.new result }
{
    if w.stage <= IDLE {
        return Some(Last::Finished);
    }
    let s = spot(w);
    let len = s.len;
    let told = tell_last(
        s.stage,
        s.which,
        s.detail,
        s.start as usize,
        s.at as usize,
        &buf[..len],
    );
    match told {
        Quick::Item(m, _, _) => give_last(w, s, m, buf, text),
        Quick::Bracket(_, _, _) => None,
        Quick::Other => give_decoded(w, s, buf, text),
    }
}
