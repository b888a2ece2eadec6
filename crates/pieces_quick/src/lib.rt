// The piece call of the crate `pieces_lent`, quick where most calls are made: between two characters, between items, in a word, a number run, a
// string, an identifier in vertical lines or a comment to the end of its line, past a number sign or past a token. It goes from spot to spot
// (crate `pieces_spots`) to an item or to the end of the piece (`quickly`). Where it stops short, and for words that it does not know, the
// crate `pieces_lent` goes on (`plainly`). The crate `exports` puts the answers into the words that are lent.
#![tactic(auto)]

ghost use Rattle.std.specs.Prelude.{◌≡◌, true, ◌≤◌, length};
ghost use Rattle.pieces.specs.Expected.{longest};
ghost use Rattle.pieces_lent.specs.Stood.{Stood};
ghost use Rattle.pieces_spots.specs.Spots.{Fits, Onward};
ghost use Rattle.pieces_spots.specs.Lines.{Commented};
ghost use Rattle.pieces_quick.specs.Words.{Ready};
ghost use Rattle.pieces_quick.specs.Gives.{Reaches, Comes, Answers, Says, Continues};

use finishing::{give_comment, give_item};
use items::Record;
use pieces::LONGEST;
use pieces_lent::calls::{piece_stood, piece_words};
use pieces_lent::codes::{DONE_TOKEN, IN_LINE, IN_RUN, IN_WORD};
use pieces_lent::{Told, Words};
use pieces_spots::{PieceSpot, begin, close, past, past_line, run_on};
use ready::is_ready;

pub mod finishing;
pub mod ready;

// An item that is told here: its record, the spot past the byte before which it ended and the brackets open there.
#[derive(Clone, Copy)]
pub struct QuickItem {
    pub spot: PieceSpot,
    pub depth: u64,
    pub item: Record,
}

// Where the moves lead: to the end of the piece; past an item; or to a spot before a byte from which the crate `pieces_lent` has to go on.
#[derive(Clone, Copy)]
pub enum Reached {
    More(PieceSpot),
    Item(QuickItem),
    Before(PieceSpot),
}

// Past the blanks, into an item and through it, as far as the moves tell. A token that is whole has nothing to pass, and no byte closes a
// word or a number run.
fn through(s: PieceSpot, buf: &mut [u8], piece: &[u8]) -> PieceSpot
    requires { Fits s buf.old piece.now }
    ensures { Fits result buf.new piece.now × Onward s buf.old result buf.new piece.now }
{
    let idle = past(s, buf, piece);
    let begun = begin(idle, buf, piece);
    if begun.stage == DONE_TOKEN {
        return begun;
    }
    let ran = run_on(begun, buf, piece);
    if ran.stage == IN_WORD {
        return ran;
    }
    if ran.stage == IN_RUN {
        return ran;
    }
    close(ran, buf, piece)
}

// The item from a spot on, or all the bytes, or the spot itself.
fn from_spot(w: Words, s: PieceSpot, buf: &mut [u8], piece: &[u8], text: &mut [u8]) -> Reached
    requires { Fits s buf.old piece.now × Reaches w s buf.old text.old }
    ensures { Comes w s piece.now buf.old buf.new text.old text.new result }
{
    let i = s.i;
    if piece.len() <= i {
        return Reached::More(s);
    }
    match give_item(w, s, piece[i], buf, text) {
        Some(told) => Reached::Item(told),
        None => Reached::Before(s),
    }
}

// Past the line of a comment that was begun before.
fn lined(s: PieceSpot, buf: &mut [u8], piece: &[u8]) -> PieceSpot
    requires { Fits s buf.old piece.now }
    ensures { Fits result buf.new piece.now × Onward s buf.old result buf.new piece.now
        × (s.stage ≡ 7 → result.stage ≡ 31 → Commented result piece.now) }
{
    if s.stage == IN_LINE {
        return past_line(s, buf, piece);
    }
    s
}

// The comment that ends before the byte at a spot, or the spot itself.
fn from_comment(w: Words, s: PieceSpot, buf: &mut [u8], piece: &[u8], text: &[u8]) -> Reached
    requires { Fits s buf.old piece.now × Reaches w s buf.old text.now × (s.stage ≡ 31) × Commented s piece.now }
    ensures { Comes w s piece.now buf.old buf.new text.now text.now result }
{
    let i = s.i;
    match give_comment(w, s, piece[i], buf, text) {
        Some(told) => Reached::Item(told),
        None => Reached::Before(s),
    }
}

// Reads on in a piece from words that are ready, from spot to spot.
pub fn quickly(words: Words, buf: &mut [u8], piece: &[u8], text: &mut [u8]) -> Reached
    requires { (length buf.old ≡ longest) × (longest ≤ length text.old) × Ready words (length piece.now) }
    ensures { Answers words piece.now buf.old buf.new text.old text.new result }
{
    let start = PieceSpot {
        stage: words.stage,
        start: words.start,
        which: words.which,
        detail: words.detail,
        at: words.at,
        len: words.len as usize,
        i: 0,
    };
    let s = lined(start, buf, piece);
    if words.stage == IN_LINE {
        if s.stage == DONE_TOKEN {
            return from_comment(words, s, buf, piece, text);
        }
        if piece.len() <= s.i {
            return Reached::More(s);
        }
    }
    let last = through(s, buf, piece);
    from_spot(words, last, buf, piece, text)
}

// The piece call of the crate `pieces_lent`. Words that are known to be those of a state that reads on are not held to their bounds again.
fn called(words: Words, known: bool, buf: &mut [u8], piece: &[u8], text: &mut [u8]) -> Told
    requires { known ≡ true → Stood words buf.old text.old }
    ensures { Says words piece.now buf.old buf.new text.old text.new result }
{
    if known {
        return piece_stood(words, buf, piece, text);
    }
    piece_words(words, buf, piece, text)
}

// Reads on in a piece from a place on as the crate `pieces_lent` does.
pub fn plainly(
    words: Words,
    buf: &mut [u8],
    piece: &[u8],
    from: usize,
    known: bool,
    text: &mut [u8],
) -> Told
    requires { (from ≤ length piece.now) × (known ≡ true → Stood words buf.old text.old) }
    ensures { Continues words from piece.now buf.old buf.new text.old text.new result }
{
    let told = called(words, known, buf, &piece[from..], text);
    Told {
        taken: told.taken + from,
        ..told
    }
}

// Whether there are the bytes of a state and of a text memory, and the words are ready for a piece of so many bytes.
pub fn is_served(w: Words, bytes: usize, room: usize, left: usize) -> bool
    ensures { result ≡ true → (bytes ≡ longest) × (longest ≤ room) × Ready w left }
{
    bytes == LONGEST && LONGEST <= room && is_ready(w, left)
}
