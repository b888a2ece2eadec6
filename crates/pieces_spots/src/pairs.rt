// Two bytes at once that leave an item in its phase: a letter past ASCII of two bytes, U+00C0 to U+07FF, of which none is a blank, in a word,
// in quotes and in a comment to the end of its line; and an escape that is a backslash and one more byte, in quotes.
ghost use Rattle.std.specs.Prelude.{◌≡◌, true, ℕ, ◌+◌, ◌≤◌, ◌<◌, length};
ghost use Rattle.pieces_spots.specs.Spots.{Fits, Onward, Letter, Carries, Escapes, Paired};

use crate::PieceSpot;
use crate::moving::run;
use pieces::LONGEST;
use pieces_lent::codes::{IN_LINE, IN_RUN, IN_WORD, QUOTED};

// The first bytes that such a letter may have, and the second ones, each with the first byte past them.
const LEADS: u8 = 0xC3;

const LEADS_END: u8 = 0xE0;

const SECONDS: u8 = 0x80;

const SECONDS_END: u8 = 0xC0;

// How many bytes are passed.
const TWO_BYTES: usize = 2;

// Whether two bytes are such a letter.
fn is_letter(x: u8, y: u8) -> bool
    ensures { result ≡ true → Letter x y }
{
    LEADS <= x && x < LEADS_END && SECONDS <= y && y < SECONDS_END
}

// Whether an item at a stage goes on with any such letter: a word, a comment to the end of its line, and quotes do.
#[tactic(auto, using(crate::proofs::TwoBytes::word_carries, crate::proofs::TwoBytes::line_carries, crate::proofs::TwoBytes::quotes_carry))]
fn carries(stage: u64) -> bool
    ensures { result ≡ true → (which : ℕ) → Carries stage which }
{
    stage == IN_WORD || stage == IN_LINE || stage == QUOTED
}

// Whether an item at a stage goes on in its quotes past a backslash and this byte.
fn is_escape(stage: u64, b: u8) -> bool
    ensures { result ≡ true → (which : ℕ) → Escapes stage which b }
{
    if stage != QUOTED {
        return false;
    }
    match b {
        b'n' => true,
        b'"' => true,
        b'\\' => true,
        b't' => true,
        b'r' => true,
        b'|' => true,
        b'a' => true,
        b'b' => true,
        b'0' => true,
        _ => false,
    }
}

// Whether an escape of two bytes stands at a spot, and leaves its item in quotes.
fn has_escape(s: PieceSpot, piece: &[u8]) -> bool
    requires { s.i < length piece.now }
    ensures { result ≡ true → Paired s piece.now }
{
    let i = s.i;
    piece[i] == b'\\'
        && TWO_BYTES <= piece.len() - i
        && s.len <= LONGEST - TWO_BYTES
        && is_escape(s.stage, piece[i + 1])
}

// Whether a letter of two bytes stands at a spot, and its item goes on with it.
fn has_letter(s: PieceSpot, piece: &[u8]) -> bool
    requires { s.i < length piece.now }
    ensures { result ≡ true → Paired s piece.now }
{
    let i = s.i;
    TWO_BYTES <= piece.len() - i
        && is_letter(piece[i], piece[i + 1])
        && s.len <= LONGEST - TWO_BYTES
        && carries(s.stage)
}

// Whether two bytes stand at a spot that leave its item in its phase.
fn has_pair(s: PieceSpot, piece: &[u8]) -> bool
    requires { s.i ≤ length piece.now }
    ensures { result ≡ true → Paired s piece.now }
{
    let i = s.i;
    if piece.len() <= i {
        return false;
    }
    if piece[i] < LEADS {
        return has_escape(s, piece);
    }
    has_letter(s, piece)
}

// Past two bytes that stand at a spot and leave its item in its phase.
fn pass_pair(s: PieceSpot, buf: &mut [u8], piece: &[u8]) -> PieceSpot
    requires { Fits s buf.old piece.now × Paired s piece.now }
    ensures { Fits result buf.new piece.now × Onward s buf.old result buf.new piece.now × (result.i ≡ s.i + 2) }
{
    let i = s.i;
    let len = s.len;
    buf[len] = piece[i];
    buf[len + 1] = piece[i + 1];
    PieceSpot {
        at: s.at + 2,
        len: len + TWO_BYTES,
        i: i + TWO_BYTES,
        ..s
    }
}

// Past the bytes that leave an item in its phase, one by one or in pairs, of which a number run has none.
pub fn run_on(s: PieceSpot, buf: &mut [u8], piece: &[u8]) -> PieceSpot
    requires { Fits s buf.old piece.now }
    ensures { Fits result buf.new piece.now × Onward s buf.old result buf.new piece.now }
{
    let mut t = s;
    loop {
        let ran = run(t, buf, piece);
        if ran.stage == IN_RUN {
            return ran;
        }
        if !has_pair(ran, piece) {
            return ran;
        }
        t = pass_pair(ran, buf, piece);
    }
}

// Into a word, between items, where a letter begins it.
pub fn begin_letter(s: PieceSpot, buf: &mut [u8], piece: &[u8]) -> PieceSpot
    requires { Fits s buf.old piece.now × (s.stage ≡ 3) }
    ensures { Fits result buf.new piece.now × Onward s buf.old result buf.new piece.now }
{
    let i = s.i;
    if piece.len() - i < TWO_BYTES {
        return s;
    }
    if !is_letter(piece[i], piece[i + 1]) {
        return s;
    }
    buf[0] = piece[i];
    buf[1] = piece[i + 1];
    PieceSpot {
        stage: IN_WORD,
        start: s.at,
        which: 0,
        detail: 0,
        at: s.at + 2,
        len: TWO_BYTES,
        i: i + TWO_BYTES,
    }
}
