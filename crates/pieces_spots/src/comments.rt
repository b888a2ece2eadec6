// A comment to the end of its line, as most are: its bytes are looked at and held a block at a time, and its newline ends it.
ghost use Rattle.std.specs.Prelude.{◌≡◌, true, ◌+◌, ◌^◌, ◌≤◌, ◌<◌, length, get_or, take, drop, set};
ghost use Rattle.laws.specs.Lent.{written};
ghost use Rattle.laws.specs.Texts.{span};
ghost use Rattle.laws.specs.Quoted.{code};
ghost use Rattle.items.specs.Whole.{limit};
ghost use Rattle.byte_runs.specs.Runs.{block};
ghost use Rattle.pieces_spots.specs.Lines.{of_line, CopiedBlocks, line_done, Commented};
ghost use Rattle.pieces_spots.specs.Spots.{Fits, Onward};

use crate::PieceSpot;
use crate::lines::{line_block, line_rest};
use byte_runs::BLOCK;
use items::kinds;
use pieces::LONGEST;
use pieces_giving::give::copy_all;
use pieces_lent::codes::{DONE_TOKEN, IN_LINE};

// Copies the first block of `raw` to the front of `text`. All of it is read before any is written: so it is one load and one store.
fn copy_block(raw: &[u8], text: &mut [u8])
    requires { (block ≤ length raw.now) × (block ≤ length text.old) }
    ensures { text.new ≡ written (take block raw.now) text.old }
{
    let mut block: [u8; BLOCK] = [0; BLOCK];
    copy_all(&raw[..BLOCK], &mut block);
    copy_all(&block, text);
}

// Copies the blocks of a line from the first on to the front of `text`, and answers how many bytes they have.
fn copy_blocks(raw: &[u8], text: &mut [u8]) -> usize
    requires { length raw.now ≤ length text.old }
    ensures { CopiedBlocks raw.now text.old text.new result × (span of_line (drop result raw.now) < block) }
{
    let mut i = 0;
    while line_block(raw, i) {
        copy_block(&raw[i..], &mut text[i..]);
        i += BLOCK;
    }
    i
}

// Copies the bytes of a line from the first on to the front of `text`, and answers how many they are. The last block of a longer one
// overlaps the one before.
fn copy_line(raw: &[u8], text: &mut [u8]) -> usize
    requires { length raw.now ≤ length text.old }
    ensures { (result ≡ span of_line raw.now) × (text.new ≡ written (take result raw.now) text.old) }
{
    let i = copy_blocks(raw, text);
    let n = line_rest(raw, i);
    if n < BLOCK {
        copy_all(&raw[..n], text);
        return n;
    }
    let last = n - BLOCK;
    copy_block(&raw[last..], &mut text[last..]);
    n
}

// Whether a newline stands at a place of a piece, and another byte behind it, before an end.
fn has_newline(piece: &[u8], at: usize, end: usize) -> bool
    requires { (at ≤ length piece.now) × (end ≤ length piece.now) }
    ensures { result ≡ true → (at + 1 < end) × (get_or piece.now at 0 ≡ code "\n") }
{
    at + 1 < end && piece[at] == b'\n'
}

// Past n bytes of a comment that are held, and the newline that ends it.
fn end_line(s: PieceSpot, n: usize, buf: &mut [u8]) -> PieceSpot
    requires { (s.len + n < length buf.old) × (s.at + n + 1 ≤ limit) × (s.i + n + 1 < 2 ^ 64) }
    ensures { (result ≡ line_done s n) × (buf.new ≡ set buf.old (s.len + n) (code "\n")) }
{
    let len = s.len + n;
    buf[len] = b'\n';
    PieceSpot {
        stage: DONE_TOKEN,
        which: kinds::COMMENT as u64,
        detail: 0,
        at: s.at + n as u64 + 1,
        len: len + 1,
        i: s.i + n + 1,
        ..s
    }
}

// Past the bytes of ASCII of a comment, and past the newline that ends it where a byte follows.
pub fn past_line(s: PieceSpot, buf: &mut [u8], piece: &[u8]) -> PieceSpot
    requires { Fits s buf.old piece.now × (s.stage ≡ 7) }
    ensures { Fits result buf.new piece.now × Onward s buf.old result buf.new piece.now
        × (result.stage ≡ 31 → Commented result piece.now) }
{
    let i = s.i;
    let len = s.len;
    let end = i + (piece.len() - i).min(LONGEST - len);
    let n = copy_line(&piece[i..end], &mut buf[len..]);
    if has_newline(piece, i + n, end) {
        return end_line(s, n, buf);
    }
    PieceSpot {
        stage: IN_LINE,
        at: s.at + n as u64,
        len: len + n,
        i: i + n,
        ..s
    }
}
