// The moves. None looks further than an item may still grow.
ghost use Rattle.std.specs.Prelude.{List, ℕ, ◌≤◌, ◌<◌, length};
ghost use Rattle.pieces_spots.specs.Spots.{Fits, Onward, Keeps, Closes};

use crate::PieceSpot;
use crate::first_byte::{
    DETAIL, KIND, KINDS, LINE_DONE, LINES_CLOSED, NOT_TOLD, VECTOR_DONE, begun_by,
};
use crate::pairs::begin_letter;
use byte_runs::blank_end;
use items::{Phase, Quotes};
use pieces::LONGEST;
use pieces_giving::give::copy_all;
use pieces_lent::codes::{
    AFTER_HASH, CLOSED, DOUBLE, IDLE, IN_HASH, IN_LINE, IN_RUN, IN_WORD, QUOTED,
};
use steps::ascii_run;

// Past the blanks of ASCII, between items.
pub fn past(s: PieceSpot, buf: &[u8], piece: &[u8]) -> PieceSpot
    requires { Fits s buf.now piece.now }
    ensures { Fits result buf.now piece.now × Onward s buf.now result buf.now piece.now }
{
    let i = s.i;
    if s.stage != IDLE {
        return s;
    }
    if s.len != 0 {
        return s;
    }
    if piece.len() <= i {
        return s;
    }
    if b' ' < piece[i] {
        return s;
    }
    let end = i + (piece.len() - i).min(LONGEST);
    let n = blank_end(&piece[i..end], 0);
    PieceSpot {
        stage: IDLE,
        start: 0,
        which: 0,
        detail: 0,
        at: s.at + n as u64,
        len: 0,
        i: i + n,
    }
}

// Into an item, between items.
pub fn begin(s: PieceSpot, buf: &mut [u8], piece: &[u8]) -> PieceSpot
    requires { Fits s buf.old piece.now }
    ensures { Fits result buf.new piece.now × Onward s buf.old result buf.new piece.now }
{
    let i = s.i;
    if s.stage != IDLE {
        return s;
    }
    if piece.len() <= i {
        return s;
    }
    let b = piece[i];
    let f = begun_by(b);
    if f <= IDLE {
        return begin_letter(s, buf, piece);
    }
    buf[0] = b;
    PieceSpot {
        stage: f % KIND,
        start: s.at,
        which: f / KIND % KINDS,
        detail: f / DETAIL,
        at: s.at + 1,
        len: 1,
        i: i + 1,
    }
}

// How many of these bytes, from the first on, leave an item in its quotes.
fn quoted_count(which: u64, bytes: &[u8]) -> usize
    ensures { (result ≤ length bytes.now) × (0 < result → Keeps 24 which result bytes.now) }
{
    if which == DOUBLE {
        return ascii_run(bytes, 0, Phase::Quoted(Quotes::Double));
    }
    ascii_run(bytes, 0, Phase::Quoted(Quotes::Lines))
}

// How many of these bytes, from the first on, leave an item at a stage.
fn kept_count(stage: u64, which: u64, bytes: &[u8]) -> usize
    ensures { (result ≤ length bytes.now) × (0 < result → Keeps stage which result bytes.now) }
{
    if stage == IN_WORD {
        return ascii_run(bytes, 0, Phase::InWord);
    }
    if stage == IN_RUN {
        return ascii_run(bytes, 0, Phase::InRun);
    }
    if stage == IN_LINE {
        return ascii_run(bytes, 0, Phase::InLine);
    }
    if stage == QUOTED {
        return quoted_count(which, bytes);
    }
    0
}

// Past the bytes that leave an item in its phase.
pub fn run(s: PieceSpot, buf: &mut [u8], piece: &[u8]) -> PieceSpot
    requires { Fits s buf.old piece.now }
    ensures { Fits result buf.new piece.now × Onward s buf.old result buf.new piece.now × (s.i ≤ result.i) }
{
    let i = s.i;
    let len = s.len;
    let end = i + (piece.len() - i).min(LONGEST - len);
    let n = kept_count(s.stage, s.which, &piece[i..end]);
    if n == 0 {
        return s;
    }
    let to = i + n;
    copy_all(&piece[i..to], &mut buf[len..]);
    PieceSpot {
        at: s.at + n as u64,
        len: len + n,
        i: to,
        ..s
    }
}

// What a byte after a number sign alone makes of an item, as `first` has it: the opening of a vector, or what may be a boolean.
fn after_sign(which: u64, raw: &[u8], b: u8) -> u64
    ensures { 0 < result → Closes 9 which b result raw.now }
{
    if raw.len() != 1 {
        return NOT_TOLD;
    }
    if raw[0] != b'#' {
        return NOT_TOLD;
    }
    match b {
        b'(' => VECTOR_DONE,
        b't' => IN_HASH,
        b'f' => IN_HASH,
        _ => NOT_TOLD,
    }
}

// What a byte makes of an item in quotes, as `first` has it: what closes them.
fn closes_quotes(which: u64, b: u8) -> u64
    ensures { 0 < result → (raw : List ℕ) → Closes 24 which b result raw }
{
    if which == DOUBLE {
        if b == b'"' {
            return CLOSED;
        }
        return NOT_TOLD;
    }
    if b == b'|' {
        return LINES_CLOSED;
    }
    NOT_TOLD
}

// What a byte that belongs to an item at a stage, whose bytes so far are `raw`, makes of it, as `first` has it; NOT_TOLD where it is not
// told here.
fn closes(stage: u64, which: u64, raw: &[u8], b: u8) -> u64
    ensures { 0 < result → Closes stage which b result raw.now }
{
    if stage == QUOTED {
        return closes_quotes(which, b);
    }
    if stage == IN_LINE {
        if b == b'\n' {
            return LINE_DONE;
        }
        return NOT_TOLD;
    }
    if stage == AFTER_HASH {
        return after_sign(which, raw, b);
    }
    NOT_TOLD
}

// Past a byte that leads an item to another phase.
pub fn close(s: PieceSpot, buf: &mut [u8], piece: &[u8]) -> PieceSpot
    requires { Fits s buf.old piece.now }
    ensures { Fits result buf.new piece.now × Onward s buf.old result buf.new piece.now }
{
    let i = s.i;
    let len = s.len;
    if piece.len() <= i {
        return s;
    }
    if LONGEST <= len {
        return s;
    }
    let b = piece[i];
    let f = closes(s.stage, s.which, &buf[..len], b);
    if f == NOT_TOLD {
        return s;
    }
    buf[len] = b;
    PieceSpot {
        stage: f % KIND,
        which: f / KIND % KINDS,
        detail: f / DETAIL,
        at: s.at + 1,
        len: len + 1,
        i: i + 1,
        ..s
    }
}
