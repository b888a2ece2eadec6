// The index of a text that comes in pieces, byte by byte: opening, a piece, the declared end, with the state by value. No piece is refused:
// every refusal comes with the declared end. What the calls do is the crate lines, specs/Pieces.
ghost use Rattle.std.specs.Prelude.{◌≡◌, ◌≤◌, ◌<◌, ltb, length, set, if◌then◌else◌};
ghost use Rattle.refusal.specs.Refusals.{limit};
ghost use Rattle.lines.specs.Starts.{told_of};
ghost use Rattle.lines.specs.Pieces.{fed, open_of, moved_of, stopped_of, step_of, fed_of, piece_of, end_of};

use chars::{Begun, Step};
use lines::{LineState, LinesError};
use refusal::{LIMIT, NOT_UTF8, TOO_LONG};

// The last place that there is: the end of the longest text.
const LAST_PLACE: u32 = LIMIT as u32;

// No refusal.
const NO_REFUSAL: u32 = 0;

// Between two characters.
fn between() -> Begun
    ensures { result ≡ record { need = 0; low = 0; high = 0; code = 0 } }
{
    Begun {
        need: 0,
        low: 0,
        high: 0,
        code: 0,
    }
}

// Stores v at place k of the memory, if there is such a place.
fn store(index: &mut [u32], k: u32, v: u32)
    ensures { index.new ≡ set index.old k v }
{
    let i = k as usize;
    if i < index.len() {
        index[i] = v;
    }
}

// A newline byte more is a start more, noted where it fits.
fn note(index: &mut [u32], had: u32, lines: u32, at: u32)
    ensures { index.new ≡ (if ltb had lines then set index.old lines at else index.old) }
{
    if had < lines {
        store(index, lines, at);
    }
}

// Opens an index: its first start is 0.
pub fn open(index: &mut [u32]) -> LineState
    ensures { fed result index.new ≡ open_of index.old }
{
    store(index, 0, 0);
    LineState {
        begun: between(),
        from: 0,
        at: 0,
        lines: 0,
        stop: NO_REFUSAL,
    }
}

// After a byte of a text that can go on.
fn moved(t: LineState, b: u8, begun: Begun, from: u32) -> LineState
    requires { (t.lines ≤ t.at) × (t.at < limit) }
    ensures { result ≡ moved_of t b begun from }
{
    let lines = if b == b'\n' { t.lines + 1 } else { t.lines };
    LineState {
        begun,
        from,
        at: t.at + 1,
        lines,
        stop: NO_REFUSAL,
    }
}

// After a byte that showed a refusal, or one after it.
fn stopped(t: LineState, at: u32, stop: u32) -> LineState
    ensures { result ≡ stopped_of t at stop }
{
    LineState { at, stop, ..t }
}

// One byte.
fn step(t: LineState, b: u8) -> LineState
    requires { t.lines ≤ t.at }
    ensures { result ≡ step_of t b }
{
    if t.stop == TOO_LONG {
        return t;
    }
    if t.at == LAST_PLACE {
        return stopped(t, LAST_PLACE, TOO_LONG);
    }
    if t.stop == NOT_UTF8 {
        return stopped(t, t.at + 1, NOT_UTF8);
    }
    let begun = t.begun;
    match chars::byte_step(begun, b) {
        Step::More(u) => moved(t, b, u, t.from),
        Step::Char(_) => moved(t, b, between(), t.at + 1),
        Step::Bad => stopped(t, t.at + 1, NOT_UTF8),
    }
}

// The bytes of a piece one after the other.
fn feed(st: LineState, bytes: &[u8], index: &mut [u32]) -> LineState
    requires { st.lines ≤ st.at }
    ensures { fed result index.new ≡ fed_of st bytes.now index.old }
{
    let mut t = st;
    for &b in bytes {
        let next = step(t, b);
        note(index, t.lines, next.lines, next.at);
        t = next;
    }
    t
}

// A piece of the text. A state outside its bounds stays, with the memory.
pub fn piece(st: LineState, bytes: &[u8], index: &mut [u32]) -> LineState
    ensures { fed result index.new ≡ piece_of st bytes.now index.old }
{
    if st.at < st.lines {
        return st;
    }
    feed(st, bytes, index)
}

// The declared end: the index is built, or why not.
pub fn end(st: LineState, index: &[u32]) -> Result<usize, LinesError>
    ensures { told_of result ≡ end_of st (length index.now) }
{
    if st.at < st.lines {
        return Err(LinesError::OutOfBounds);
    }
    if st.stop == TOO_LONG {
        return Err(LinesError::TooLong);
    }
    if st.stop == NOT_UTF8 {
        return Err(LinesError::NotUtf8(st.from as usize));
    }
    let begun = st.begun;
    if begun.need != 0 {
        return Err(LinesError::NotUtf8(st.from as usize));
    }
    let n = st.lines as usize + 1;
    if index.len() < n {
        return Err(LinesError::NoRoom(n));
    }
    Ok(n)
}
