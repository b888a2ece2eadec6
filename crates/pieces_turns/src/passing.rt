// The bytes of a piece that leave the reader where it stands, passed at once: most bytes of a word, a number, a string, a comment or a first
// line, and most blanks. Each does what a turn does.
ghost use Rattle.std.specs.Prelude.{◌≡◌, ◌+◌, ◌≤◌, ◌<◌, length, drop};
ghost use Rattle.laws.specs.Texts.{span};
ghost use Rattle.items.specs.Whole.{limit};
ghost use Rattle.pieces.specs.Expected.{longest};
ghost use Rattle.pieces_giving.specs.Answers.{state_of};
ghost use Rattle.pieces_turns.specs.Passed.{kept, passed};

use byte_runs::{blank_end, plain_end};
use pieces::{LONGEST, Marks, Stage};
use pieces_giving::give::copy_all;
use pieces_giving::marks::marks_at;
use refusal::LIMIT;
use steps::ascii_run;

// How many of these bytes, from the first on, leave the reader at a stage without an item: in a first line those of ASCII before its
// newline, between items the blanks.
fn between_count(stage: Stage, bytes: &[u8]) -> usize
    ensures { result ≤ span (kept stage) bytes.now }
{
    match stage {
        Stage::FirstLine => plain_end(bytes, 0, b'\n', b'\n'),
        Stage::Idle => blank_end(bytes, 0),
        _ => 0,
    }
}

// How many of these bytes, from the first on, leave the reader at a stage. One in an item is told first.
fn kept_count(stage: Stage, bytes: &[u8]) -> usize
    ensures { result ≤ span (kept stage) bytes.now }
{
    match stage {
        Stage::Busy(_start, phase) => ascii_run(bytes, 0, phase),
        _ => between_count(stage, bytes),
    }
}

// How many of so many bytes there is room for, in the item and in the text.
fn room(m: Marks, left: usize) -> usize
    requires { (m.len ≤ longest) × (m.at ≤ limit) }
    ensures { (result ≤ left) × (m.len + result ≤ longest) × (m.at + result ≤ limit) }
{
    left.min(LONGEST - m.len).min(LIMIT - m.at)
}

// How many bytes of the piece, from a place on, may be passed at once: none within a character. It looks at no more bytes than an item
// may still have, so that a run as long as the piece costs what its bytes cost.
pub fn ahead(m: Marks, piece: &[u8], from: usize) -> usize
    requires { (m.len ≤ longest) × (m.at ≤ limit) }
    ensures { (result ≤ span (kept m.stage) (drop from piece.now)) × (m.len + result ≤ longest)
        × (m.at + result ≤ limit) × (0 < result → m.part.count ≡ 0) }
{
    if m.part.count != 0 {
        return 0;
    }
    if piece.len() <= from {
        return 0;
    }
    let stage = m.stage;
    let end = from + room(m, piece.len() - from);
    kept_count(stage, &piece[from..end])
}

// Passes a run of bytes.
pub fn pass(m: Marks, buf: &mut [u8], run: &[u8]) -> Marks
    requires { (length buf.old ≡ longest) × (m.len + length run.now ≤ longest) × (m.at + length run.now ≤ limit) }
    ensures { state_of result buf.new ≡ passed (state_of m buf.old) run.now }
{
    let n = run.len();
    if n == 0 {
        return m;
    }
    let stage = m.stage;
    let len = m.len;
    match stage {
        Stage::Opening => m,
        Stage::Pound => m,
        Stage::FirstLine => marks_at(m, Stage::FirstLine, m.at + n, 0, m.from, m.to),
        Stage::Idle => marks_at(m, Stage::Idle, m.at + n, 0, m.from, m.to),
        Stage::Busy(start, phase) => {
            copy_all(run, &mut buf[len..]);
            marks_at(
                m,
                Stage::Busy(start, phase),
                m.at + n,
                len + n,
                m.from,
                m.to,
            )
        }
        Stage::Waiting(_start, _beyond) => m,
        Stage::Stopped(_number, _place) => m,
    }
}
