// The calls: a piece of the text, and its end. `piece` and `end` take the state by value and hand it back; under them, the buffer is lent.
ghost use Rattle.std.specs.Prelude.{◌≡◌, true, List, ℕ, length};
ghost use Rattle.pieces.specs.Expected.{longest};
ghost use Rattle.pieces.specs.Bounds.{phase_bounds};
ghost use Rattle.pieces.specs.Calls as calls;
ghost use Rattle.pieces_giving.specs.Answers.{state_of};
ghost use Rattle.pieces_calls.specs.Answers.{is_more, pieced, refuses, ends_with, end_declared, answered, piece_in, end_in};
ghost use Rattle.pieces_giving.specs.Inner.{HoldsItem, BeyondFits};
ghost use Rattle.pieces_turns.specs.Inner.{Sound};

use items::Phase;
use pieces::{Answer, Got, LONGEST, Marks, Pieced, Stage, State, Turned};
use pieces_bounds::in_bounds;
use pieces_giving::ends::{beyond, ends, extent, give_second};
use pieces_turns::passing::{ahead, pass};
use pieces_turns::turn::{stop, turn};
use refusal::{AFTER_END, LITTLE_TEXT, NOT_UTF8, OUT_OF_BOUNDS};
use steps::finish;

// Whether nothing is given yet.
fn is_more(got: Got) -> bool
    ensures { result ≡ is_more got }
{
    matches!(got, Got::More)
}

// A refusal that takes nothing and leaves the state as it was.
fn refuse(m: Marks, number: u32, place: usize) -> Pieced
    ensures { result ≡ refuses m number place }
{
    Pieced {
        marks: m,
        taken: 0,
        got: Got::Refused(number, place),
    }
}

// The bytes of a piece, until something is given or all are taken: a run of those that leave the reader where it stands, then one by a
// turn.
fn feed(m: Marks, buf: &mut [u8], piece: &[u8], text: &mut [u8]) -> Pieced
    requires { Sound m buf.old text.old }
    ensures { (pieced result buf.new text.new ≡ calls.feed_of (state_of m buf.old) piece.now 0)
        × (text.new ≡ calls.text_after (calls.feed_of (state_of m buf.old) piece.now 0).what text.old) }
{
    let mut marks = m;
    let mut i = 0;
    while i < piece.len() {
        let run = ahead(marks, piece, i);
        let at = i + run;
        let here = pass(marks, buf, &piece[i..at]);
        if at == piece.len() {
            return Pieced {
                marks: here,
                taken: at,
                got: Got::More,
            };
        }
        let taken = at + 1;
        let turned = turn(here, buf, text, piece[at]);
        let next = turned.marks;
        let got = turned.got;
        if !is_more(got) {
            return Pieced {
                marks: next,
                taken,
                got,
            };
        }
        marks = next;
        i = taken;
    }
    Pieced {
        marks,
        taken: i,
        got: Got::More,
    }
}

// The second item of the pair that starts at `start`, and what stands beyond the pair.
fn give_waiting(m: Marks, buf: &mut [u8], text: &mut [u8], start: usize, b: Option<u32>) -> Pieced
    requires { HoldsItem m buf.old text.old start × BeyondFits b m.at }
    ensures { (pieced result buf.new text.new ≡ calls.end_stage (state_of m buf.old) (Stage.Waiting start b))
        × (text.new ≡ calls.text_after (calls.end_stage (state_of m buf.old) (Stage.Waiting start b)).what text.old) }
{
    let record = give_second(m, buf, text, start);
    let next = beyond(m, buf, extent(m.from, m.to), b);
    Pieced {
        marks: next,
        taken: 0,
        got: Got::Item(record),
    }
}

// A piece where a pair's second item waits, unless the end was declared.
fn piece_waiting(
    m: Marks,
    buf: &mut [u8],
    piece: &[u8],
    text: &mut [u8],
    start: usize,
    b: Option<u32>,
) -> Pieced
    requires { HoldsItem m buf.old text.old start × BeyondFits b m.at }
    ensures { (pieced result buf.new text.new ≡ calls.piece_stage (state_of m buf.old) (Stage.Waiting start b) piece.now)
        × (text.new ≡ calls.text_after (calls.piece_stage (state_of m buf.old) (Stage.Waiting start b) piece.now).what text.old) }
{
    if m.ended {
        return refuse(m, AFTER_END, 0);
    }
    give_waiting(m, buf, text, start, b)
}

// A piece where the reader reads on, unless the end was declared.
pub fn piece_on(m: Marks, buf: &mut [u8], piece: &[u8], text: &mut [u8]) -> Pieced
    requires { Sound m buf.old text.old }
    ensures { (pieced result buf.new text.new ≡ calls.piece_stage (state_of m buf.old) Stage.Idle piece.now)
        × (text.new ≡ calls.text_after (calls.piece_stage (state_of m buf.old) Stage.Idle piece.now).what text.old) }
{
    if m.ended {
        return refuse(m, AFTER_END, 0);
    }
    feed(m, buf, piece, text)
}

// A piece call on a whole buffer.
fn read_piece(m: Marks, buf: &mut [u8], piece: &[u8], text: &mut [u8]) -> Pieced
    requires { length buf.old ≡ longest }
    ensures { (pieced result buf.new text.new ≡ calls.piece_of (state_of m buf.old) piece.now (length text.old))
        × (text.new ≡ calls.text_after (calls.piece_of (state_of m buf.old) piece.now (length text.old)).what text.old) }
{
    if !in_bounds(m) {
        return refuse(m, OUT_OF_BOUNDS, 0);
    }
    if text.len() < LONGEST {
        return refuse(m, LITTLE_TEXT, 0);
    }
    let stage = m.stage;
    match stage {
        Stage::Opening => piece_on(m, buf, piece, text),
        Stage::Pound => piece_on(m, buf, piece, text),
        Stage::FirstLine => piece_on(m, buf, piece, text),
        Stage::Idle => piece_on(m, buf, piece, text),
        Stage::Busy(_start, _phase) => piece_on(m, buf, piece, text),
        Stage::Waiting(start, b) => piece_waiting(m, buf, piece, text, start, b),
        Stage::Stopped(number, place) => refuse(m, number, place),
    }
}

// A piece call with the buffer as an array. Internal: it asks what every array of 4,096 bytes meets.
fn piece_in(m: Marks, buf: &mut [u8; LONGEST], piece: &[u8], text: &mut [u8]) -> Pieced
    requires { length buf.old ≡ longest }
    ensures { (pieced result buf.new text.new ≡ calls.piece_of (state_of m buf.old) piece.now (length text.old))
        × (text.new ≡ calls.text_after (calls.piece_of (state_of m buf.old) piece.now (length text.old)).what text.old) }
{
    read_piece(m, buf, piece, text)
}

// The marks with the end declared.
fn declare(m: Marks) -> Marks
    ensures { result ≡ end_declared m }
{
    Marks { ended: true, ..m }
}

// What a turn at the end gives: all is given where it gives nothing more.
fn at_end(turned: Turned) -> Pieced
    ensures { result ≡ ends_with turned }
{
    Pieced {
        marks: turned.marks,
        taken: 0,
        got: match turned.got {
            Got::More => Got::Finished,
            given => given,
        },
    }
}

// The end between items, unless it cuts a character.
fn end_idle(m: Marks) -> Pieced
    ensures { (buf text : List ℕ) → pieced result buf text ≡ calls.end_stage (state_of m buf) Stage.Idle }
{
    if m.part.count != 0 {
        return at_end(stop(m, NOT_UTF8, m.at));
    }
    Pieced {
        marks: m,
        taken: 0,
        got: Got::Finished,
    }
}

// The end in the item that starts at `start`, unless it cuts a character.
fn end_item(m: Marks, buf: &mut [u8], text: &mut [u8], start: usize, phase: Phase) -> Pieced
    requires { HoldsItem m buf.old text.old start × (phase_bounds phase m.len ≡ true) }
    ensures { (pieced result buf.new text.new ≡ calls.end_stage (state_of m buf.old) (Stage.Busy start phase))
        × (text.new ≡ calls.text_after (calls.end_stage (state_of m buf.old) (Stage.Busy start phase)).what text.old) }
{
    let len = m.len;
    if m.part.count != 0 {
        return at_end(stop(m, NOT_UTF8, m.at));
    }
    let what = finish(phase, &buf[..len]);
    at_end(ends(m, buf, text, start, what, None))
}

// An end call on a whole buffer.
fn read_end(m: Marks, buf: &mut [u8], text: &mut [u8]) -> Pieced
    requires { length buf.old ≡ longest }
    ensures { (pieced result buf.new text.new ≡ calls.end_of (state_of m buf.old) (length text.old))
        × (text.new ≡ calls.text_after (calls.end_of (state_of m buf.old) (length text.old)).what text.old) }
{
    if !in_bounds(m) {
        return refuse(m, OUT_OF_BOUNDS, 0);
    }
    if text.len() < LONGEST {
        return refuse(m, LITTLE_TEXT, 0);
    }
    let stage = m.stage;
    match stage {
        Stage::Opening => end_idle(declare(m)),
        Stage::Pound => end_item(declare(m), buf, text, 0, Phase::AfterHash),
        Stage::FirstLine => end_idle(declare(m)),
        Stage::Idle => end_idle(declare(m)),
        Stage::Busy(start, phase) => end_item(declare(m), buf, text, start, phase),
        Stage::Waiting(start, b) => give_waiting(declare(m), buf, text, start, b),
        Stage::Stopped(number, place) => refuse(m, number, place),
    }
}

// An end call with the buffer as an array. Internal: it asks what every array of 4,096 bytes meets.
fn end_in(m: Marks, buf: &mut [u8; LONGEST], text: &mut [u8]) -> Pieced
    requires { length buf.old ≡ longest }
    ensures { (pieced result buf.new text.new ≡ calls.end_of (state_of m buf.old) (length text.old))
        × (text.new ≡ calls.text_after (calls.end_of (state_of m buf.old) (length text.old)).what text.old) }
{
    read_end(m, buf, text)
}

// A piece call with the buffer lent; 27 where its length is not a buffer's.
pub fn piece_call(m: Marks, buf: &mut [u8], piece: &[u8], text: &mut [u8]) -> Pieced
    ensures { (pieced result buf.new text.new ≡ piece_in m buf.old piece.now (length text.old))
        × (text.new ≡ calls.text_after (piece_in m buf.old piece.now (length text.old)).what text.old) }
{
    if buf.len() != LONGEST {
        return refuse(m, OUT_OF_BOUNDS, 0);
    }
    read_piece(m, buf, piece, text)
}

// An end call with the buffer lent; 27 where its length is not a buffer's.
pub fn end_call(m: Marks, buf: &mut [u8], text: &mut [u8]) -> Pieced
    ensures { (pieced result buf.new text.new ≡ end_in m buf.old (length text.old))
        × (text.new ≡ calls.text_after (end_in m buf.old (length text.old)).what text.old) }
{
    if buf.len() != LONGEST {
        return refuse(m, OUT_OF_BOUNDS, 0);
    }
    read_end(m, buf, text)
}

// Reads on in a piece: takes the fewest bytes of it that make an item ready, or all of them.
pub fn piece(state: State, piece: &[u8], text: &mut [u8]) -> Answer
    ensures { (answered result text.new ≡ calls.piece_of state piece.now (length text.old))
        × (text.new ≡ calls.text_after (calls.piece_of state piece.now (length text.old)).what text.old) }
{
    let mut next = state;
    let r = piece_in(next.marks, &mut next.buf, piece, text);
    next.marks = r.marks;
    Answer {
        state: next,
        taken: r.taken,
        got: r.got,
    }
}

// Declares the end of the text: gives the next item, or says that all were given.
pub fn end(state: State, text: &mut [u8]) -> Answer
    ensures { (answered result text.new ≡ calls.end_of state (length text.old))
        × (text.new ≡ calls.text_after (calls.end_of state (length text.old)).what text.old) }
{
    let mut next = state;
    let r = end_in(next.marks, &mut next.buf, text);
    next.marks = r.marks;
    Answer {
        state: next,
        taken: r.taken,
        got: r.got,
    }
}
