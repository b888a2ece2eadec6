// The index of a text that comes in pieces, with a state that the caller keeps: LINE_STATE_WORDS words that a call reads, hands to the step by value,
// and writes anew. The state is numbers alone, so it can stand in the memory of a program in any language.
//
// The crate lines, specs/Words, says which words stand for which state and what the calls leave; docs/STATE.md lists the words.
ghost use Rattle.std.specs.Prelude.{◌≡◌, true, length};
ghost use Rattle.laws.specs.Lent.{written};
ghost use Rattle.lines.specs.Starts.{told_of};
ghost use Rattle.lines.specs.Words.{state_words, listed, state_in, is_a_state, contents, open_left, piece_left, end_for};

use crate::pieces;
use chars::Begun;
use lines::{LineState, LinesError};

// How many words a state has.
const LINE_STATE_WORDS: usize = 8;

// The words of a character begun but its code are bytes.
const BYTE_TOP: u32 = 255;

// Whether words are a state's.
fn is_state(words: &[u32]) -> bool
    ensures { result ≡ is_a_state words.now }
{
    words.len() == LINE_STATE_WORDS
        && words[0] <= BYTE_TOP
        && words[1] <= BYTE_TOP
        && words[2] <= BYTE_TOP
}

// The state that words stand for.
fn state_in(words: &[u32]) -> LineState
    requires { is_a_state words.now ≡ true }
    ensures { result ≡ state_in words.now }
{
    let begun = Begun {
        need: words[0] as u8,
        low: words[1] as u8,
        high: words[2] as u8,
        code: words[3],
    };
    LineState {
        begun,
        from: words[4],
        at: words[5],
        lines: words[6],
        stop: words[7],
    }
}

// Writes a state's words.
fn put_state(words: &mut [u32], t: LineState)
    requires { length words.old ≡ state_words }
    ensures { words.new ≡ written (listed t) words.old }
{
    let begun = t.begun;
    words[0] = begun.need as u32;
    words[1] = begun.low as u32;
    words[2] = begun.high as u32;
    words[3] = begun.code;
    words[4] = t.from;
    words[5] = t.at;
    words[6] = t.lines;
    words[7] = t.stop;
}

// Opens an index. Words that are not a state's in number stay, with the memory; the end says so.
pub fn open(words: &mut [u32], index: &mut [u32])
    ensures { contents words.new index.new ≡ open_left words.old index.old }
{
    if words.len() == LINE_STATE_WORDS {
        let t = pieces::open(index);
        put_state(words, t);
    }
}

// A piece of the text. A state outside its bounds stays, with the memory.
pub fn piece(words: &mut [u32], bytes: &[u8], index: &mut [u32])
    ensures { contents words.new index.new
        ≡ piece_left words.old bytes.now index.old }
{
    if is_state(words) {
        let t = pieces::piece(state_in(words), bytes, index);
        put_state(words, t);
    }
}

// The declared end: the index is built, or why not.
pub fn end(words: &[u32], index: &[u32]) -> Result<usize, LinesError>
    ensures { told_of result ≡ end_for words.now (length index.now) }
{
    if is_state(words) {
        return pieces::end(state_in(words), index);
    }
    Err(LinesError::OutOfBounds)
}
