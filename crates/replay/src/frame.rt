// The frames of the list: compare/replay/src/frame.rs says what the bytes of a head are.

use inputs::read_full;
use std::io;
use std::io::Read;

// How many bytes a head has.
pub const HEAD: usize = 22;

// What a head says.
#[derive(Clone, Copy)]
pub struct FrameHead {
    // it is told of the whole-text call, and of the piece calls
    pub whole: bool,
    pub pieces: bool,
    // comments are skipped
    pub skip: bool,
    pub mode: u32,
    // 0, or the number of a refusal or of a stop
    pub answer: u32,
    // how many bytes the text, the words and the text memory have
    pub source: usize,
    pub words: usize,
    pub memory: usize,
    // how many words of records and bytes of text memory the whole-text call is lent
    pub records: usize,
    pub text: usize,
    // what the answer comes with
    pub first: u32,
    pub second: u32,
}

// What a frame is told of, where that is one of the two alone.
const WHOLE_ALONE: u8 = 1;

const PIECES_ALONE: u8 = 2;

// A word below this is spelled as a byte; any other as this and its four bytes.
const LONG_WORD: u8 = 255;

// How many bytes such a word has.
const LONG_WORD_BYTES: usize = 5;

// A word that is spelled, and the place past it.
#[derive(Clone, Copy)]
struct Spelled {
    word: u32,
    past: usize,
}

// The number of two bytes, the lowest first.
fn pair(low: u8, high: u8) -> usize {
    usize::from(u16::from_le_bytes([low, high]))
}

// A head, of its bytes.
pub(crate) fn head(b: &[u8; HEAD]) -> FrameHead {
    FrameHead {
        whole: b[2] != PIECES_ALONE,
        pieces: b[2] != WHOLE_ALONE,
        skip: b[0] == 1,
        mode: u32::from(b[1]),
        answer: u32::from(b[3]),
        source: pair(b[4], b[5]),
        words: pair(b[6], b[7]),
        memory: pair(b[8], b[9]),
        records: pair(b[10], b[11]),
        text: pair(b[12], b[13]),
        first: u32::from_le_bytes([b[14], b[15], b[16], b[17]]),
        second: u32::from_le_bytes([b[18], b[19], b[20], b[21]]),
    }
}

// Reads so many bytes to the front of a slice; whether they were there and fit.
pub(crate) fn fill(file: &mut impl Read, to: &mut [u8], n: usize) -> io::Result<bool> {
    if n == 0 {
        return Ok(true);
    }
    if to.len() < n {
        return Ok(false);
    }
    Ok(read_full(file, &mut to[..n])? == n)
}

// The word spelled from a place on, and the place past it; 0 and the end where the bytes end before it does.
fn word_at(told: &[u8], at: usize) -> Spelled {
    let none = Spelled {
        word: 0,
        past: told.len(),
    };
    if told.len() <= at {
        return none;
    }
    if told[at] < LONG_WORD {
        return Spelled {
            word: u32::from(told[at]),
            past: at + 1,
        };
    }
    if told.len() - at < LONG_WORD_BYTES {
        return none;
    }
    Spelled {
        word: u32::from_le_bytes([told[at + 1], told[at + 2], told[at + 3], told[at + 4]]),
        past: at + LONG_WORD_BYTES,
    }
}

// Whether the words spelled are those of the records, all of them.
pub(crate) fn same_words(told: &[u8], records: &[u32]) -> bool {
    let mut at: usize = 0;
    for record in records {
        let spelled = word_at(told, at);
        if spelled.word != *record {
            return false;
        }
        at = spelled.past;
    }
    at == told.len()
}

// Writes the words spelled, as far as there is room; how many there are.
pub(crate) fn spell_out(told: &[u8], words: &mut [u32]) -> usize {
    let mut at: usize = 0;
    for (n, word) in words.iter_mut().enumerate() {
        if told.len() <= at {
            return n;
        }
        let spelled = word_at(told, at);
        *word = spelled.word;
        at = spelled.past;
    }
    words.len()
}
