// What the list tells of a text, against what the proved calls answer.
use crate::cut;
use crate::frame::{FrameHead, same_words};
use lexer::{Needed, ReadError};
use pieces_cuttings::Cutting;
use refusal::{LIMIT_VALUE, NO_MODE, NOT_UTF8, SERVED, TOO_FEW, TOO_LONG};

// What comes of a frame.
#[derive(Clone, Copy)]
pub enum Verdict {
    Met,
    // the whole-text call answers something else
    Whole,
    // the piece calls do, handed a byte at a time
    Bytes,
    // they do, handed 0 to 4 bytes at a time
    Pieces,
    // it tells of more bytes than there are
    Broken,
}

// Whether a frame tells this answer, with these values.
fn tells(f: FrameHead, answer: u32, first: u64, second: u64) -> bool {
    f.answer == answer && f.first as u64 == first && f.second as u64 == second
}

// Whether a frame tells an answer.
fn told(f: FrameHead, answer: Result<Needed, ReadError>) -> bool {
    match answer {
        Ok(done) => tells(f, SERVED, done.items as u64, done.text as u64),
        Err(ReadError::NoMode(mode)) => tells(f, NO_MODE, mode as u64, 0),
        Err(ReadError::TooLong) => tells(f, TOO_LONG, LIMIT_VALUE, 0),
        Err(ReadError::NotUtf8(at)) => tells(f, NOT_UTF8, at as u64, 0),
        Err(ReadError::NoRoom(needed)) => {
            tells(f, TOO_FEW, needed.items as u64, needed.text as u64)
        }
    }
}

// Whether the whole-text call answers what a frame tells, and writes the words and the text memory that it tells.
fn whole(
    f: FrameHead,
    source: &[u8],
    words: &[u8],
    memory: &[u8],
    records: &mut [u32],
    text: &mut [u8],
) -> bool {
    let answer = lexer::read(source, f.mode, f.skip, records, text);
    told(f, answer)
        && (f.answer != SERVED || same_words(words, records) && byte_runs::equal(memory, text))
}

// A byte at a time.
const BYTES: Cutting = Cutting {
    first: 1,
    low: 1,
    high: 1,
};

// An empty piece, one of a byte, and so on to four bytes, again and again.
const MIXED: Cutting = Cutting {
    first: 0,
    low: 0,
    high: 4,
};

// What comes of a frame with the piece calls, if it is told of them.
fn in_pieces(f: FrameHead, source: &[u8], words: &[u8], memory: &[u8]) -> Verdict {
    if !f.pieces {
        return Verdict::Met;
    }
    if !cut::frame(f, source, words, memory, BYTES) {
        return Verdict::Bytes;
    }
    if !cut::frame(f, source, words, memory, MIXED) {
        return Verdict::Pieces;
    }
    Verdict::Met
}

// What comes of a frame, by the calls that it is told of.
fn judged(
    f: FrameHead,
    source: &[u8],
    words: &[u8],
    memory: &[u8],
    records: &mut [u32],
    text: &mut [u8],
) -> Verdict {
    if !f.whole {
        return in_pieces(f, source, words, memory);
    }
    if !whole(f, source, words, memory, records, text) {
        return Verdict::Whole;
    }
    in_pieces(f, source, words, memory)
}

// What comes of a frame. The slices are longer than what it has of each.
pub(crate) fn frame(
    f: FrameHead,
    source: &[u8],
    words: &[u8],
    memory: &[u8],
    records: &mut [u32],
    text: &mut [u8],
) -> Verdict {
    if source.len() < f.source
        || words.len() < f.words
        || memory.len() < f.memory
        || records.len() < f.records
        || text.len() < f.text
    {
        return Verdict::Broken;
    }
    judged(
        f,
        &source[..f.source],
        &words[..f.words],
        &memory[..f.memory],
        &mut records[..f.records],
        &mut text[..f.text],
    )
}
