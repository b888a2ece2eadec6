// Parts of memory: bytes copied, a record of words, a part of a text.
ghost use Rattle.std.specs.Prelude.{◌≡◌, length, take};
ghost use Rattle.laws.specs.Lent.{written};
ghost use Rattle.pieces_cuttings.specs.Parts.{part_of, record_at};

use items::{Nine, RECORD_WORDS, Record};

// Copies one slice to the front of another, as far as it has room.
pub fn copy(from: &[u8], to: &mut [u8])
    ensures { to.new ≡ written (take (length to.old) from.now) to.old }
{
    let count = from.len().min(to.len());
    to[..count].copy_from_slice(&from[..count]);
}

// The record at so many records from the start; an empty one where there is none.
pub fn record_at(words: &[u32], n: usize) -> Record
    ensures { result ≡ record_at words.now n }
{
    if words.len() / RECORD_WORDS <= n {
        return Record {
            nine: Nine {
                kind: 0,
                detail: 0,
                start: 0,
                end: 0,
                from: 0,
                to: 0,
                source: 0,
                first: 0,
                past: 0,
            },
            depth: 0,
        };
    }
    let at = n * RECORD_WORDS;
    Record {
        nine: Nine {
            kind: words[at],
            detail: words[at + 1],
            start: words[at + 2],
            end: words[at + 3],
            from: words[at + 4],
            to: words[at + 5],
            source: words[at + 6],
            first: words[at + 7],
            past: words[at + 8],
        },
        depth: words[at + 9],
    }
}

// The part of a text between two places, or an empty part.
pub fn part(source: &[u8], from: usize, to: usize) -> &[u8]
    ensures { result.now ≡ part_of source.now from to }
{
    if to < from {
        return &source[..0];
    }
    if source.len() < to {
        return &source[..0];
    }
    &source[from..to]
}
