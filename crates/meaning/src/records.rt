// Records: ten words to an item, nine by document 01's "An item" and its depth.
ghost use Rattle.std.specs.Prelude.{◌≡◌, ◌&&◌, [], ◌∷◌, ◌≤◌, eqb, length};
ghost use Rattle.laws.specs.Lent.{written};
ghost use Rattle.items.specs.Kinds as kind;
ghost use Rattle.items.specs.Items.{depth_after, record_words, words_of};
ghost use Rattle.meaning.specs.Records.{nine_with, nine_for, TextFits};

use crate::{Means, Range, Text};
use items::kinds::{IN_MEMORY, IN_SOURCE, NO_TEXT};
use items::{Nine, RECORD_WORDS, Record, kinds};

// How many open brackets a word can tell.
const MOST_OPEN: u32 = 0xFFFF_FFFF;

fn with_text(m: Means, extent: Range, place: Range, source: u32, start: u32, end: u32) -> Nine
    ensures { result ≡ nine_with (m.kind ∷ m.detail ∷ extent.from ∷ extent.to ∷ place.from ∷ place.to ∷ source ∷ start ∷ end ∷ []) }
{
    Nine {
        kind: m.kind,
        detail: m.detail,
        start: extent.from,
        end: extent.to,
        from: place.from,
        to: place.to,
        source: source,
        first: start,
        past: end,
    }
}

// An item by itself. A decoded text starts at the first free byte of the text memory.
pub fn nine_of(m: Means, extent: Range, place: Range, free: usize) -> Nine
    requires { TextFits free m.text }
    ensures { result ≡ nine_for free m extent place }
{
    let text = m.text;
    match text {
        Text::Nowhere => with_text(m, extent, place, NO_TEXT, 0, 0),
        Text::Source(start, end) => {
            with_text(m, extent, place, IN_SOURCE, start as u32, end as u32)
        }
        Text::Decoded(length) => {
            with_text(
                m,
                extent,
                place,
                IN_MEMORY,
                free as u32,
                (free + length) as u32,
            )
        }
    }
}

// One record, at the start of what is still free.
pub fn put(records: &mut [u32], r: Record)
    requires { record_words ≤ length records.old }
    ensures { records.new ≡ written (words_of r) records.old }
{
    records[0] = r.nine.kind;
    records[1] = r.nine.detail;
    records[2] = r.nine.start;
    records[3] = r.nine.end;
    records[4] = r.nine.from;
    records[5] = r.nine.to;
    records[6] = r.nine.source;
    records[7] = r.nine.first;
    records[8] = r.nine.past;
    records[9] = r.depth;
}

// The depth after an item of a kind, from the depth before it. A close with none open leaves 0. The brackets are the first two kinds, so
// that one test tells most items, which are none.
pub fn depth_after(kind: u32, depth: u32) -> u32
    ensures { result ≡ depth_after kind depth }
{
    if kinds::CLOSE_PAREN < kind {
        return depth;
    }
    if kind == kinds::OPEN_PAREN {
        if depth < MOST_OPEN {
            return depth + 1;
        }
        return depth;
    }
    if depth == 0 {
        return 0;
    }
    depth - 1
}

// Whether an item is left out: a comment, where comments are skipped.
pub fn skips(skip: bool, number: u32) -> bool
    ensures { result ≡ (skip && eqb number kind.Comment) }
{
    if skip {
        return number == kinds::COMMENT;
    }
    false
}
