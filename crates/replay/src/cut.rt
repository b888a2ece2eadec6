// What the list tells of a text, against what the piece calls give under a cutting.
use crate::MEMORY_ROOM;
use crate::frame::{FrameHead, spell_out};
use items::kinds::{IN_MEMORY, IN_SOURCE, NO_TEXT, NUMBER};
use items::{Nine, RECORD_WORDS, Record};
use pieces_cuttings::{Cutting, Ending, Reading, part, record_at};
use refusal::SERVED;

// The first byte of a character has at least this where the character has two, three and four bytes.
const OF_TWO: u8 = 0xC0;

const OF_THREE: u8 = 0xE0;

const OF_FOUR: u8 = 0xF0;

// How many bytes a character has that starts with this byte.
fn width(first: u8) -> usize {
    if first < OF_TWO {
        return 1;
    }
    if first < OF_THREE {
        return 2;
    }
    if first < OF_FOUR {
        return 3;
    }
    4
}

// How many bytes have been taken when the item that ends at a place is given: the character beyond it has been read, or all.
fn ready_at(source: &[u8], end: usize) -> usize {
    if source.len() <= end {
        return source.len();
    }
    std::num::wrapping_add_usize(end, width(source[end]))
}

// Where the piece calls have the text of an item that is told: in the text memory, if there is one.
fn text_source(told: Nine) -> u32 {
    if told.kind == NUMBER {
        return IN_MEMORY;
    }
    if told.source == NO_TEXT {
        return NO_TEXT;
    }
    IN_MEMORY
}

// Whether two records have the same kind, detail, extent and place.
fn same_item(a: Nine, b: Nine) -> bool {
    a.kind == b.kind
        && a.detail == b.detail
        && a.start == b.start
        && a.end == b.end
        && a.from == b.from
        && a.to == b.to
}

// Whether a text is that of an item that is told. A number's is its extent.
fn same_text(told: Nine, text: &[u8], source: &[u8], memory: &[u8]) -> bool {
    if told.kind == NUMBER {
        return byte_runs::equal(text, part(source, told.start as usize, told.end as usize));
    }
    if told.source == IN_SOURCE {
        return byte_runs::equal(text, part(source, told.first as usize, told.past as usize));
    }
    byte_runs::equal(text, part(memory, told.first as usize, told.past as usize))
}

// Whether an item is the one told: its words, its text, and the byte that it came with.
fn met(
    told: Record,
    given: Record,
    text: &[u8],
    count: usize,
    source: &[u8],
    memory: &[u8],
) -> bool {
    let nine = given.nine;
    same_item(told.nine, nine)
        && nine.source == text_source(told.nine)
        && nine.first == 0
        && given.depth == told.depth
        && same_text(told.nine, text, source, memory)
        && count == ready_at(source, told.nine.end as usize)
}

// Whether the items given are those told, of which there are so many words.
fn all_met(
    told: &[u32],
    source: &[u8],
    memory: &[u8],
    items: usize,
    records: &[u32],
    counts: &[usize],
    texts: &[u8],
) -> bool {
    let mut at: usize = 0;
    for n in 0..items {
        let Some(count) = counts.get(n) else {
            return false;
        };
        let given = record_at(records, n);
        let next = std::num::wrapping_add_usize(at, given.nine.past as usize);
        if !met(
            record_at(told, n),
            given,
            part(texts, at, next),
            *count,
            source,
            memory,
        ) {
            return false;
        }
        at = next;
    }
    true
}

// Whether a reading ends as a frame tells: with all items given, or with a stop and its place.
fn ended(f: FrameHead, r: Reading) -> bool {
    if !r.kept {
        return false;
    }
    match r.ending {
        None => false,
        Some(Ending::Finished) => f.answer == SERVED,
        Some(Ending::Refused(refusal, place)) => {
            refusal == f.answer && place == f.first as usize
        }
    }
}

// Whether the piece calls give under a cutting what a frame tells.
pub(crate) fn frame(
    f: FrameHead,
    source: &[u8],
    words: &[u8],
    memory: &[u8],
    cutting: Cutting,
) -> bool {
    let mut told = [0u32; MEMORY_ROOM];
    let mut records = [0u32; MEMORY_ROOM];
    let mut counts = [0usize; MEMORY_ROOM];
    let mut texts = [0u8; MEMORY_ROOM];
    let n = spell_out(words, &mut told);
    let r = pieces_cuttings::read(
        source,
        cutting,
        f.mode,
        f.skip,
        &mut records,
        &mut counts,
        &mut texts,
    );
    ended(f, r)
        && n / RECORD_WORDS == r.items
        && all_met(&told, source, memory, r.items, &records, &counts, &texts)
}
