// The whole-text call: all items of a source, counted first where they might not fit, then written.
ghost use Rattle.std.specs.Prelude.{◌≡◌, ◌*◌, ◌/◌, ◌^◌, ◌≤◌, ◌<◌, length, None};
ghost use Rattle.laws.specs.Lent.{written};
ghost use Rattle.chars.specs.Utf8.{first_bad};
ghost use Rattle.items.specs.Items.{range, records, record_words, texts};
ghost use Rattle.items.specs.Whole.{call, deliver, limit, read_of};
ghost use Rattle.meaning.specs.Places.{range_of};
ghost use Rattle.meaning.specs.Records.{nine_for, TextFits};
ghost use Rattle.lexer.specs.Reading.{all_items};
ghost use Rattle.lexer.specs.Answers.{answer_of};
ghost use Rattle.lexer.specs.Inner.{needed_of, quotes_of, bytes_for, free_after, deep_at, Few};
ghost use Rattle.lexer.specs.Writing.{Counts, Further, Amid, ToldOn, told_to};

use crate::glance::{quick_at, quick_rare, skim_at};
use crate::opening::{OUTSIDE, open};
use crate::reading::{next_item, past_blanks, stand};
use crate::{CountedTo, Needed, ReadError, Spot, Wrote};
use escapes::decode;
use items::kinds::{IN_MEMORY, STRING_LITERAL};
use items::{Nine, QUOTE_LENGTH, Quotes, RECORD_WORDS, Record};
use items_telling::Quick;
use meaning::records::{depth_after, nine_of, put};
use meaning::{Means, Range};

// The quotes of an item with decoded text, by its kind.
fn quotes(kind: u32) -> Quotes
    ensures { result ≡ quotes_of kind }
{
    if kind == STRING_LITERAL {
        return Quotes::Double;
    }
    Quotes::Lines
}

// The first free byte of the text memory after an item.
pub fn free_after(free: usize, r: Nine) -> usize
    ensures { result ≡ free_after free r }
{
    if r.source == IN_MEMORY {
        return r.past as usize;
    }
    free
}

// The decoded text of an item, if it has one, into the text memory that is still free.
pub fn put_text(source: &[u8], r: Nine, free: &mut [u8])
    requires { (r.start < r.end) × (r.end ≤ length source.now) × (length (bytes_for source.now r) ≤ length free.old) }
    ensures { free.new ≡ written (bytes_for source.now r) free.old }
{
    if r.source == IN_MEMORY {
        let start = r.start as usize;
        let end = r.end as usize;
        decode(&source[start..end], QUOTE_LENGTH, quotes(r.kind), free);
    }
}

// Counts the items from a spot on, behind those counted before, as far as one look tells where each ends: none has a decoded text. Where it
// stops there is no blank of ASCII.
fn count_told(source: &[u8], p: Spot, from: usize) -> CountedTo
    requires { (length source.now ≤ limit) × Counts source.now p from × (first_bad source.now ≡ None) }
    ensures { Further source.now p from (told_to p result.at from result.items) result.items }
{
    let mut n = from;
    let mut at = past_blanks(source, p.at);
    while at < source.len() {
        match skim_at(source, p.report, p.skip, at) {
            Some(end) => {
                n += 1;
                at = past_blanks(source, end);
            }
            None => {
                return CountedTo { at: at, items: n };
            }
        }
    }
    CountedTo { at: at, items: n }
}

// The spot that a counting or a writing got to from another one, by the place and by what was counted or written before and now.
fn spot_past(p: Spot, at: usize, before: usize, now: usize) -> Spot
    ensures { result ≡ told_to p at before now }
{
    if now == before {
        return stand(p, at, p.second);
    }
    stand(p, at, false)
}

// The items from a spot on of a good text, and the bytes of their decoded texts.
pub fn count(source: &[u8], spot: Spot) -> Needed
    requires { (length source.now ≤ limit) × (first_bad source.now ≡ None) }
    ensures { result ≡ needed_of (all_items source.now spot) }
{
    let mut p = spot;
    let mut free: usize = 0;
    let mut n: usize = 0;
    loop {
        let told = count_told(source, p, n);
        if source.len() <= told.at {
            return Needed {
                items: told.items,
                text: free,
            };
        }
        p = spot_past(p, told.at, n, told.items);
        n = told.items;
        let Some(found) = next_item(source, p, free) else {
            return Needed {
                items: n,
                text: free,
            };
        };
        n += 1;
        free = free_after(free, found.nine);
        p = found.after;
    }
}

// The record of an item that one look told: its place is its extent.
fn record_at(m: Means, start: usize, end: usize, free: usize, depth: u32) -> Record
    requires { (start < 2 ^ 32) × (end < 2 ^ 32) × TextFits free m.text }
    ensures { result ≡ deep_at depth (nine_for free m (range_of (range start end)) (range_of (range start end))) }
{
    let extent = Range {
        from: start as u32,
        to: end as u32,
    };
    Record {
        nine: nine_of(m, extent, extent, free),
        depth: depth,
    }
}

// Writes the records of the items from a spot on, from a word of the records on, as far as one look tells each: none has a decoded text. Where
// it stops there is no blank of ASCII.
fn put_told(source: &[u8], p: Spot, recs: &mut [u32], free: usize, from: usize, deep: u32) -> Wrote
    requires { (length source.now ≤ limit) × Amid source.now p recs.old free deep from × (first_bad source.now ≡ None) }
    ensures { ToldOn source.now p recs.old free deep from result.at recs.new result.depth result.words }
{
    let mut depth = deep;
    let mut w = from;
    let mut at = past_blanks(source, p.at);
    while at < source.len() {
        match quick_at(source, p.report, p.skip, at) {
            Quick::Item(m, start, end) => {
                put(&mut recs[w..], record_at(m, start, end, free, depth));
                w += RECORD_WORDS;
                at = past_blanks(source, end);
            }
            Quick::Bracket(m, start, end) => {
                put(&mut recs[w..], record_at(m, start, end, free, depth));
                depth = depth_after(m.kind, depth);
                w += RECORD_WORDS;
                at = past_blanks(source, end);
            }
            Quick::Other => {
                return Wrote {
                    at: at,
                    words: w,
                    depth: depth,
                };
            }
        }
    }
    Wrote {
        at: at,
        words: w,
        depth: depth,
    }
}

// As `put_told`, for what `quick_rare` tells.
fn put_rare(source: &[u8], p: Spot, recs: &mut [u32], free: usize, from: usize, deep: u32) -> Wrote
    requires { (length source.now ≤ limit) × Amid source.now p recs.old free deep from × (first_bad source.now ≡ None) }
    ensures { ToldOn source.now p recs.old free deep from result.at recs.new result.depth result.words }
{
    let mut w = from;
    let mut at = p.at;
    while at < source.len() {
        match quick_rare(source, p.report, at) {
            Quick::Item(m, start, end) => {
                put(&mut recs[w..], record_at(m, start, end, free, deep));
                w += RECORD_WORDS;
                at = past_blanks(source, end);
            }
            _ => {
                return Wrote {
                    at: at,
                    words: w,
                    depth: deep,
                };
            }
        }
    }
    Wrote {
        at: at,
        words: w,
        depth: deep,
    }
}

// As `put_told`, for all that one of the two looks tells.
fn put_known(source: &[u8], p: Spot, recs: &mut [u32], free: usize, from: usize, deep: u32) -> Wrote
    requires { (length source.now ≤ limit) × Amid source.now p recs.old free deep from × (first_bad source.now ≡ None) }
    ensures { ToldOn source.now p recs.old free deep from result.at recs.new result.depth result.words }
{
    let mut got = Wrote {
        at: p.at,
        words: from,
        depth: deep,
    };
    loop {
        let told = put_told(
            source,
            spot_past(p, got.at, from, got.words),
            recs,
            free,
            got.words,
            got.depth,
        );
        got = put_rare(
            source,
            spot_past(p, told.at, from, told.words),
            recs,
            free,
            told.words,
            told.depth,
        );
        if got.words == told.words {
            return got;
        }
    }
}

// What so many words of records and bytes of text are.
fn taken(words: usize, bytes: usize) -> Needed
    ensures { result ≡ record { items = words / record_words; text = bytes } }
{
    Needed {
        items: words / RECORD_WORDS,
        text: bytes,
    }
}

// Writes the records of the items from a spot on of a good text, and their decoded texts; answers how many records and bytes those are.
pub fn write(source: &[u8], spot: Spot, recs: &mut [u32], text: &mut [u8]) -> Needed
    requires source_len_bound { (length source.now ≤ limit) × (first_bad source.now ≡ None) }
    requires spot_in_bounds { record_words * length (all_items source.now spot) ≤ length recs.old }
    requires spot_in_bounds_2 { length (texts (all_items source.now spot)) ≤ length text.old }
    ensures value { result ≡ needed_of (all_items source.now spot) }
    ensures recs_after { recs.new ≡ written (records 0 0 (all_items source.now spot)) recs.old }
    ensures text_after { text.new ≡ written (texts (all_items source.now spot)) text.old }
{
    let mut p = spot;
    let mut free: usize = 0;
    let mut depth: u32 = OUTSIDE;
    let mut w: usize = 0;
    loop {
        let told = put_known(source, p, recs, free, w, depth);
        if source.len() <= told.at {
            return taken(told.words, free);
        }
        p = spot_past(p, told.at, w, told.words);
        w = told.words;
        depth = told.depth;
        let Some(found) = next_item(source, p, free) else {
            return taken(w, free);
        };
        let r = found.nine;
        let row = Record {
            nine: r,
            depth: depth,
        };
        put(&mut recs[w..], row);
        put_text(source, r, &mut text[free..]);
        depth = depth_after(r.kind, depth);
        w += RECORD_WORDS;
        free = free_after(free, r);
        p = found.after;
    }
}

// The items from a spot on into lent memory, if they fit: they are counted first.
fn deliver_counted(
    source: &[u8],
    spot: Spot,
    recs: &mut [u32],
    text: &mut [u8],
) -> Result<Needed, ReadError>
    requires { (length source.now ≤ limit) × (first_bad source.now ≡ None) }
    ensures { call (answer_of result) recs.new text.new ≡ deliver (all_items source.now spot) recs.old text.old }
{
    let needed = count(source, spot);
    if recs.len() / RECORD_WORDS < needed.items || text.len() < needed.text {
        return Err(ReadError::NoRoom(needed));
    }
    write(source, spot, recs, text);
    Ok(needed)
}

// The items from a spot on into lent memory, if they fit. Where there is a record and a byte of text memory for each byte of the
// source they do, and nothing is counted.
fn deliver(
    source: &[u8],
    spot: Spot,
    recs: &mut [u32],
    text: &mut [u8],
) -> Result<Needed, ReadError>
    requires { (length source.now ≤ limit) × Few source.now (all_items source.now spot) × (first_bad source.now ≡ None) }
    ensures { call (answer_of result) recs.new text.new ≡ deliver (all_items source.now spot) recs.old text.old }
{
    if recs.len() / RECORD_WORDS < source.len() || text.len() < source.len() {
        return deliver_counted(source, spot, recs, text);
    }
    Ok(write(source, spot, recs, text))
}

// All items of a source: their records, and their decoded texts, in lent memory. Mode 0 is plain and 1 report; comments are left out
// where `skip` is true.
pub fn read(
    source: &[u8],
    mode: u32,
    skip: bool,
    recs: &mut [u32],
    text: &mut [u8],
) -> Result<Needed, ReadError>
    ensures { call (answer_of result) recs.new text.new ≡ read_of source.now mode skip recs.old text.old }
{
    let position = open(source, mode, skip)?;
    deliver(source, position.spot, recs, text)
}
