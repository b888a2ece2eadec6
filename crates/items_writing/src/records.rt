// What is lent: the words of records, and the parts of the source and of the text memory that they name.
ghost use Rattle.std.specs.Prelude.{◌≡◌, true, ◌<◌};
ghost use Rattle.items_writing.specs.Written.{part};
ghost use Rattle.items_writing.specs.Records.{count_of, words_at, records_in, is_whole, is_kind, has_text, text_right, is_right, is_left, judge, text_of, entry_of};
ghost use Rattle.items_writing.specs.Pieces.{body_of, is_extent};

use crate::whole::{is_inside, is_whole};
use crate::{WriteError, WriteWords};
use items::kinds::{IN_MEMORY, IN_SOURCE, NO_TEXT};
use items::{RECORD_WORDS, kinds};

// The record at a place.
pub fn words_at(records: &[u32], p: usize) -> WriteWords
    requires { p < count_of records.now }
    ensures { result ≡ words_at records.now p }
{
    let at = p * RECORD_WORDS;
    WriteWords {
        kind: records[at],
        start: records[at + 2],
        end: records[at + 3],
        origin: records[at + 6],
        first: records[at + 7],
        past: records[at + 8],
    }
}

fn is_kind(k: u32) -> bool
    ensures { result ≡ is_kind k }
{
    k <= kinds::DOT || (kinds::FIRST_ERROR < k && k <= kinds::LAST_ERROR_KIND)
}

fn has_text(k: u32) -> bool
    ensures { result ≡ has_text k }
{
    k == kinds::IDENTIFIER || k == kinds::KEYWORD || k == kinds::STRING_LITERAL
}

// Of a record whose extent is whole characters.
fn text_right(source: &[u8], text: &[u8], w: WriteWords) -> bool
    requires { is_whole source.now w.start w.«end» ≡ true }
    ensures { result ≡ text_right source.now text.now w }
{
    match w.origin {
        IN_SOURCE => {
            is_inside(source, w.start, w.end, w.first, w.past) || is_whole(source, w.first, w.past)
        }
        IN_MEMORY => is_whole(text, w.first, w.past),
        NO_TEXT => !has_text(w.kind),
        _ => false,
    }
}

// Whether the text is all of the extent, as that of a plain name is.
fn is_extent(w: WriteWords) -> bool
    ensures { result ≡ is_extent w }
{
    w.origin == IN_SOURCE && w.first == w.start && w.past == w.end
}

fn is_right(source: &[u8], text: &[u8], w: WriteWords) -> bool
    ensures { result ≡ is_right source.now text.now w }
{
    is_kind(w.kind)
        && is_whole(source, w.start, w.end)
        && (is_extent(w) || text_right(source, text, w))
}

fn is_left(k: u32) -> bool
    ensures { result ≡ is_left k }
{
    kinds::FIRST_ERROR < k || k == kinds::COMMENT
}

// The first record that is refused.
pub fn judge(records: &[u32], source: &[u8], text: &[u8]) -> Result<(), WriteError>
    ensures { result ≡ judge source.now text.now 0 (records_in records.now) }
{
    let count = records.len() / RECORD_WORDS;
    for p in 0..count {
        let w = words_at(records, p);
        if !is_right(source, text, w) {
            return Err(WriteError::Alien(p));
        }
        if is_left(w.kind) {
            return Err(WriteError::Unwritten(p));
        }
    }
    Ok(())
}

// A part of a slice that is there.
fn part(s: &[u8], a: u32, b: u32) -> &[u8]
    requires { is_whole s.now a b ≡ true }
    ensures { result.now ≡ part a b s.now }
{
    let from = a as usize;
    let to = b as usize;
    &s[from..to]
}

// The text of a record that is not refused.
pub fn text_of<'a>(source: &'a [u8], text: &'a [u8], w: WriteWords) -> &'a [u8]
    requires { is_right source.now text.now w ≡ true }
    ensures { result.now ≡ text_of source.now text.now w }
{
    match w.origin {
        IN_SOURCE => part(source, w.first, w.past),
        IN_MEMORY => part(text, w.first, w.past),
        _ => &source[..0],
    }
}

// The bytes that its word is made of.
pub fn body_of<'a>(source: &'a [u8], text: &'a [u8], w: WriteWords) -> &'a [u8]
    requires { is_right source.now text.now w ≡ true }
    ensures { result.now ≡ body_of (entry_of source.now text.now w) }
{
    match w.kind {
        kinds::IDENTIFIER | kinds::STRING_LITERAL => text_of(source, text, w),
        _ => part(source, w.start, w.end),
    }
}
