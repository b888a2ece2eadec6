// The text call: the text of a record, handed back as a part of the source or of the text memory.
ghost use Rattle.std.specs.Prelude.{◌≡◌};
ghost use Rattle.lexer.specs.Text.{LentAs, text_in, text_mark};

use items::kinds::{IN_MEMORY, IN_SOURCE};
use refusal::OUT_OF_BOUNDS;

// The mark of a text that is there.
const TEXT_THERE: u32 = 0;

// The text of a record, by its three words for it (origin is its text source word, 1 the source and 2 the text memory): a part of one of
// the two slices; there is none for another origin, and where the places go back or pass that slice.
fn lent<'a>(source: &'a [u8], text: &'a [u8], origin: u32, start: u32, end: u32) -> Option<&'a [u8]>
    ensures { LentAs source.now text.now origin start end result }
{
    let part = start as usize..end as usize;
    match origin {
        IN_SOURCE => source.get(part),
        IN_MEMORY => text.get(part),
        _ => None,
    }
}

// The text of a record, by the same words, or an empty part where the mark is 27.
pub fn text_of<'a>(source: &'a [u8], text: &'a [u8], origin: u32, start: u32, end: u32) -> &'a [u8]
    ensures { result.now ≡ text_in source.now text.now origin start end }
{
    match lent(source, text, origin, start, end) {
        Some(part) => part,
        None => &source[..0],
    }
}

// The mark of the text call: 0, or 27.
pub fn text_mark(source: &[u8], text: &[u8], origin: u32, start: u32, end: u32) -> u32
    ensures { result ≡ text_mark source.now text.now origin start end }
{
    match lent(source, text, origin, start, end) {
        Some(_) => TEXT_THERE,
        None => OUT_OF_BOUNDS,
    }
}

// Both in one call: the text is the result, the mark is written where the caller lends a number.
pub fn text_and_mark<'a>(
    source: &'a [u8],
    text: &'a [u8],
    origin: u32,
    start: u32,
    end: u32,
    mark: &mut u32,
) -> &'a [u8]
    ensures result_value { result.now ≡ text_in source.now text.now origin start end }
    ensures mark_after { mark.new ≡ text_mark source.now text.now origin start end }
{
    *mark = text_mark(source, text, origin, start, end);
    text_of(source, text, origin, start, end)
}
