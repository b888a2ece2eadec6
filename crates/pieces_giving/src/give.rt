// An item as it is given: its text is copied to the start of the text memory, and its record says so.
ghost use Rattle.std.specs.Prelude.{◌≡◌, [], ◌∷◌, ◌-◌, ◌≤◌, ◌<◌, length, take, drop};
ghost use Rattle.laws.specs.Lent.{written};
ghost use Rattle.meaning.specs.Places.{place_in};
ghost use Rattle.meaning.specs.Records.{nine_with};
ghost use Rattle.pieces.specs.Expected.{longest};
ghost use Rattle.pieces.specs.Calls.{item};
ghost use Rattle.pieces_giving.specs.Answers.{what_of};
ghost use Rattle.pieces_giving.specs.Copied.{quotes_of, copied_by, has_text, given_by};

use escapes::decode;
use items::{Nine, QUOTE_LENGTH, Quotes, Record, kinds};
use meaning::places::place;
use meaning::{Means, Range, Text};
use pieces::Got;

// Copies the bytes of raw to the start of the text memory.
pub fn copy_all(raw: &[u8], text: &mut [u8])
    requires { length raw.now ≤ length text.old }
    ensures { text.new ≡ written raw.now text.old }
{
    for i in 0..raw.len() {
        text[i] = raw[i];
    }
}

// Copies `count` bytes of raw from the place `from` on, or as many as there are, and answers how many.
fn copy_part(raw: &[u8], from: usize, count: usize, text: &mut [u8]) -> usize
    requires { length raw.now ≤ length text.old }
    ensures { (result ≡ length (take count (drop from raw.now)))
        × (text.new ≡ written (take count (drop from raw.now)) text.old) }
{
    let start = from.min(raw.len());
    let copied = count.min(raw.len() - start);
    copy_all(&raw[start..start + copied], text);
    copied
}

// Between which quotes a decoded text of this kind stood.
fn quotes_of(kind: u32) -> Quotes
    ensures { result ≡ quotes_of kind }
{
    if kind == kinds::STRING_LITERAL {
        Quotes::Double
    } else {
        Quotes::Lines
    }
}

// Copies the extent of an item with no text of its own: a number's; else nothing.
fn copy_extent(kind: u32, raw: &[u8], text: &mut [u8]) -> usize
    requires { length raw.now ≤ length text.old }
    ensures { (result ≡ length (copied_by kind 0 raw.now Text.Nowhere))
        × (text.new ≡ written (copied_by kind 0 raw.now Text.Nowhere) text.old) }
{
    if kind == kinds::NUMBER {
        copy_all(raw, text);
        return raw.len();
    }
    0
}

// Copies the text of an item whose extent starts at `start`, and answers how many bytes it is.
fn copy_text(kind: u32, source: Text, start: usize, raw: &[u8], text: &mut [u8]) -> usize
    requires { (0 < length raw.now) × (length raw.now ≤ length text.old) }
    ensures { (result ≡ length (copied_by kind start raw.now source))
        × (text.new ≡ written (copied_by kind start raw.now source) text.old) }
{
    match source {
        Text::Nowhere => copy_extent(kind, raw, text),
        Text::Source(a, b) => copy_part(raw, a.saturating_sub(start), b.saturating_sub(a), text),
        Text::Decoded(_length) => decode(raw, QUOTE_LENGTH, quotes_of(kind), text),
    }
}

// Whether an item has text in the text memory: its own, or a number's extent.
fn has_text(kind: u32, source: Text) -> bool
    ensures { result ≡ has_text kind source }
{
    match source {
        Text::Nowhere => kind == kinds::NUMBER,
        Text::Source(_, _) | Text::Decoded(_) => true,
    }
}

// The record of an item with so many bytes of text in the text memory.
fn record_with(m: Means, extent: Range, place: Range, source: u32, past: u32, depth: u32) -> Record
    ensures { result ≡ record { nine = nine_with (m.kind ∷ m.detail ∷ extent.from ∷ extent.to ∷ place.from ∷ place.to ∷ source ∷ 0 ∷ past ∷ []); depth = depth } }
{
    Record {
        nine: Nine {
            kind: m.kind,
            detail: m.detail,
            start: extent.from,
            end: extent.to,
            from: place.from,
            to: place.to,
            source,
            first: 0,
            past,
        },
        depth,
    }
}

// Gives an item: its text in the text memory, and its record. `last` is the error range that stands, its own counted in.
pub fn give(
    depth: u32,
    report: bool,
    m: Means,
    last: Range,
    extent: Range,
    raw: &[u8],
    text: &mut [u8],
) -> Record
    requires { (0 < length raw.now) × (length raw.now ≤ longest) × (longest ≤ length text.old) }
    ensures { (what_of (Got.Item result) text.new ≡ item (given_by depth report m (place_in last) extent.from extent.to raw.now))
        × (text.new ≡ written (given_by depth report m (place_in last) extent.from extent.to raw.now).text text.old) }
{
    let kind = m.kind;
    let source = m.text;
    let copied = copy_text(kind, source, extent.from as usize, raw, text);
    let at = place(report, kind, last, extent);
    if has_text(kind, source) {
        return record_with(m, extent, at, kinds::IN_MEMORY, copied as u32, depth);
    }
    record_with(m, extent, at, kinds::NO_TEXT, 0, depth)
}
