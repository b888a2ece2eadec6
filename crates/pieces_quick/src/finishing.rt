// The item that ends before a byte: its record and its text, and the spot past the byte.
ghost use Rattle.std.specs.Prelude.{◌≡◌, true, ◌&&◌, eqb, ℕ, ◌+◌, ◌^◌, ◌≤◌, ◌<◌, length};
ghost use Rattle.items.specs.Kinds as kind;
ghost use Rattle.items.specs.Items.{depth_after};
ghost use Rattle.items.specs.Meaning.{escaped};
ghost use Rattle.items.specs.Whole.{limit};
ghost use Rattle.pieces.specs.Expected.{longest};
ghost use Rattle.pieces_spots.specs.Spots.{Firsts};
ghost use Rattle.pieces_quick.specs.Words.{Ready, stood};
ghost use Rattle.pieces_quick.specs.Gives.{recorded, decoded_means, Copying, Copied, Held, Next, Finishes, Finished};

use crate::QuickItem;
use escapes::{decode, has_escape};
use items::kinds::{IN_MEMORY, NO_TEXT};
use items::{Nine, QUOTE_LENGTH, Quotes, Record, kinds};
use items_telling::Quick;
use meaning::records::depth_after;
use meaning::{Means, Text};
use pieces_giving::give::copy_all;
use pieces_lent::Words;
use pieces_lent::codes::{CLOSED, DOUBLE, IDLE, YES};
use pieces_spots::{DETAIL, KIND, KINDS, PieceSpot, first, tell};

// The spot past a byte before which an item ended: a blank is passed, any other byte begins an item.
fn after(s: PieceSpot, b: u8, f: u64, buf: &mut [u8]) -> PieceSpot
    requires { (length buf.old ≡ longest) × (s.at + 1 ≤ limit) × (s.i + 1 < 2 ^ 64) × Firsts b f × (3 ≤ f) }
    ensures { (result.i ≡ s.i + 1)
        × ((w : Words) (left k d : ℕ) → Ready w left → d ≡ depth_after k w.depth → Next w s b k buf.old (stood w result d) buf.new) }
{
    if f == IDLE {
        return PieceSpot {
            stage: IDLE,
            start: 0,
            which: 0,
            detail: 0,
            at: s.at + 1,
            len: 0,
            i: s.i + 1,
        };
    }
    buf[0] = b;
    PieceSpot {
        stage: f % KIND,
        start: s.at,
        which: f / KIND % KINDS,
        detail: f / DETAIL,
        at: s.at + 1,
        len: 1,
        i: s.i + 1,
    }
}

// The record of an item that is no error: its place is its extent.
fn record_of(m: Means, s: PieceSpot, source: u32, past: u32, depth: u32) -> Record
    requires { (s.start ≤ limit) × (s.at ≤ limit) }
    ensures { result ≡ recorded m.kind m.detail s.start s.at source past depth }
{
    let start = s.start as u32;
    let end = s.at as u32;
    Record {
        nine: Nine {
            kind: m.kind,
            detail: m.detail,
            start,
            end,
            from: start,
            to: end,
            source,
            first: 0,
            past,
        },
        depth,
    }
}

// The record of an item without text of its own; a number's text is its extent.
fn bare_record(m: Means, s: PieceSpot, depth: u32, raw: &[u8], text: &mut [u8]) -> Record
    requires { Copying s m raw.now text.old × (m.text ≡ Text.Nowhere) }
    ensures { Copied s m depth raw.now text.old text.new (Some result) }
{
    if m.kind == kinds::NUMBER {
        copy_all(raw, text);
        return record_of(m, s, IN_MEMORY, raw.len() as u32, depth);
    }
    record_of(m, s, NO_TEXT, 0, depth)
}

// The record of an item whose text is the part of its extent between two places, which is copied to the front of the text memory.
fn part_record(
    m: Means,
    s: PieceSpot,
    from: usize,
    to: usize,
    depth: u32,
    raw: &[u8],
    text: &mut [u8],
) -> Option<Record>
    requires { Copying s m raw.now text.old × (m.text ≡ Text.Source from to) }
    ensures { Copied s m depth raw.now text.old text.new result }
{
    let start = s.start as usize;
    if from < start {
        return None;
    }
    if to < from {
        return None;
    }
    if s.at < to as u64 {
        return None;
    }
    copy_all(&raw[from - start..to - start], text);
    Some(record_of(m, s, IN_MEMORY, (to - from) as u32, depth))
}

// The record of an item by its meaning; its text is copied to the front of the text memory. Not where it has to be decoded.
pub fn copied(m: Means, s: PieceSpot, depth: u32, raw: &[u8], text: &mut [u8]) -> Option<Record>
    requires { Copying s m raw.now text.old }
    ensures { Copied s m depth raw.now text.old text.new result }
{
    let source = m.text;
    match source {
        Text::Nowhere => Some(bare_record(m, s, depth, raw, text)),
        Text::Source(from, to) => part_record(m, s, from, to, depth, raw, text),
        Text::Decoded(_length) => None,
    }
}

// Whether an item is left out: a comment, where comments are skipped.
pub fn skips(skip: u64, number: u32) -> bool
    ensures { result ≡ (eqb skip 1 && eqb number kind.Comment) }
{
    skip == YES && number == kinds::COMMENT
}

// Gives an item that ends before a byte, by its meaning, and what the byte begins.
fn given(
    w: Words,
    s: PieceSpot,
    b: u8,
    f: u64,
    m: Means,
    buf: &mut [u8],
    text: &mut [u8],
) -> Option<QuickItem>
    requires { Held w s buf.old text.old × Finishes s b f buf.old m }
    ensures { Finished w s b buf.old buf.new text.old text.new result }
{
    if skips(w.skip, m.kind) {
        return None;
    }
    let len = s.len;
    let depth = w.depth as u32;
    match copied(m, s, depth, &buf[..len], text) {
        Some(r) => {
            let next = after(s, b, f, buf);
            Some(QuickItem {
                spot: next,
                depth: depth_after(m.kind, depth) as u64,
                item: r,
            })
        }
        None => None,
    }
}

// Gives the item that ends before a byte, where its text need not be decoded and it is told here.
fn finish(w: Words, s: PieceSpot, b: u8, buf: &mut [u8], text: &mut [u8]) -> Option<QuickItem>
    requires { Held w s buf.old text.old }
    ensures { Finished w s b buf.old buf.new text.old text.new result }
{
    let len = s.len;
    if s.stage <= IDLE {
        return None;
    }
    let f = first(b);
    if f < IDLE {
        return None;
    }
    let told = tell(
        s.stage,
        s.which,
        s.detail,
        b,
        s.start as usize,
        s.at as usize,
        &buf[..len],
    );
    match told {
        Quick::Item(m, _, _) => given(w, s, b, f, m, buf, text),
        Quick::Bracket(_, _, _) => None,
        Quick::Other => None,
    }
}

// Whether an item whose bytes are `raw` is a string with an escape.
pub fn is_escaped(stage: u64, which: u64, raw: &[u8]) -> bool
    ensures { result ≡ true → (stage ≡ 25) × (which ≡ 0) × (escaped raw.now ≡ true) }
{
    stage == CLOSED && which == DOUBLE && has_escape(raw)
}

// The record of a string with an escape, whose text is decoded to the front of the text memory.
pub fn decoded_record(s: PieceSpot, depth: u32, raw: &[u8], text: &mut [u8]) -> Record
    requires { Copying s (decoded_means raw.now) raw.now text.old }
    ensures { Copied s (decoded_means raw.now) depth raw.now text.old text.new (Some result) }
{
    let n = decode(raw, QUOTE_LENGTH, Quotes::Double, text);
    let m = Means {
        kind: kinds::STRING_LITERAL,
        detail: kinds::NO_DETAIL,
        text: Text::Decoded(n),
    };
    record_of(m, s, IN_MEMORY, n as u32, depth)
}

// Gives the string with an escape that ends before a byte.
fn finish_decoded(
    w: Words,
    s: PieceSpot,
    b: u8,
    buf: &mut [u8],
    text: &mut [u8],
) -> Option<QuickItem>
    requires { Held w s buf.old text.old }
    ensures { Finished w s b buf.old buf.new text.old text.new result }
{
    let len = s.len;
    if !is_escaped(s.stage, s.which, &buf[..len]) {
        return None;
    }
    let f = first(b);
    if f < IDLE {
        return None;
    }
    let depth = w.depth as u32;
    let r = decoded_record(s, depth, &buf[..len], text);
    let next = after(s, b, f, buf);
    Some(QuickItem {
        spot: next,
        depth: w.depth,
        item: r,
    })
}

// Gives the item that ends before a byte, where it is told here.
pub fn give_item(
    w: Words,
    s: PieceSpot,
    b: u8,
    buf: &mut [u8],
    text: &mut [u8],
) -> Option<QuickItem>
    requires { Held w s buf.old text.old }
    ensures { Finished w s b buf.old buf.new text.old text.new result }
{
    match finish(w, s, b, buf, text) {
        Some(told) => Some(told),
        None => finish_decoded(w, s, b, buf, text),
    }
}

// Gives the comment that ends before a byte.
pub fn give_comment(w: Words, s: PieceSpot, b: u8, buf: &mut [u8], text: &[u8]) -> Option<QuickItem>
    requires { Held w s buf.old text.now × (s.stage ≡ 31) × (s.which ≡ kind.Comment) × (s.detail ≡ 0) }
    ensures { Finished w s b buf.old buf.new text.now text.now result }
{
    let f = first(b);
    if f < IDLE {
        return None;
    }
    if w.skip == YES {
        return None;
    }
    let depth = w.depth as u32;
    let m = Means {
        kind: kinds::COMMENT,
        detail: kinds::NO_DETAIL,
        text: Text::Nowhere,
    };
    let r = record_of(m, s, NO_TEXT, 0, depth);
    let next = after(s, b, f, buf);
    Some(QuickItem {
        spot: next,
        depth: w.depth,
        item: r,
    })
}
