// Slips: bad escapes inside a string or an identifier in vertical lines, and where the rest of the text that they stand in ends.
ghost use Rattle.std.specs.Prelude.{◌≡◌, false, ◌≤◌, length, drop};
ghost use Rattle.laws.specs.Quoted.{one_of};
ghost use Rattle.items.specs.Whole.{limit};
ghost use Rattle.findings_rows.specs.Mended.{escape_errors, character_at, slips, quote_of, closing, rest_from, spot_at, unclosed_kind};
ghost use Rattle.findings_rows.specs.Inner.{ended_nine, unclosed_nine, mend_nine};

use byte_runs::starts_at;
use items::Nine;
use items::kinds::{
    FIRST_ERROR, INCOMPLETE_IDENTIFIER, INCOMPLETE_STRING, INVALID_HEX_CODE_POINT,
    INVALID_HEX_ESCAPE_LITERAL, INVALID_STRING_ESCAPE, INVALID_WHITESPACE, NO_DETAIL, NO_TEXT,
    UNCLOSED_HEX_ESCAPE,
};
use lexer::{Found, Spot};

// Whether a kind is that of an error that an escape may be.
fn is_escape_error(kind: u32) -> bool
    ensures { result ≡ one_of escape_errors kind }
{
    FIRST_ERROR <= kind
        && matches!(
            kind - FIRST_ERROR,
            INVALID_WHITESPACE
                | INVALID_STRING_ESCAPE
                | UNCLOSED_HEX_ESCAPE
                | INVALID_HEX_ESCAPE_LITERAL
                | INVALID_HEX_CODE_POINT
        )
}

// Whether a character literal stands at a place.
fn character_at(source: &[u8], at: usize) -> bool
    requires { at ≤ limit }
    ensures { result ≡ character_at source.now at }
{
    starts_at(source, at, b'#') && starts_at(source, at + 1, b'\\')
}

// Whether an item of a kind, whose extent starts at a place, is a slip.
pub fn is_slip(source: &[u8], kind: u32, start: usize) -> bool
    requires { start ≤ limit }
    ensures { result ≡ slips source.now kind start }
{
    is_escape_error(kind) && !character_at(source, start)
}

// The quote that closes an extent that starts at a place.
fn quote_of(source: &[u8], start: usize) -> u8
    ensures { result ≡ quote_of source.now start }
{
    if starts_at(source, start, b'"') {
        return b'"';
    }
    b'|'
}

// Behind the first quote from a place on; a backslash takes the next byte with it.
fn past_quote(source: &[u8], quote: u8, from: usize) -> Option<usize>
    ensures { result ≡ closing quote false from (drop from source.now) }
{
    let mut at = from;
    let mut escaped = false;
    while at < source.len() {
        let b = source[at];
        at += 1;
        if escaped {
            escaped = false;
        } else {
            if b == quote {
                return Some(at);
            }
            escaped = b == b'\\';
        }
    }
    None
}

// Where the rest of the text of a slip begins, by its kind and the place past its extent.
fn rest_from(kind: u32, at: usize) -> usize
    ensures { result ≡ rest_from kind at }
{
    if kind != FIRST_ERROR + UNCLOSED_HEX_ESCAPE {
        return at;
    }
    if at == 0 {
        return 0;
    }
    at - 1
}

// The spot at another place.
fn spot_at(p: Spot, at: usize) -> Spot
    ensures { result ≡ spot_at p at }
{
    let last = p.last;
    Spot {
        at: at,
        last: last,
        second: p.second,
        report: p.report,
        skip: p.skip,
    }
}

// The item with its extent up to another place.
fn ended(r: Nine, end: u32) -> Nine
    ensures { result ≡ ended_nine end r }
{
    Nine {
        kind: r.kind,
        detail: r.detail,
        start: r.start,
        end: end,
        from: r.from,
        to: r.to,
        source: r.source,
        first: r.first,
        past: r.past,
    }
}

// The kind of the error of a text that ends before its closing quote.
fn unclosed_kind(quote: u8) -> u32
    ensures { result ≡ unclosed_kind quote }
{
    if quote == b'"' {
        return FIRST_ERROR + INCOMPLETE_STRING;
    }
    FIRST_ERROR + INCOMPLETE_IDENTIFIER
}

// Its item.
fn unclosed(quote: u8, start: u32, end: u32) -> Nine
    ensures { result ≡ unclosed_nine quote start end }
{
    Nine {
        kind: unclosed_kind(quote),
        detail: NO_DETAIL,
        start: start,
        end: end,
        from: start,
        to: end,
        source: NO_TEXT,
        first: 0,
        past: 0,
    }
}

// A slip mended: its item, and the spot after it.
pub fn mend(source: &[u8], r: Nine, after: Spot) -> Option<Found>
    requires { (length source.now ≤ limit) × (after.at ≤ length source.now) }
    ensures { result ≡ mend_nine source.now r after }
{
    let quote = quote_of(source, r.start as usize);
    let end = source.len();
    match past_quote(source, quote, rest_from(r.kind, after.at)) {
        Some(e) => Some(Found {
            nine: ended(r, e as u32),
            after: spot_at(after, e),
        }),
        None => Some(Found {
            nine: unclosed(quote, r.start, end as u32),
            after: spot_at(after, end),
        }),
    }
}
