// One item a turn, from a spot of the source on.
ghost use Rattle.std.specs.Prelude.{◌≡◌, false, ◌+◌, ◌≤◌, ◌<◌, ◌^◌, length, drop, leb};
ghost use Rattle.laws.specs.Texts.{span};
ghost use Rattle.byte_runs.specs.Runs.{blank};
ghost use Rattle.chars.specs.Utf8.{chars};
ghost use Rattle.items.specs.Readers.{so_far};
ghost use Rattle.items.specs.Items.{place_of, range_after, standing};
ghost use Rattle.items.specs.Whole.{limit};
ghost use Rattle.meaning.specs.Places.{place_in, range_of, reach, reach_from};
ghost use Rattle.meaning.specs.Records.{nine_for, TextFits};
ghost use Rattle.lexer.specs.Reading.{moved, turn_of, turn, next_at, start_from, one_found, found_of};
ghost use Rattle.lexer.specs.Inner.{ExtentFits};
ghost use Rattle.lexer.specs.Begun.{Stands, BegunAs};

use crate::strings::{begin_string, quote_at, wrong};
use crate::{Beginning, FirstChar, Found, Spot};
use byte_runs::blank_end;
use chars::{Decoded, decode_at, is_blank};
use items::{Outcome, Phase};
use meaning::places::{place, range_after, range_shown};
use meaning::records::{nine_of, skips};
use meaning::{Means, Meant, Range, meaning};
use steps::{first_phase, scan};

// How many blanks are passed byte by byte.
const FEW: usize = 8;

// Past the blanks of ASCII from a place on, where a space is the first of them: an indentation is passed at once.
fn past_spaces(source: &[u8], at: usize) -> usize
    ensures { (at ≤ result) × (start_from result (chars (drop result source.now)) ≡ start_from at (chars (drop at source.now))) }
{
    if source.len() <= at {
        return at;
    }
    if source[at] == b' ' {
        return blank_end(source, at);
    }
    at
}

// Whether a blank of ASCII stands at a place.
fn blank_at(source: &[u8], at: usize) -> bool
    ensures { result ≡ leb 1 (span blank (drop at source.now)) }
{
    if source.len() <= at {
        return false;
    }
    let b = source[at];
    if b'\r' < b {
        return b == b' ';
    }
    b'\t' <= b
}

// Past the blanks of ASCII from a place on: the first few byte by byte, since most runs are short, and the rest by blocks.
fn past_more(source: &[u8], from: usize) -> usize
    ensures { (from ≤ result) × (start_from result (chars (drop result source.now)) ≡ start_from from (chars (drop from source.now))) }
{
    let mut at = from;
    for _ in 0..FEW {
        if !blank_at(source, at) {
            return at;
        }
        at += 1;
    }
    blank_end(source, at)
}

// Past the blanks of ASCII from a place on. Most items have none before them, or one.
pub fn past_blanks(source: &[u8], at: usize) -> usize
    ensures { (at ≤ result) × (start_from result (chars (drop result source.now)) ≡ start_from at (chars (drop at source.now))) }
{
    if blank_at(source, at) {
        let next = at + 1;
        if blank_at(source, next) {
            return past_more(source, next + 1);
        }
        return next;
    }
    at
}

// The first character from a place on that is no blank.
pub fn consume_whitespace(source: &[u8], from: usize) -> Option<FirstChar>
    ensures { result ≡ start_from from (chars (drop from source.now)) }
{
    let mut at = from;
    while let Decoded::Char { code, next } = decode_at(source, at) {
        if !is_blank(code) {
            return Some(FirstChar {
                code: code,
                at: at,
                past: next,
            });
        }
        at = past_spaces(source, next);
    }
    None
}

// Past an extent that ends here, with the last error range then.
pub fn past(p: Spot, at: usize, last: Range) -> Spot
    ensures { result ≡ moved p at (place_in last) false }
{
    Spot {
        at: at,
        last: last,
        second: false,
        ..p
    }
}

// At another place, with the same last error range; `second` says that of the two items of the extent there the first was given.
pub fn stand(p: Spot, at: usize, second: bool) -> Spot
    ensures { result ≡ moved p at (place_in p.last) second }
{
    Spot {
        at: at,
        second: second,
        ..p
    }
}

// The item of a meaning, and the spot after it.
fn one(
    report: bool,
    m: Means,
    extent: Range,
    last: Range,
    free: usize,
    after: Spot,
) -> Option<Found>
    requires { TextFits free m.text }
    ensures { result ≡ one_found (nine_for free m extent (range_of (place_of report m.kind (place_in last) (place_in extent)))) after }
{
    Some(Found {
        nine: nine_of(m, extent, place(report, m.kind, last, extent), free),
        after: after,
    })
}

// The range that an error's place is taken from, where `last` is the last one after the extent: in plain mode they are the same.
fn shown(p: Spot, what: Outcome, extent: Range, last: Range, raw: &[u8]) -> Range
    requires what_bound { (reach_from what < 2 ^ 32) × (reach what < 2 ^ 32) × (extent.from + length raw.now < 2 ^ 32) }
    requires last_value { last ≡ range_of (range_after p.report (place_in p.last) extent.from what (so_far raw.now extent.to)) }
    ensures { result ≡ range_of (range_after p.report (standing p.report (place_in p.last)) extent.from what (so_far raw.now extent.to)) }
{
    if p.report {
        return range_shown(true, p.last, what, extent, raw);
    }
    last
}

// What an extent gives, by its outcome, its first place and its bytes.
fn found(p: Spot, free: usize, start: usize, what: Outcome, raw: &[u8]) -> Option<Found>
    requires { ExtentFits p.report free start raw.now what }
    ensures { result ≡ found_of free (turn_of p start what (so_far raw.now (start + length raw.now))) }
{
    let end = start + raw.len();
    let extent = Range {
        from: start as u32,
        to: end as u32,
    };
    let last = range_after(p.report, p.last, what, extent, raw);
    let set = shown(p, what, extent, last, raw);
    match meaning(p.report, what, start, raw) {
        Meant::One(m) => one(p.report, m, extent, set, free, past(p, end, last)),
        Meant::Two(m, n) => {
            if p.second {
                one(p.report, n, extent, set, free, past(p, end, last))
            } else {
                one(p.report, m, extent, set, free, stand(p, start, true))
            }
        }
    }
}

// Where the item begins that comes next from a place on.
fn begin_at(source: &[u8], at: usize) -> Beginning
    ensures { BegunAs source.now at result }
{
    if quote_at(source, at) {
        return begin_string(source, at);
    }
    match consume_whitespace(source, at) {
        Some(first) => Beginning::At(first.at, first.past, first_phase(first.code)),
        None => Beginning::Nothing,
    }
}

// The item at a spot that starts at a place and stands in a phase at another.
fn item_at(
    source: &[u8],
    p: Spot,
    free: usize,
    at: usize,
    from: usize,
    phase: Phase,
) -> Option<Found>
    requires { (length source.now ≤ limit) × (free ≤ p.at) × Stands source.now p.at at from phase }
    ensures { result ≡ found_of free (turn source.now p) }
{
    let scanned = scan(source, p.report, at, from, phase);
    let what = scanned.what;
    let end = scanned.end;
    found(p, free, at, what, &source[at..end])
}

// The item at a spot, comments too.
fn turn_at(source: &[u8], p: Spot, free: usize) -> Option<Found>
    requires { (length source.now ≤ limit) × (free ≤ p.at) }
    ensures { result ≡ found_of free (turn source.now p) }
{
    match begin_at(source, p.at) {
        Beginning::At(at, from, phase) => item_at(source, p, free, at, from, phase),
        Beginning::Wrong(end) => wrong(source, p, end),
        Beginning::Nothing => None,
    }
}

// The next item from a spot on. Decoded text goes to the place `free` of the text memory.
pub fn next_item(source: &[u8], spot: Spot, free: usize) -> Option<Found>
    requires { (length source.now ≤ limit) × (free ≤ spot.at) }
    ensures { result ≡ found_of free (next_at source.now spot) }
{
    let mut p = spot;
    while let Some(found) = turn_at(source, p, free) {
        if !skips(p.skip, found.nine.kind) {
            return Some(found);
        }
        p = found.after;
    }
    None
}
