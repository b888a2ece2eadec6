// What an item is that ends before a byte.
ghost use Rattle.std.specs.Prelude.{◌≡◌, true, ℕ, ◌+◌, ◌^◌, ◌<◌, length};
ghost use Rattle.items.specs.Readers.{lined_of};
ghost use Rattle.items.specs.declared.Outcome.TheVariants.{Lined};
ghost use Rattle.items.specs.declared.Quotes.TheVariants.{Lines};
ghost use Rattle.pieces_lent.specs.Coding.{quotes_of};
ghost use Rattle.pieces_spots.specs.Spots.{StopsWord, Stops, TellsSign, TellsAt};

use crate::first_byte::KINDS;
use escapes::has_escape;
use items::{BOOLEAN_LENGTH, QUOTE_LENGTH, kinds};
use items_telling::{Quick, bare, named, tell_run, tell_string, tell_word};
use pieces_lent::codes::{CLOSED, DONE_TOKEN, DOUBLE, IN_HASH, IN_RUN, IN_WORD};

// Whether a byte ends a word, a number run and a word that begins with a number sign, of those that often do.
fn is_stop(b: u8) -> bool
    ensures { result ≡ true → Stops b }
{
    match b {
        b')' => true,
        b' ' => true,
        b'\n' => true,
        b'(' => true,
        b']' => true,
        b'[' => true,
        b'\r' => true,
        b'\t' => true,
        _ => false,
    }
}

// Whether a byte ends a word, of those that often do.
fn ends_word(b: u8) -> bool
    ensures { result ≡ true → StopsWord b }
{
    match b {
        b'"' => true,
        b';' => true,
        _ => is_stop(b),
    }
}

// What a word that begins with a number sign tells: a boolean of one letter.
pub fn tell_boolean(at: usize, end: usize, raw: &[u8]) -> Quick
    ensures { TellsSign raw.now result }
{
    if raw.len() != BOOLEAN_LENGTH {
        return Quick::Other;
    }
    if raw[0] != b'#' {
        return Quick::Other;
    }
    match raw[1] {
        b't' => bare(kinds::BOOLEAN_LITERAL, kinds::TRUE, at, end),
        b'f' => bare(kinds::BOOLEAN_LITERAL, kinds::FALSE, at, end),
        _ => Quick::Other,
    }
}

// Whether bytes stand between two vertical lines.
#[tactic(auto, unfolding(items::specs::Readers::lined_of))]
fn is_lined(raw: &[u8]) -> bool
    ensures { result ≡ true → (0 < length raw.now) × (lined_of raw.now ≡ Lined) }
{
    let n = raw.len();
    QUOTE_LENGTH < n && raw[0] == b'|' && raw[n - 1] == b'|'
}

// What the bytes of an identifier in vertical lines tell: its text lies in the source where it has no escape.
fn tell_lined(at: usize, end: usize, raw: &[u8]) -> Quick
    requires { end ≡ at + length raw.now }
    ensures { (which detail c : ℕ) → quotes_of which ≡ Lines → TellsAt 25 which detail c at raw.now result }
{
    if !is_lined(raw) {
        return Quick::Other;
    }
    if has_escape(raw) {
        return Quick::Other;
    }
    named(
        kinds::IDENTIFIER,
        at,
        end,
        at + QUOTE_LENGTH,
        end - QUOTE_LENGTH,
    )
}

// What quotes that are closed tell.
pub fn tell_closed(which: u64, at: usize, end: usize, raw: &[u8]) -> Quick
    requires { (0 < length raw.now) × (end ≡ at + length raw.now) }
    ensures { (detail c : ℕ) → TellsAt 25 which detail c at raw.now result }
{
    if which == DOUBLE {
        return tell_string(at, end, raw);
    }
    tell_lined(at, end, raw)
}

// What an item is, by its stage, that ends before a byte of ASCII.
pub fn tell(stage: u64, which: u64, detail: u64, b: u8, at: usize, end: usize, raw: &[u8]) -> Quick
    requires { (0 < length raw.now) × (end ≡ at + length raw.now) × (which < 2 ^ 32) × (detail < 2 ^ 32) }
    ensures { TellsAt stage which detail b at raw.now result }
{
    if stage == DONE_TOKEN {
        if KINDS <= which {
            return Quick::Other;
        }
        return bare(which as u32, detail as u32, at, end);
    }
    if stage == CLOSED {
        return tell_closed(which, at, end, raw);
    }
    if stage == IN_WORD {
        if ends_word(b) {
            return tell_word(at, end, raw);
        }
        return Quick::Other;
    }
    if !is_stop(b) {
        return Quick::Other;
    }
    if stage == IN_RUN {
        return tell_run(at, end, raw);
    }
    if stage == IN_HASH {
        return tell_boolean(at, end, raw);
    }
    Quick::Other
}
