// Whether a word reads back bare where it will stand: the machine over the word, and one step more.
ghost use Rattle.std.specs.Prelude.{◌≡◌, ◌+◌, ◌<◌, ◌≤◌, length, take, drop, false, ◌&&◌, ◌∷◌};
ghost use Rattle.chars.specs.Utf8.{chars, first_bad};
ghost use Rattle.items.specs.Readers.{so_far};
ghost use Rattle.items.specs.Machine.{depth_of};
ghost use Rattle.laws.specs.Quoted.{code, codes};
ghost use Rattle.laws.specs.Texts.{begins};
ghost use Rattle.items_writing.specs.Written.{bare, splits};
ghost use Rattle.items_writing.specs.Decide.{close_of, stand_from, name_word, is_name, is_pair_of, is_lined, lines_as};

use byte_runs::{begins_with, starts_at};
use chars::{Decoded, decode_at, is_blank};
use items::kinds::IDENTIFIER;
use items::{Next, Outcome, Phase, Quotes};
use numbers::{ParseError, parse_number, plus_number};
use spellings::words::word_kind;
use steps::signs::SPACE;
use steps::{ascii_run, finish, first_phase, step};

// A word that was read to its end in a phase: at the end of the text, or before a space, which is one step more.
fn close_step(t: &[u8], phase: Phase, last: bool) -> Option<Outcome>
    requires { depth_of phase ≤ length t.now }
    ensures { result ≡ close_of last phase (so_far t.now (length t.now)) }
{
    if last {
        return Some(finish(phase, t));
    }
    match step(true, phase, t, t.len(), SPACE) {
        Next::Eat(then) => None,
        Next::Stop(what) => Some(what),
    }
}

// The same. Most words are a word or a run to their end, which either ends.
fn close(t: &[u8], phase: Phase, last: bool) -> Option<Outcome>
    requires { depth_of phase ≤ length t.now }
    ensures { result ≡ close_of last phase (so_far t.now (length t.now)) }
{
    match phase {
        Phase::InWord => Some(Outcome::Word),
        Phase::InRun => Some(Outcome::Run),
        _ => close_step(t, phase, last),
    }
}

// A word that stands in a phase at a place, to its end: a run at a time, and a step after each.
fn stand_on(t: &[u8], from: usize, first: Phase, last: bool) -> Option<Outcome>
    requires { (from ≤ length t.now) × (depth_of first ≤ from) }
    ensures { result ≡ stand_from last first (so_far (take from t.now) from) (chars (drop from t.now)) }
{
    let mut phase = first;
    let mut at = from;
    while at < t.len() {
        at = ascii_run(t, at, phase);
        match decode_at(t, at) {
            Decoded::Char { code, next } => match step(true, phase, &t[..at], at, code) {
                Next::Eat(then) => {
                    phase = then;
                    at = next;
                }
                Next::Stop(what) => {
                    return None;
                }
            },
            _ => {
                return close(&t[..at], phase, last);
            }
        }
    }
    close(t, phase, last)
}

// Whether a word is one identifier: it has no kind of its own, and is not split after a plus.
fn name_word(raw: &[u8]) -> bool
    ensures { result ≡ name_word raw.now }
{
    word_kind(raw) == IDENTIFIER && (raw.len() <= 1 || raw[0] != b'+')
}

// Whether an extent is one identifier, which is its own text.
fn is_name(what: Outcome, raw: &[u8]) -> bool
    ensures { result ≡ is_name what raw.now }
{
    match what {
        Outcome::Word => name_word(raw),
        Outcome::Run => match parse_number(raw) {
            Ok(_) => false,
            Err(ParseError::NoNumber) => name_word(raw),
            Err(ParseError::ZeroDenominator) => false,
        },
        _ => false,
    }
}

// Whether a word would be a first line that is passed over.
fn opens_line(t: &[u8], first: bool) -> bool
    ensures { result ≡ (first && begins (codes "#!") t.now) }
{
    first && begins_with(t, b"#!")
}

// Whether a word of whole characters reads back bare; `first` and `last` say that nothing stands before it, and after it.
pub fn reads_bare(t: &[u8], first: bool, last: bool) -> bool
    requires { first_bad t.now ≡ None }
    ensures { result ≡ bare first last t.now }
{
    match decode_at(t, 0) {
        Decoded::Char { code, next } => {
            if is_blank(code) {
                return false;
            }
            if opens_line(t, first) {
                return false;
            }
            match stand_on(t, next, first_phase(code), last) {
                Some(what) => is_name(what, t),
                None => false,
            }
        }
        _ => false,
    }
}

// Whether what a plus and t turned out to be is a pair: a word, or a run that is no number, with something after the plus.
fn is_pair_of(what: Outcome, t: &[u8]) -> bool
    ensures { result ≡ is_pair_of what t.now }
{
    match what {
        Outcome::Word => !t.is_empty(),
        Outcome::Run => !t.is_empty() && !plus_number(t),
        _ => false,
    }
}

// Whether what a text turned out to be is an identifier in vertical lines.
fn is_lined(what: Outcome) -> bool
    ensures { result ≡ is_lined what }
{
    matches!(what, Outcome::Lined)
}

// Whether a text that begins with a vertical line is one identifier in vertical lines before a blank.
fn reads_lined(t: &[u8]) -> bool
    requires { 1 ≤ length t.now }
    ensures { result ≡ lines_as (stand_from false (Phase.Quoted Quotes.Lines) (so_far (take 1 t.now) 1) (chars (drop 1 t.now))) }
{
    match stand_on(t, 1, Phase::Quoted(Quotes::Lines), false) {
        Some(what) => is_lined(what),
        None => false,
    }
}

// Whether a plus and t, before a blank, read back as a pair: +foo, +|a b|
pub fn reads_pair(t: &[u8]) -> bool
    requires { first_bad t.now ≡ None }
    ensures { result ≡ splits (code "+" ∷ t.now) }
{
    let k = ascii_run(t, 0, Phase::InRun);
    if starts_at(t, k, b'|') {
        if plus_number(&t[..k]) {
            return false;
        }
        return reads_lined(&t[k..]);
    }
    match stand_on(t, k, Phase::InRun, false) {
        Some(what) => is_pair_of(what, t),
        None => false,
    }
}
