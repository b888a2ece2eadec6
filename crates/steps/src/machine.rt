// The machine: the first character of an item, each further one, the end of the text, and the scan of an item over all of them.
ghost use Rattle.std.specs.Prelude.{◌≡◌, ◌+◌, ◌^◌, ◌<◌, ◌≤◌, eqb, length, drop, if◌then◌else◌};
ghost use Rattle.laws.specs.Quoted.{code};
ghost use Rattle.chars.specs.Encode.{width};
ghost use Rattle.chars.specs.Utf8.{chars};
ghost use Rattle.items.specs.Classes.{first_of};
ghost use Rattle.items.specs.Kinds as kind;
ghost use Rattle.items.specs.Readers.{so_far};
ghost use Rattle.items.specs.Machine.{step_of, finish_of, on_first, scan_of, depth_of};
ghost use Rattle.steps.specs.Scan.{part, scanned};

use crate::runs::run_end;
use crate::signs::*;
use crate::{Scanned, comments, hash, here, quotes, words};
use chars::{Decoded, decode_at};
use items::{Next, Outcome, Phase, Quotes, kinds};

// An item that is one character.
fn single(kind: u32, detail: u32) -> Phase
    ensures { result ≡ Phase.Done (Outcome.Token kind detail) }
{
    Phase::Done(Outcome::Token(kind, detail))
}

// The phase after the first character of an item, which is no blank. Internal.
pub fn first_phase(c: u32) -> Phase
    ensures { result ≡ on_first (first_of c) }
{
    match c {
        SEMICOLON => Phase::InLine,
        DOUBLE_QUOTE => Phase::Quoted(Quotes::Double),
        COMMA => Phase::AfterComma,
        HASH => Phase::AfterHash,
        OPEN_ROUND => single(kinds::OPEN_PAREN, kinds::ROUND),
        OPEN_SQUARE => single(kinds::OPEN_PAREN, kinds::SQUARE),
        OPEN_CURLY => single(kinds::OPEN_PAREN, kinds::CURLY),
        CLOSE_ROUND => single(kinds::CLOSE_PAREN, kinds::ROUND),
        CLOSE_SQUARE => single(kinds::CLOSE_PAREN, kinds::SQUARE),
        CLOSE_CURLY => single(kinds::CLOSE_PAREN, kinds::CURLY),
        TICK => single(kinds::QUOTE_TICK, kinds::NO_DETAIL),
        BACKTICK => single(kinds::QUASI_QUOTE, kinds::NO_DETAIL),
        PLUS | MINUS => Phase::InRun,
        PERIOD => Phase::InRun,
        VERTICAL => Phase::Quoted(Quotes::Lines),
        BACKSLASH => Phase::WordEscape,
        _ => {
            if words::is_digit(c) {
                return Phase::InRun;
            }
            Phase::InWord
        }
    }
}

// After `,`, which is not known before the next character.
fn after_comma(c: u32) -> Next
    ensures { result ≡
        (if eqb c (code "@")
        then Next.Eat (Phase.Done (Outcome.Token kind.UnquoteSplice 0))
        else Next.Stop (Outcome.Token kind.Unquote 0)) }
{
    if c == AT {
        return Next::Eat(Phase::Done(Outcome::Token(kinds::UNQUOTE_SPLICE, kinds::NO_DETAIL)));
    }
    Next::Stop(Outcome::Token(kinds::UNQUOTE, kinds::NO_DETAIL))
}

// What the character c does in a phase; `raw` is the item before it, which ends at the place `at`. Internal: the caller shows that the
// item and its open comments are no more than the bytes read, and that the place past c fits.
pub fn step(report: bool, phase: Phase, raw: &[u8], at: usize, c: u32) -> Next
    requires { (length raw.now ≤ at) × (depth_of phase ≤ at) × (at + width c < 2 ^ 64) }
    ensures { result ≡ step_of report phase (so_far raw.now at) c }
{
    match phase {
        Phase::InLine => comments::read_rest_of_line(c),
        Phase::AfterComma => after_comma(c),
        Phase::AfterHash => hash::after_hash(raw, c),
        Phase::AfterAngle => here::after_angle(c),
        Phase::HereDelim => here::here_delim(c),
        Phase::HereStart => Next::Eat(Phase::HereBody),
        Phase::HereBody => here::here_body(raw),
        Phase::InWord => words::read_word(c),
        Phase::WordEscape => Next::Eat(Phase::InWord),
        Phase::InRun => words::read_number(report, raw, c),
        Phase::InHash => hash::read_hash_value(raw, c),
        Phase::HashEscape => Next::Eat(Phase::InHash),
        Phase::HashTick => hash::hash_then(hash::hash_kind(raw), c),
        Phase::HashComma => hash::hash_comma(raw, c),
        Phase::Nest(depth) => comments::read_nestable_comment(depth, c),
        Phase::NestBar(depth) => comments::nest_bar(depth, c),
        Phase::NestSharp(depth) => comments::nest_sharp(depth, c),
        Phase::Quoted(k) => quotes::read_string(k, at, c),
        Phase::Closed(k) => Next::Stop(quotes::closed(k, raw)),
        Phase::TrimBefore(k) => quotes::trim_before(k, at, c),
        Phase::TrimAfter(k) => quotes::trim_after(k, at, c),
        Phase::Escape(k, from) => quotes::read_string_escape(k, from, raw, at, c),
        Phase::Brace(k, from) => quotes::open_brace(report, k, from, raw, at, c),
        Phase::Hex(k, stop, from, n) => quotes::hex_digits(report, k, stop, from, n, raw, at, c),
        Phase::Done(o) => Next::Stop(o),
    }
}

// What the end of the text makes of a phase; `raw` is the item. Internal.
pub fn finish(phase: Phase, raw: &[u8]) -> Outcome
    ensures { result ≡ finish_of phase raw.now }
{
    match phase {
        Phase::InLine => Outcome::Token(kinds::COMMENT, kinds::NO_DETAIL),
        Phase::AfterComma => Outcome::Token(kinds::UNQUOTE, kinds::NO_DETAIL),
        Phase::HereDelim | Phase::HereStart => {
            Outcome::Error(kinds::INCOMPLETE_STRING, kinds::NO_DETAIL)
        }
        Phase::HereBody => here::here_last(raw),
        Phase::AfterAngle | Phase::InWord | Phase::WordEscape => Outcome::Word,
        Phase::InRun => Outcome::Run,
        Phase::AfterHash | Phase::InHash | Phase::HashEscape | Phase::HashTick | Phase::HashComma =>
            hash::hash_last(hash::hash_kind(raw)),
        Phase::Nest(_) | Phase::NestBar(_) | Phase::NestSharp(_) => {
            Outcome::Error(kinds::INCOMPLETE_COMMENT, kinds::NO_DETAIL)
        }
        Phase::Quoted(k) => quotes::unclosed(k, raw),
        Phase::Closed(k) => quotes::closed(k, raw),
        Phase::TrimBefore(k)
        | Phase::TrimAfter(k)
        | Phase::Escape(k, _)
        | Phase::Brace(k, _)
        | Phase::Hex(k, _, _, _) => quotes::cut(k),
        Phase::Done(o) => o,
    }
}

// The item from `start` to `at`, where the text ends.
fn scan_end(s: &[u8], start: usize, at: usize, phase: Phase) -> Scanned
    requires { (start ≤ at) × (at ≤ length s.now) }
    ensures { result ≡ record { what = finish_of phase (part s.now start at); end = at } }
{
    Scanned {
        what: finish(phase, &s[start..at]),
        end: at,
    }
}

// What the item is that stands in the phase `first` at the place `from`, and where it ends: a run at a time, and a step after each.
fn scan_on(s: &[u8], report: bool, start: usize, from: usize, first: Phase) -> Scanned
    requires { (start ≤ from) × (from ≤ length s.now) × (depth_of first ≤ from) }
    ensures { result ≡
        scanned (scan_of report first (so_far (part s.now start from) from) (chars (drop from s.now))) }
{
    let mut phase = first;
    let mut at = from;
    while at < s.len() {
        at = run_end(s, start, at, phase);
        match decode_at(s, at) {
            Decoded::Char { code, next } => match step(report, phase, &s[start..at], at, code) {
                Next::Eat(then) => {
                    phase = then;
                    at = next;
                }
                Next::Stop(what) => {
                    return Scanned { what, end: at };
                }
            },
            Decoded::Bad | Decoded::Cut | Decoded::End => {
                return scan_end(s, start, at, phase);
            }
        }
    }
    scan_end(s, start, at, phase)
}

// What the item is that starts at `start` and stands in the phase `first` at the place `from`, and where it ends. Internal: the caller
// shows that the places are in the text, and that no more comments are open than bytes were read.
pub fn scan(s: &[u8], report: bool, start: usize, from: usize, first: Phase) -> Scanned
    requires { (start ≤ from) × (from ≤ length s.now) × (depth_of first ≤ from) }
    ensures { result ≡
        scanned (scan_of report first (so_far (part s.now start from) from) (chars (drop from s.now))) }
{
    match first {
        Phase::Done(what) => Scanned { what, end: from },
        _ => scan_on(s, report, start, from, first),
    }
}
