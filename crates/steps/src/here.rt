// Here-strings: `read_here_string`. `#<<` and the rest of its line name the delimiter, carriage returns left out; the body follows, and
// ends as soon as it ends with the delimiter.
ghost use Rattle.std.specs.Prelude.{◌≡◌, ℕ, ◌+◌, ◌≤◌, ◌<◌, eqb, length, if◌then◌else◌};
ghost use Rattle.laws.specs.Quoted.{code};
ghost use Rattle.laws.specs.Texts.{before, begins};
ghost use Rattle.items.specs.Classes.{in_delim};
ghost use Rattle.items.specs.Kinds as kind;
ghost use Rattle.items.specs.Readers.{unreturned, line_of, ends_with, here_inside, here_ends};
ghost use Rattle.items.specs.Machine.{enter_word, on_delim};
ghost use Rattle.items.specs.declared.Phase.TheVariants.{HereBody};
ghost use Rattle.steps.specs.Scan.{PassesFor};
ghost use Rattle.steps.specs.Here.{HereLine};

use crate::search::{delimiter_end, kept_end, kept_start};
use crate::signs::*;
use crate::words::enter_word;
use byte_runs::find;
use chars::{chars_end, is_blank};
use items::{Next, Outcome, Phase, kinds};

// The bytes of `#<<`.
const OPEN: usize = 3;

// After `#<`.
pub(crate) fn after_angle(c: u32) -> Next
    ensures { result ≡ (if eqb c (code "<") then Next.Eat Phase.HereDelim else enter_word c) }
{
    if c == LESS {
        return Next::Eat(Phase::HereDelim);
    }
    enter_word(c)
}

// After `#<<`, in the line of the delimiter.
pub(crate) fn here_delim(c: u32) -> Next
    ensures { result ≡ on_delim (in_delim c) c }
{
    match c {
        NEWLINE => Next::Eat(Phase::HereStart),
        CARRIAGE_RETURN => Next::Eat(Phase::HereDelim),
        _ => {
            if is_blank(c) {
                return Next::Eat(Phase::Done(Outcome::Error(kinds::UNEXPECTED_CHAR, c)));
            }
            Next::Eat(Phase::HereDelim)
        }
    }
}

// How many bytes of a line are no carriage returns.
fn unreturned_length(line: &[u8]) -> usize
    ensures { result ≡ length (unreturned line.now) }
{
    let mut n = 0;
    for &b in line {
        if b != b'\r' {
            n += 1;
        }
    }
    n
}

// Whether a text begins with a line, carriage returns left out.
fn begins_with_line(text: &[u8], line: &[u8]) -> bool
    ensures { result ≡ begins (unreturned line.now) text.now }
{
    let mut j = 0;
    for &b in line {
        if b == b'\r' {
            continue;
        }
        if text.len() <= j {
            return false;
        }
        if text[j] != b {
            return false;
        }
        j += 1;
    }
    true
}

// Whether a body ends with a line, carriage returns left out, which has n bytes without them.
fn ends_with(body: &[u8], line: &[u8], n: usize) -> bool
    requires { n ≡ length (unreturned line.now) }
    ensures { result ≡ ends_with (unreturned line.now) body.now }
{
    if body.len() < n {
        return false;
    }
    begins_with_line(&body[body.len() - n..], line)
}

// Whether a body ends with a line, carriage returns left out.
fn ends_with_line(body: &[u8], line: &[u8]) -> bool
    ensures { result ≡ ends_with (unreturned line.now) body.now }
{
    ends_with(body, line, unreturned_length(line))
}

// How many bytes stand between `#<<` and the newline of its line. Internal: where a here-string's text starts.
pub fn here_line(raw: &[u8]) -> usize
    ensures { result ≡ before (code "\n") (here_inside raw.now) }
{
    find(raw, OPEN, b'\n') - OPEN
}

// How long the delimiter is. Internal: where a here-string's text ends.
pub fn delimiter_length(raw: &[u8]) -> usize
    ensures { result ≡ length (line_of (here_inside raw.now)) }
{
    if raw.len() < OPEN {
        return 0;
    }
    let newline = find(raw, OPEN, b'\n');
    unreturned_length(&raw[OPEN..newline])
}

// Whether the body ends with the delimiter.
fn here_ends(raw: &[u8]) -> bool
    ensures { result ≡ here_ends raw.now }
{
    if raw.len() < OPEN {
        return true;
    }
    let newline = find(raw, OPEN, b'\n');
    if newline < raw.len() {
        return ends_with_line(&raw[newline + 1..], &raw[OPEN..newline]);
    }
    ends_with_line(&raw[newline..], &raw[OPEN..newline])
}

// The first place of a body where n bytes may begin that end at a place or behind it.
fn earliest(body: usize, from: usize, n: usize) -> usize
    requires { body ≤ from }
    ensures { (result ≤ from) × ((k : ℕ) → body ≤ k → from ≤ k + n → result ≤ k) }
{
    if from - body < n {
        return body;
    }
    from - n
}

// The same, where the line ends at a place before. The delimiter is looked for first; up to its end characters are passed.
fn past_line(s: &[u8], start: usize, newline: usize, from: usize) -> usize
    requires { HereLine s.now start newline × (newline < from) × (from ≤ length s.now) }
    ensures { PassesFor s.now start HereBody from result }
{
    let open = start + OPEN;
    let whole = &s[open..newline];
    let first = kept_start(whole);
    let rest = &whole[first..];
    let last = kept_end(rest);
    if last == 0 {
        return from;
    }
    let line = &rest[..last];
    let n = unreturned_length(line);
    let body = newline + 1;
    let end = delimiter_end(s, earliest(body, from, n), line, n);
    chars_end(s, from, end)
}

// Past the characters of the body from a place on, to where it ends with the delimiter, or no character stands. The line is looked at once.
pub(crate) fn past_body(s: &[u8], start: usize, from: usize) -> usize
    requires { (start ≤ from) × (from ≤ length s.now) }
    ensures { PassesFor s.now start HereBody from result }
{
    if from - start < OPEN {
        return from;
    }
    let open = start + OPEN;
    let newline = find(s, open, b'\n');
    if from <= newline {
        return from;
    }
    past_line(s, start, newline, from)
}

// In the body, after a character of it.
pub(crate) fn here_body(raw: &[u8]) -> Next
    ensures { result ≡ (if here_ends raw.now then Next.Stop Outcome.HereStr else Next.Eat Phase.HereBody) }
{
    if here_ends(raw) {
        return Next::Stop(Outcome::HereStr);
    }
    Next::Eat(Phase::HereBody)
}

// What a here-string is where the text ends in its body.
pub(crate) fn here_last(raw: &[u8]) -> Outcome
    ensures { result ≡ (if here_ends raw.now then Outcome.HereStr else Outcome.Error kind.IncompleteString 0) }
{
    if here_ends(raw) {
        return Outcome::HereStr;
    }
    Outcome::Error(kinds::INCOMPLETE_STRING, kinds::NO_DETAIL)
}
