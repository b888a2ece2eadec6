// Runs: the characters that leave an item in the phase that it is in, passed without a step for each of them. Those of ASCII are told by
// their byte, others by direct tests of their bytes.
ghost use Rattle.std.specs.Prelude.{◌≡◌, false, ◌+◌, ◌≤◌, ◌<◌, length, get_or, drop};
ghost use Rattle.laws.specs.Texts.{span};
ghost use Rattle.items.specs.Classes.{delim_of};
ghost use Rattle.items.specs.declared.Phase.{Phase};
ghost use Rattle.items.specs.declared.Phase.TheVariants.{InWord};
ghost use Rattle.steps.specs.Runs.{of_word, of_run, keeps};
ghost use Rattle.steps.specs.Scan.{Passes, PassesFor};
ghost use Rattle.steps.specs.Held.{Holds};

use crate::here::past_body;
use crate::words::{breaks_word, stays_run};
use byte_runs::{ASCII_END, ByteClass, bytes_end, plain_end};
use chars::{between, letter_at, wide_end};
use items::{Phase, Quotes};

// What closes the quotes.
pub(crate) fn delimiter(k: Quotes) -> u8
    ensures { result ≡ delim_of k }
{
    match k {
        Quotes::Double => b'"',
        Quotes::Lines => b'|',
    }
}

// Whether a word goes on with a byte. Most are small letters, and most words end before a space or a bracket.
fn of_word(c: u8) -> bool
    ensures { result ≡ of_word c }
{
    if between(b'a', b'z', c) {
        return true;
    }
    if c == b' ' {
        return false;
    }
    if c == b')' {
        return false;
    }
    if ASCII_END <= c {
        return false;
    }
    if breaks_word(u32::from(c)) {
        return false;
    }
    c != b'\\'
}

// The characters of ASCII that a word goes on with.
#[derive(Clone, Copy)]
struct WordBytes;

impl ByteClass for WordBytes {
    ghost passes = { λ s c. of_word c };

    fn ends(self, c: u8) -> bool {
        !of_word(c)
    }
}

// Where the characters end that a word goes on with.
pub(crate) fn word_end(s: &[u8], at: usize) -> usize
    ensures { result ≡ at + span of_word (drop at s.now) }
{
    bytes_end(s, at, WordBytes)
}

// Whether a number run goes on with a byte. Most are digits or a dot, and most runs end before a blank or a bracket, all of which come
// before the plus.
fn of_run(c: u8) -> bool
    ensures { result ≡ of_run c }
{
    if between(b'0', b'9', c) {
        return true;
    }
    if c < b'+' {
        return false;
    }
    if c == b'.' {
        return true;
    }
    if ASCII_END <= c {
        return false;
    }
    stays_run(u32::from(c))
}

// The characters of ASCII that a number run goes on with.
#[derive(Clone, Copy)]
struct RunBytes;

impl ByteClass for RunBytes {
    ghost passes = { λ s c. of_run c };

    fn ends(self, c: u8) -> bool {
        !of_run(c)
    }
}

// Where the characters end that a number run goes on with.
pub(crate) fn number_end(s: &[u8], at: usize) -> usize
    ensures { result ≡ at + span of_run (drop at s.now) }
{
    bytes_end(s, at, RunBytes)
}

// Past a run of characters of ASCII that leave an item in its phase.
pub fn ascii_run(s: &[u8], at: usize, phase: Phase) -> usize
    ensures { result ≡ at + span (keeps phase) (drop at s.now) }
{
    match phase {
        Phase::InLine => plain_end(s, at, b'\n', b'\n'),
        Phase::Nest(_) => plain_end(s, at, b'|', b'#'),
        Phase::Quoted(k) => plain_end(s, at, delimiter(k), b'\\'),
        Phase::InWord => word_end(s, at),
        Phase::InRun => number_end(s, at),
        Phase::InHash => word_end(s, at),
        _ => at,
    }
}

// Past the run, from a place on, of the characters that are neither a nor b, which are of ASCII.
pub(crate) fn past_plain(s: &[u8], from: usize, a: u8, b: u8) -> usize
    requires { from ≤ length s.now }
    ensures { (p : Phase) → Holds p a b → Passes s.now p from result }
{
    let mut i = from;
    loop {
        let j = plain_end(s, i, a, b);
        let k = wide_end(s, j);
        if k <= j {
            return k;
        }
        i = k;
    }
}

// Past the characters past ASCII from a place on whose first bytes tell that they are no blanks.
fn past_word_letters(s: &[u8], from: usize) -> usize
    requires { from ≤ length s.now }
    ensures { Passes s.now InWord from result }
{
    let mut i = from;
    loop {
        let n = letter_at(s, i);
        if n == 0 {
            return i;
        }
        i += n;
    }
}

// Past the run of the characters that a word goes on with, from a place on.
pub(crate) fn past_word(s: &[u8], from: usize) -> usize
    requires { from ≤ length s.now }
    ensures { Passes s.now InWord from result × (result < length s.now → of_word (get_or s.now result 0) ≡ false) }
{
    let mut i = from;
    loop {
        let j = word_end(s, i);
        let k = past_word_letters(s, j);
        if k <= j {
            return k;
        }
        i = k;
    }
}

// Past the run of characters that leave the item from `start` on in its phase; in a here-string's body these are all up to its end.
pub(crate) fn run_end(s: &[u8], start: usize, at: usize, phase: Phase) -> usize
    requires { (start ≤ at) × (at ≤ length s.now) }
    ensures { PassesFor s.now start phase at result }
{
    match phase {
        Phase::InLine => past_plain(s, at, b'\n', b'\n'),
        Phase::Nest(_) => past_plain(s, at, b'|', b'#'),
        Phase::Quoted(k) => past_plain(s, at, delimiter(k), b'\\'),
        Phase::InWord => past_word(s, at),
        Phase::InRun => number_end(s, at),
        Phase::InHash => word_end(s, at),
        Phase::HereBody => past_body(s, start, at),
        _ => at,
    }
}
