// Lines and columns, counted from a text's start, and the part of a line that is shown.
ghost use Rattle.std.specs.Prelude.{◌≡◌, ◌+◌, ◌-◌, ◌≤◌, length, if◌then◌else◌};
ghost use Rattle.laws.specs.Quoted.{within};
ghost use Rattle.findings_render_parts.specs.Spots.{IsPlace, count_in, start_of, line_number, column_number, cut_return, end_of, later, next_character, shown_from, shown_to, window_of};

use crate::Window;
use byte_runs::{ByteClass, bytes_end, find};
use chars::{TAIL_HIGH, TAIL_LOW, between};

// How many bytes of a line are shown, and of a longer one how many before the place.
const SHOWN: usize = 160;

const SHOWN_BEFORE: usize = 80;

// How many of the n bytes from a place on are one of low..high.
fn count(s: &[u8], from: usize, n: usize, low: u8, high: u8) -> usize
    requires { from + n ≤ length s.now }
    ensures { (result ≡ count_in low high s.now from n) × (result ≤ n) }
{
    let mut found: usize = 0;
    for i in 0..n {
        if between(low, high, s[from + i]) {
            found += 1;
        }
    }
    found
}

// Where the line of a place starts.
pub fn line_start(s: &[u8], at: usize) -> usize
    requires { at ≤ length s.now }
    ensures { (result ≡ start_of s.now at) × (result ≤ at) }
{
    for i in (0..at).rev() {
        if s[i] == b'\n' {
            return i + 1;
        }
    }
    0
}

// The line of a place.
pub fn line_number(s: &[u8], at: usize) -> usize
    requires { IsPlace s.now at }
    ensures { result ≡ line_number s.now at }
{
    1 + count(s, 0, at, b'\n', b'\n')
}

// The column of a place.
pub fn column_number(s: &[u8], at: usize) -> usize
    requires { IsPlace s.now at }
    ensures { result ≡ column_number s.now at }
{
    let start = line_start(s, at);
    1 + (at - start - count(s, start, at - start, TAIL_LOW, TAIL_HIGH))
}

// A line's end without its carriage return.
fn cut_return(s: &[u8], start: usize, end: usize) -> usize
    requires { end ≤ length s.now }
    ensures { result ≡ cut_return s.now start end }
{
    if start < end && s[end - 1] == b'\r' {
        end - 1
    } else {
        end
    }
}

// Where the line of a place ends.
fn line_end(s: &[u8], at: usize) -> usize
    requires { at ≤ length s.now }
    ensures { result ≡ end_of s.now at }
{
    cut_return(s, line_start(s, at), find(s, at, b'\n'))
}

// The bytes that continue a character.
#[derive(Clone, Copy)]
struct Tail;

impl ByteClass for Tail {
    ghost passes = { λ s c. later c };

    fn ends(self, c: u8) -> bool {
        !between(TAIL_LOW, TAIL_HIGH, c)
    }
}

// The first place from one on that does not lie in a character.
fn next_character(s: &[u8], at: usize) -> usize
    ensures { result ≡ next_character s.now at }
{
    bytes_end(s, at, Tail)
}

fn shown_from(s: &[u8], start: usize, end: usize, at: usize) -> usize
    ensures { result ≡ shown_from s.now start end at }
{
    if end.saturating_sub(start) <= SHOWN {
        return start;
    }
    if at.saturating_sub(start) <= SHOWN_BEFORE {
        return start;
    }
    next_character(s, at.saturating_sub(SHOWN_BEFORE))
}

fn shown_to(s: &[u8], from: usize, end: usize) -> usize
    ensures { result ≡ shown_to s.now from end }
{
    if end.saturating_sub(from) <= SHOWN {
        return end;
    }
    next_character(s, from + SHOWN)
}

// What is shown of the line of a place.
pub fn window(s: &[u8], at: usize) -> Window
    requires { at ≤ length s.now }
    ensures { result ≡ window_of s.now at }
{
    let start = line_start(s, at);
    let end = line_end(s, at);
    let from = shown_from(s, start, end, at);
    Window {
        start,
        from,
        to: shown_to(s, from, end),
        end,
    }
}
