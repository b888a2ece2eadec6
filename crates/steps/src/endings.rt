// Endings: where a word, a number run, an item in quotes or a comment ends, as far as one look past its run of characters tells. Most items
// need no more; the scan reads any.
ghost use Rattle.std.specs.Prelude.{◌≡◌, None, Bool, ◌≤◌, length, drop};
ghost use Rattle.chars.specs.Utf8.{first_bad};
ghost use Rattle.items.specs.Classes.{delim_of};
ghost use Rattle.items.specs.Readers.{comment};
ghost use Rattle.items.specs.declared.Outcome.TheVariants.{Word, Run};
ghost use Rattle.items.specs.declared.Phase.TheVariants.{InWord, InRun, InLine, Nest};
ghost use Rattle.items.specs.declared.Quotes.{Quotes};
ghost use Rattle.steps.specs.Ended.{EndsAs, Closes};

use crate::runs::{number_end, past_word, word_end};
use crate::words::ends_run;
use byte_runs::{ASCII_END, apart_end};

// The end of a word that stands at a place, where characters past ASCII may follow.
fn word_on(s: &[u8], from: usize) -> Option<usize>
    requires { from ≤ length s.now }
    ensures { (report : Bool) → EndsAs s.now report InWord Word from result }
{
    let end = past_word(s, from);
    if s.len() <= end {
        return Some(end);
    }
    let b = s[end];
    if ASCII_END <= b {
        return None;
    }
    (b != b'\\').then_some(end)
}

// The end of a word that stands at a place. Most have no character past ASCII.
pub fn word_ending(s: &[u8], from: usize) -> Option<usize>
    requires { from ≤ length s.now }
    ensures { (report : Bool) → EndsAs s.now report InWord Word from result }
{
    let end = word_end(s, from);
    if s.len() <= end {
        return Some(end);
    }
    let b = s[end];
    if ASCII_END <= b {
        return word_on(s, end);
    }
    (b != b'\\').then_some(end)
}

// The end of a number run that stands at a place. Most end before a space.
pub fn run_ending(s: &[u8], report: bool, from: usize) -> Option<usize>
    requires { from ≤ length s.now }
    ensures { EndsAs s.now report InRun Run from result }
{
    let end = number_end(s, from);
    if s.len() <= end {
        return Some(end);
    }
    let b = s[end];
    if b == b' ' {
        return Some(end);
    }
    if ASCII_END <= b {
        return None;
    }
    ends_run(report, u32::from(b)).then_some(end)
}

// The end of a string, or of a word in vertical lines, from a place between its quotes, by the byte that closes them, where the text is good
// from there on. Most have no escape.
pub fn quoted_ending(s: &[u8], from: usize, quote: u8) -> Option<usize>
    requires { (from ≤ length s.now) × (first_bad (drop from s.now) ≡ None) }
    ensures { (k : Quotes) → quote ≡ delim_of k → Closes s.now k from result }
{
    let end = apart_end(s, from, quote, b'\\');
    (*s.get(end)? == quote).then_some(end + 1)
}

// The end of a comment that goes to the end of its line, from a place in it, where the text is good from there on.
pub fn line_ending(s: &[u8], from: usize) -> Option<usize>
    requires { (from ≤ length s.now) × (first_bad (drop from s.now) ≡ None) }
    ensures { (report : Bool) → EndsAs s.now report InLine comment from result }
{
    let end = apart_end(s, from, b'\n', b'\n');
    if s.len() <= end {
        return Some(end);
    }
    Some(end + 1)
}

// The end of a nested comment that holds no other, from the place past its `#|`, where the text is good from there on. Most hold no `|`
// and no `#` at all.
pub fn nested_ending(s: &[u8], from: usize) -> Option<usize>
    requires { (from ≤ length s.now) × (first_bad (drop from s.now) ≡ None) }
    ensures { (report : Bool) → EndsAs s.now report (Nest 1) comment from result }
{
    let bar = apart_end(s, from, b'|', b'#');
    s[bar..].starts_with(b"|#").then_some(bar + 2)
}
