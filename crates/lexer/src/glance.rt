// Items that one look tells: a bracket, a quote mark, and a word, a number, a character, a string or a comment that the next bytes show to
// be no more than that. Any other is for `next_item`, which reads them all. The text is good UTF-8, so that in quotes and in comments no
// character is looked at but what may end them.
ghost use Rattle.std.specs.Prelude.{◌≡◌, Bool, true, ◌+◌, ◌≤◌, ◌<◌, length, get_or, drop, None};
ghost use Rattle.chars.specs.Utf8.{first_bad};
ghost use Rattle.items.specs.Classes.{in_hash, stops_hash};
ghost use Rattle.items.specs.Whole.{limit};
ghost use Rattle.items.specs.declared.Phase.TheVariants.{InWord, InRun, InLine};
ghost use Rattle.meaning.specs.Meant.{means};
ghost use Rattle.meaning.specs.declared.Text.TheVariants.{Nowhere};
ghost use Rattle.items_telling.specs.declared.Quick.TheVariants.{Bracket};
ghost use Rattle.lexer.specs.Glance.{Begins, Rare, Worded, WordedTo, Quoting, Sharp, Spells, Nests, Marks, GlanceAt, SkimAt};

use byte_runs::ASCII_END;
use chars::letter_at;
use items::{BOOLEAN_LENGTH, CHARACTER_MARK, QUOTE_LENGTH, kinds};
use items_telling::{Quick, bare, named, tell_run, tell_word};
use meaning::{Means, Text};
use steps::{line_ending, nested_ending, quoted_ending, run_ending, word_ending};

// From it on bytes begin characters past ASCII; so does C2, but that begins blanks.
const WIDE_FIRST: u8 = 0xC3;

// How many bytes open a nested comment.
const NEST_LENGTH: usize = 2;

// How many bytes a character of ASCII by itself is: #\a
const CHARACTER_LENGTH: usize = CHARACTER_MARK + 1;

// A bracket.
fn bracket(kind: u32, detail: u32, at: usize, end: usize) -> Quick
    ensures { result ≡ Bracket (means kind detail Nowhere) at end }
{
    let m = Means {
        kind: kind,
        detail: detail,
        text: Text::Nowhere,
    };
    Quick::Bracket(m, at, end)
}

// A word that starts at a place.
fn quick_word(source: &[u8], at: usize) -> Quick
    requires { (length source.now ≤ limit) × Begins source.now at (at + 1) InWord }
    ensures { (report skip : Bool) → GlanceAt source.now report skip at result }
{
    match word_ending(source, at + 1) {
        Some(end) => tell_word(at, end, &source[at..end]),
        None => Quick::Other,
    }
}

// A number run that starts at a place.
fn quick_run(source: &[u8], report: bool, at: usize) -> Quick
    requires { (length source.now ≤ limit) × Begins source.now at (at + 1) InRun }
    ensures { (skip : Bool) → GlanceAt source.now report skip at result }
{
    match run_ending(source, report, at + 1) {
        Some(end) => tell_run(at, end, &source[at..end]),
        None => Quick::Other,
    }
}

// A string, or a word in vertical lines, that starts at a place, by its quote and its kind.
fn quick_quoted(source: &[u8], quote: u8, kind: u32, at: usize) -> Quick
    requires { (length source.now ≤ limit) × Quoting source.now at quote kind × (first_bad (drop (at + 1) source.now) ≡ None) }
    ensures { (report skip : Bool) → GlanceAt source.now report skip at result }
{
    let from = at + QUOTE_LENGTH;
    match quoted_ending(source, from, quote) {
        Some(end) => named(kind, at, end, from, end - QUOTE_LENGTH),
        None => Quick::Other,
    }
}

// A comment to the end of its line that starts at a place, where comments are kept.
fn quick_line(source: &[u8], skip: bool, at: usize) -> Quick
    requires { (length source.now ≤ limit) × Begins source.now at (at + 1) InLine × (first_bad (drop (at + 1) source.now) ≡ None) }
    ensures { (report : Bool) → GlanceAt source.now report skip at result }
{
    if skip {
        return Quick::Other;
    }
    match line_ending(source, at + 1) {
        Some(end) => bare(kinds::COMMENT, kinds::NO_DETAIL, at, end),
        None => Quick::Other,
    }
}

// Whether a byte ends what a number sign began before it, of those that often do.
fn ends_hash(b: u8) -> bool
    ensures { result ≡ true → (b < 0x80) × (in_hash b ≡ stops_hash) }
{
    matches!(b, b')' | b']' | b' ' | b'\n')
}

// A boolean of one letter that starts at a place.
fn quick_boolean(source: &[u8], value: u32, at: usize) -> Quick
    requires { (length source.now ≤ limit) × Spells source.now at value }
    ensures { (report skip : Bool) → GlanceAt source.now report skip at result }
{
    let end = at + BOOLEAN_LENGTH;
    if source.len() <= end {
        return Quick::Other;
    }
    if ends_hash(source[end]) {
        return bare(kinds::BOOLEAN_LITERAL, value, at, end);
    }
    Quick::Other
}

// A character of ASCII by itself that starts at a place.
fn quick_character(source: &[u8], at: usize) -> Quick
    requires { (length source.now ≤ limit) × Marks source.now at }
    ensures { (report skip : Bool) → GlanceAt source.now report skip at result }
{
    let end = at + CHARACTER_LENGTH;
    if source.len() <= end {
        return Quick::Other;
    }
    let c = source[at + CHARACTER_MARK];
    if ASCII_END <= c {
        return Quick::Other;
    }
    if ends_hash(source[end]) {
        return bare(kinds::CHARACTER_LITERAL, c as u32, at, end);
    }
    Quick::Other
}

// A nested comment that starts at a place, where comments are kept.
fn quick_nested(source: &[u8], skip: bool, at: usize) -> Quick
    requires { (length source.now ≤ limit) × Nests source.now at × (first_bad source.now ≡ None) }
    ensures { (report : Bool) → GlanceAt source.now report skip at result }
{
    if skip {
        return Quick::Other;
    }
    match nested_ending(source, at + NEST_LENGTH) {
        Some(end) => bare(kinds::COMMENT, kinds::NO_DETAIL, at, end),
        None => Quick::Other,
    }
}

// What a number sign begins, by the byte after it.
fn quick_hash(source: &[u8], skip: bool, at: usize) -> Quick
    requires { (length source.now ≤ limit) × Sharp source.now at × (first_bad source.now ≡ None) }
    ensures { (report : Bool) → GlanceAt source.now report skip at result }
{
    let next = at + 1;
    if source.len() <= next {
        return Quick::Other;
    }
    match source[next] {
        b'(' => bracket(kinds::OPEN_PAREN, kinds::VECTOR, at, next + 1),
        b't' => quick_boolean(source, kinds::TRUE, at),
        b'f' => quick_boolean(source, kinds::FALSE, at),
        b'|' => quick_nested(source, skip, at),
        b'\\' => quick_character(source, at),
        _ => Quick::Other,
    }
}

// The item that starts at a place, by its first byte.
pub fn quick_at(source: &[u8], report: bool, skip: bool, at: usize) -> Quick
    requires { (length source.now ≤ limit) × (at < length source.now) × (first_bad source.now ≡ None) }
    ensures { GlanceAt source.now report skip at result }
{
    match source[at] {
        b'(' => bracket(kinds::OPEN_PAREN, kinds::ROUND, at, at + 1),
        b')' => bracket(kinds::CLOSE_PAREN, kinds::ROUND, at, at + 1),
        b'[' => bracket(kinds::OPEN_PAREN, kinds::SQUARE, at, at + 1),
        b']' => bracket(kinds::CLOSE_PAREN, kinds::SQUARE, at, at + 1),
        b'{' => bracket(kinds::OPEN_PAREN, kinds::CURLY, at, at + 1),
        b'}' => bracket(kinds::CLOSE_PAREN, kinds::CURLY, at, at + 1),
        b'\'' => bare(kinds::QUOTE_TICK, kinds::NO_DETAIL, at, at + 1),
        b'`' => bare(kinds::QUASI_QUOTE, kinds::NO_DETAIL, at, at + 1),
        b'a'..=b'z' => quick_word(source, at),
        b'0'..=b'9' => quick_run(source, report, at),
        b'"' => quick_quoted(source, b'"', kinds::STRING_LITERAL, at),
        b';' => quick_line(source, skip, at),
        b'#' => quick_hash(source, skip, at),
        _ => Quick::Other,
    }
}

// Whether a byte may begin a word of those that are told after all others: a capital letter, one of < = > ? @ before them, or the first byte
// of a character past ASCII.
fn begins_rare(b: u8) -> bool
    ensures { result ≡ true → Rare b }
{
    if b < b'<' {
        return false;
    }
    if b <= b'Z' {
        return true;
    }
    WIDE_FIRST <= b
}

// Where the first character of such a word ends; the place itself where it may be a blank.
fn rare_start(source: &[u8], at: usize) -> usize
    requires { (length source.now ≤ limit) × (at < length source.now) × Rare (get_or source.now at 0) }
    ensures { at < result → Worded source.now at result }
{
    if source[at] < ASCII_END {
        return at + 1;
    }
    at + letter_at(source, at)
}

// The end of such a word.
fn rare_ending(source: &[u8], at: usize) -> Option<usize>
    requires { (length source.now ≤ limit) × (at < length source.now) }
    ensures { WordedTo source.now at result }
{
    if !begins_rare(source[at]) {
        return None;
    }
    let next = rare_start(source, at);
    if next <= at {
        return None;
    }
    word_ending(source, next)
}

// Such a word.
fn rare_word(source: &[u8], at: usize) -> Quick
    requires { (length source.now ≤ limit) × (at < length source.now) }
    ensures { (report skip : Bool) → GlanceAt source.now report skip at result }
{
    match rare_ending(source, at) {
        Some(end) => tell_word(at, end, &source[at..end]),
        None => Quick::Other,
    }
}

// What is told after all others: such a word, one in vertical lines, and a number that begins with a minus sign. It is asked for where
// `quick_at` tells nothing: were these arms there, the compiler would make slower code of all arms.
pub fn quick_rare(source: &[u8], report: bool, at: usize) -> Quick
    requires { (length source.now ≤ limit) × (at < length source.now) × (first_bad source.now ≡ None) }
    ensures { (skip : Bool) → GlanceAt source.now report skip at result }
{
    match source[at] {
        b'|' => quick_quoted(source, b'|', kinds::IDENTIFIER, at),
        b'-' => quick_run(source, report, at),
        _ => rare_word(source, at),
    }
}

// The end of a comment to the end of its line that starts at a place, where comments are kept.
fn skim_line(source: &[u8], skip: bool, at: usize) -> Option<usize>
    requires { (length source.now ≤ limit) × Begins source.now at (at + 1) InLine × (first_bad (drop (at + 1) source.now) ≡ None) }
    ensures { (report : Bool) → SkimAt source.now report skip at result }
{
    if skip {
        return None;
    }
    line_ending(source, at + 1)
}

// The end of what a number sign begins.
fn skim_hash(source: &[u8], skip: bool, at: usize) -> Option<usize>
    requires { (length source.now ≤ limit) × Sharp source.now at × (first_bad source.now ≡ None) }
    ensures { (report : Bool) → SkimAt source.now report skip at result }
{
    match quick_hash(source, skip, at) {
        Quick::Item(_, _, end) => Some(end),
        Quick::Bracket(_, _, end) => Some(end),
        Quick::Other => None,
    }
}

// The end of what is told after all others.
fn skim_rare(source: &[u8], report: bool, at: usize) -> Option<usize>
    requires { (length source.now ≤ limit) × (at < length source.now) × (first_bad source.now ≡ None) }
    ensures { (skip : Bool) → SkimAt source.now report skip at result }
{
    let next = at + 1;
    match source[at] {
        b'|' => quoted_ending(source, next, b'|'),
        b'-' => run_ending(source, report, next),
        _ => rare_ending(source, at),
    }
}

// The end of the item that starts at a place, by its first byte: what it means is not asked for.
pub fn skim_at(source: &[u8], report: bool, skip: bool, at: usize) -> Option<usize>
    requires { (length source.now ≤ limit) × (at < length source.now) × (first_bad source.now ≡ None) }
    ensures { SkimAt source.now report skip at result }
{
    let next = at + 1;
    match source[at] {
        b'(' => Some(next),
        b')' => Some(next),
        b'[' => Some(next),
        b']' => Some(next),
        b'{' => Some(next),
        b'}' => Some(next),
        b'\'' => Some(next),
        b'`' => Some(next),
        b'a'..=b'z' => word_ending(source, next),
        b'0'..=b'9' => run_ending(source, report, next),
        b'"' => quoted_ending(source, next, b'"'),
        b';' => skim_line(source, skip, at),
        b'#' => skim_hash(source, skip, at),
        _ => skim_rare(source, report, at),
    }
}
