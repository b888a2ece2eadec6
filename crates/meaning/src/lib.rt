// What an extent holds, once its outcome is known: the kind, the detail and the text of its one item or two, the `error` range that it
// sets, and the nine words of a record. Reads the extent's bytes, wherever they lie, and answers numbers. The rules are document 01's,
// "An item"; crate `items` defines them (specs/Meaning and specs/Items). The whole-text call and the pieces both call these functions,
// which are internal to the reader.
#![tactic(auto)]

ghost use Rattle.std.specs.Prelude.{◌≡◌, ◌&&◌, ◌+◌, ◌≤◌, ◌<◌, ◌^◌, length, ltb};
ghost use Rattle.laws.specs.Quoted.{code};
ghost use Rattle.items.specs.Readers.{first_is};
ghost use Rattle.numbers.specs.Grammar.{parse_number};
ghost use Rattle.items.specs.Meaning.{word_means, run_means, character_means, character_of, char_inside, meaning_of};
ghost use Rattle.meaning.specs.Meant.{only, pair, meant, sized_all, error_of, last_error};

use items::Outcome;
use items::kinds::NO_DETAIL;
use numbers::{ParseError, is_plain, parse_number};
use spellings::words::word_kind;

pub mod places;
mod quoted;
pub mod records;

use items::kinds::{
    CHARACTER_LITERAL, FIRST_ERROR, IDENTIFIER, KEYWORD, NUMBER, STRING_LITERAL, ZERO_DENOMINATOR,
};
use items::{CHARACTER_MARK, CharError};
use quoted::{here_text, lined_text, string_text};
use spellings::characters::character;
use spellings::failing::rest;

// Where an item's text lies.
#[derive(Clone, Copy)]
pub enum Text {
    // it has none: (
    Nowhere,
    // from a place of the source to a place: foo
    Source(usize, usize),
    // in the text memory, which it takes this many bytes of: "a\n"
    Decoded(usize),
}

// The kind, the detail and the text of an item.
#[derive(Clone, Copy)]
pub struct Means {
    pub kind: u32,
    pub detail: u32,
    pub text: Text,
}

// The items of one extent.
#[derive(Clone, Copy)]
pub enum Meant {
    // foo
    One(Means),
    // +foo
    Two(Means, Means),
}

// From a place of the text to a place.
#[derive(Clone, Copy)]
pub struct Range {
    pub from: u32,
    pub to: u32,
}

fn one(kind: u32, detail: u32, text: Text) -> Meant
    ensures { result ≡ only kind detail text }
{
    Meant::One(Means {
        kind: kind,
        detail: detail,
        text: text,
    })
}

// The two identifiers of a word that begins with a plus.
fn two(start: usize, end: usize) -> Meant
    requires { start < end }
    ensures { result ≡ pair start end }
{
    let cut = start + 1;
    let plus = Means {
        kind: IDENTIFIER,
        detail: NO_DETAIL,
        text: Text::Source(start, cut),
    };
    let after = Means {
        kind: IDENTIFIER,
        detail: NO_DETAIL,
        text: Text::Source(cut, end),
    };
    Meant::Two(plus, after)
}

// Whether a word begins with a plus and goes on.
pub(crate) fn splits(raw: &[u8]) -> bool
    ensures { result ≡ (first_is (code "+") raw.now && ltb 1 (length raw.now)) }
{
    if raw.len() <= 1 {
        return false;
    }
    raw[0] == b'+'
}

// What a word's extent holds.
fn word(start: usize, end: usize, raw: &[u8]) -> Meant
    requires { (0 < length raw.now) × (end ≡ start + length raw.now) }
    ensures { meant result ≡ sized_all (word_means start end raw.now) }
{
    let kind = word_kind(raw);
    if kind != IDENTIFIER {
        return one(kind, NO_DETAIL, Text::Nowhere);
    }
    if splits(raw) {
        return two(start, end);
    }
    one(IDENTIFIER, NO_DETAIL, Text::Source(start, end))
}

// What a number run's extent holds. The plainest numbers are told without their parts.
fn run(start: usize, end: usize, raw: &[u8]) -> Meant
    requires { (0 < length raw.now) × (end ≡ start + length raw.now) }
    ensures { meant result ≡ sized_all (run_means (parse_number raw.now) start end raw.now) }
{
    if is_plain(raw) {
        return one(NUMBER, NO_DETAIL, Text::Nowhere);
    }
    match parse_number(raw) {
        Ok(_) => one(NUMBER, NO_DETAIL, Text::Nowhere),
        Err(ParseError::NoNumber) => word(start, end, raw),
        Err(ParseError::ZeroDenominator) => one(
            FIRST_ERROR + ZERO_DENOMINATOR,
            NO_DETAIL,
            Text::Nowhere,
        ),
    }
}

// What a character's extent holds.
fn character_item(report: bool, raw: &[u8]) -> Meant
    ensures { meant result ≡ sized_all (character_means (character_of report (char_inside raw.now))) }
{
    match character(report, rest(raw, CHARACTER_MARK)) {
        Ok(c) => one(CHARACTER_LITERAL, c, Text::Nowhere),
        Err(CharError::Wrong(error, detail)) => one(FIRST_ERROR + error, detail, Text::Nowhere),
        Err(CharError::WrongAt(error, detail, _)) => one(
            FIRST_ERROR + error,
            detail,
            Text::Nowhere,
        ),
    }
}

// The items of an extent, by its outcome, its first place and its bytes.
pub fn meaning(report: bool, what: Outcome, start: usize, raw: &[u8]) -> Meant
    requires { (0 < length raw.now) × (start + length raw.now < 2 ^ 64) × (error_of what ≤ last_error) }
    ensures { meant result ≡ sized_all (meaning_of report what start (start + length raw.now) raw.now) }
{
    let end = start + raw.len();
    match what {
        Outcome::Token(kind, detail) => one(kind, detail, Text::Nowhere),
        Outcome::Str => one(STRING_LITERAL, NO_DETAIL, string_text(start, end, raw)),
        Outcome::HereStr => one(STRING_LITERAL, NO_DETAIL, here_text(start, end, raw)),
        Outcome::Word => word(start, end, raw),
        Outcome::Run => run(start, end, raw),
        Outcome::Lined => one(IDENTIFIER, NO_DETAIL, lined_text(start, end, raw)),
        Outcome::Keyword => one(KEYWORD, NO_DETAIL, Text::Source(start, end)),
        Outcome::Character => character_item(report, raw),
        Outcome::Error(error, detail) => one(FIRST_ERROR + error, detail, Text::Nowhere),
        Outcome::ErrorAt(error, detail, _from, _to) => one(
            FIRST_ERROR + error,
            detail,
            Text::Nowhere,
        ),
    }
}
