// What the bytes of an extent tell at one look: the item of a word, a number run or a string that is no more than that, for the whole-text
// call (`lexer`) and for the piece calls (`pieces_quick`). Where they tell nothing the item is read as any other.
#![tactic(auto)]

ghost use Rattle.std.specs.Prelude.{◌≡◌, ◌+◌, ◌<◌, length};
ghost use Rattle.items.specs.declared.Outcome.TheVariants.{Word, Run, Str};
ghost use Rattle.meaning.specs.Meant.{means};
ghost use Rattle.meaning.specs.declared.Text.TheVariants.{Nowhere};
ghost use Rattle.items_telling.specs.declared.Quick.TheVariants.{Item};
ghost use Rattle.items_telling.specs.Tells.{Tells};

use escapes::has_escape;
use items::{QUOTE_LENGTH, kinds};
use meaning::{Means, Text};
use numbers::is_plain;
use spellings::words::word_kind;

mod strings;

pub use strings::string_at;

// What one look tells.
#[derive(Clone, Copy)]
pub enum Quick {
    // an item that is no bracket, by its meaning and its extent
    Item(Means, usize, usize),
    // a bracket, by the same
    Bracket(Means, usize, usize),
    // anything else
    Other,
}

// What the bytes of a string tell from a place on.
#[derive(Clone, Copy)]
pub enum Strung {
    // it is whole, and ends at a place
    Whole(usize),
    // it is an error, at the character at a place, which ends it
    Fails(usize),
    // it goes on at a place, and the scan tells the rest
    On(usize),
}

// An item without text that is no bracket.
pub fn bare(kind: u32, detail: u32, at: usize, end: usize) -> Quick
    ensures { result ≡ Item (means kind detail Nowhere) at end }
{
    let m = Means {
        kind: kind,
        detail: detail,
        text: Text::Nowhere,
    };
    Quick::Item(m, at, end)
}

// An item with text of the source.
pub fn named(kind: u32, at: usize, end: usize, from: usize, to: usize) -> Quick
    ensures { result ≡ Item (means kind 0 (Text.Source from to)) at end }
{
    let m = Means {
        kind: kind,
        detail: kinds::NO_DETAIL,
        text: Text::Source(from, to),
    };
    Quick::Item(m, at, end)
}

// What a word's bytes tell. One that begins with a plus may be two.
pub fn tell_word(at: usize, end: usize, raw: &[u8]) -> Quick
    requires { (0 < length raw.now) × (end ≡ at + length raw.now) }
    ensures { Tells Word at raw.now result }
{
    if raw[0] == b'+' {
        return Quick::Other;
    }
    let kind = word_kind(raw);
    if kind == kinds::IDENTIFIER {
        return named(kinds::IDENTIFIER, at, end, at, end);
    }
    bare(kind, kinds::NO_DETAIL, at, end)
}

// What a number run's bytes tell.
pub fn tell_run(at: usize, end: usize, raw: &[u8]) -> Quick
    requires { end ≡ at + length raw.now }
    ensures { Tells Run at raw.now result }
{
    if is_plain(raw) {
        return bare(kinds::NUMBER, kinds::NO_DETAIL, at, end);
    }
    Quick::Other
}

// What a string's bytes tell: its text lies in the source where it has no escape.
pub fn tell_string(at: usize, end: usize, raw: &[u8]) -> Quick
    requires { (0 < length raw.now) × (end ≡ at + length raw.now) }
    ensures { Tells Str at raw.now result }
{
    if has_escape(raw) {
        return Quick::Other;
    }
    named(
        kinds::STRING_LITERAL,
        at,
        end,
        at + QUOTE_LENGTH,
        end - QUOTE_LENGTH,
    )
}
