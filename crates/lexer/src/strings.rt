// A string at a place, by its bytes: it is whole, it is an error at an escape that is none, or the scan reads it on.
ghost use Rattle.std.specs.Prelude.{◌≡◌, true, ℕ, ◌+◌, ◌≤◌, length};
ghost use Rattle.items.specs.Whole.{limit};
ghost use Rattle.items.specs.declared.Phase.TheVariants.{Quoted};
ghost use Rattle.items.specs.declared.Quotes.TheVariants.{Double};
ghost use Rattle.lexer.specs.Reading.{turn, found_of};
ghost use Rattle.lexer.specs.Glance.{Begins};
ghost use Rattle.lexer.specs.Begun.{WrongAt, BegunAs};

use crate::reading::past;
use crate::{Beginning, Found, Spot};
use items::kinds::{FIRST_ERROR, INVALID_STRING_ESCAPE};
use items::{Outcome, Phase, Quotes};
use items_telling::{Strung, string_at};
use meaning::records::nine_of;
use meaning::{Means, Range, Text};

// Whether a string starts at a place.
pub fn quote_at(source: &[u8], at: usize) -> bool
    ensures { result ≡ true → Begins source.now at (at + 1) (Quoted Double) }
{
    if source.len() <= at {
        return false;
    }
    source[at] == b'"'
}

// The string that starts at a place.
pub fn begin_string(source: &[u8], at: usize) -> Beginning
    requires { Begins source.now at (at + 1) (Quoted Double) }
    ensures { BegunAs source.now at result }
{
    match string_at(source, at + 1) {
        Strung::Whole(end) => Beginning::At(at, end, Phase::Done(Outcome::Str)),
        Strung::Fails(end) => Beginning::Wrong(end),
        Strung::On(from) => Beginning::At(at, from, Phase::Quoted(Quotes::Double)),
    }
}

// The error at a spot that ends at a place: it points at the backslash before and at the character there, and it has no text.
pub fn wrong(source: &[u8], p: Spot, end: usize) -> Option<Found>
    requires { (length source.now ≤ limit) × WrongAt source.now p.at end }
    ensures { (free : ℕ) → result ≡ found_of free (turn source.now p) }
{
    let range = Range {
        from: (end - 1) as u32,
        to: (end + 1) as u32,
    };
    let extent = Range {
        from: p.at as u32,
        to: end as u32,
    };
    let b = source[end];
    let m = Means {
        kind: FIRST_ERROR + INVALID_STRING_ESCAPE,
        detail: b as u32,
        text: Text::Nowhere,
    };
    Some(Found {
        nine: nine_of(m, extent, range, 0),
        after: past(p, end, range),
    })
}
