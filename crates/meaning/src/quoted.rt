// Where the text of a string, a here-string or an identifier in vertical lines lies. Document 01: it "lies in the text memory for a
// string with an escape, and for an identifier wholly in vertical lines with an escape and a non-empty decoded text; else in the source".
ghost use Rattle.std.specs.Prelude.{◌≡◌, ◌+◌, ◌-◌, ◌≤◌, ◌<◌, length, drop};
ghost use Rattle.items.specs.Readers.{after_line, here_inside};
ghost use Rattle.items.specs.Meaning.{string_text, lined_text, here_text};
ghost use Rattle.meaning.specs.declared.Text.TheVariants.{Source};
ghost use Rattle.meaning.specs.Meant.{sized_text};

use crate::Text;
use escapes::{decoded_length, has_escape};
use items::{QUOTE_LENGTH, Quotes};
use spellings::failing::rest;
use steps::{delimiter_length, here_line};

// How many bytes a newline and the mark #<< are.
const NEWLINE_LENGTH: usize = 1;

const HERE_MARK: usize = 3;

// What stands between the quotes, as it is in the source.
fn between(start: usize, end: usize) -> Text
    requires { start < end }
    ensures { result ≡ Source (start + 1) (end - 1) }
{
    Text::Source(start + QUOTE_LENGTH, end - QUOTE_LENGTH)
}

// Where the text of a string lies, and how long it is.
pub fn string_text(start: usize, end: usize, raw: &[u8]) -> Text
    requires { (0 < length raw.now) × (start < end) }
    ensures { result ≡ sized_text (string_text start end raw.now) }
{
    if has_escape(raw) {
        return Text::Decoded(decoded_length(raw, QUOTE_LENGTH, Quotes::Double));
    }
    between(start, end)
}

// The same of an identifier in vertical lines.
pub fn lined_text(start: usize, end: usize, raw: &[u8]) -> Text
    requires { (0 < length raw.now) × (start < end) }
    ensures { result ≡ sized_text (lined_text start end raw.now) }
{
    if has_escape(raw) {
        let length = decoded_length(raw, QUOTE_LENGTH, Quotes::Lines);
        if length == 0 {
            return between(start, end);
        }
        return Text::Decoded(length);
    }
    between(start, end)
}

// How long the body of a here-string is, its delimiter at the end counted in.
fn body_length(raw: &[u8]) -> usize
    ensures { result ≡ length (after_line (here_inside raw.now)) }
{
    let inside = rest(raw, HERE_MARK);
    let body = rest(rest(inside, here_line(raw)), NEWLINE_LENGTH);
    body.len()
}

// A here-string's text is its body without the delimiter.
pub fn here_text(start: usize, end: usize, raw: &[u8]) -> Text
    requires { length raw.now ≤ end }
    ensures { result ≡ sized_text (here_text start end raw.now) }
{
    Text::Source(end - body_length(raw), end - delimiter_length(raw))
}
