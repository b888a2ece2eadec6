// Strings and identifiers in vertical lines: `read_string`, `read_string_escape`, and `read_word` where a vertical line opens the word.
ghost use Rattle.std.specs.Prelude.{◌≡◌, true, List, ℕ, ◌+◌, ◌^◌, ◌<◌, ◌≤◌, length, drop, eqb, if◌then◌else◌};
ghost use Rattle.laws.specs.Quoted.{code};
ghost use Rattle.chars.specs.Encode.{width};
ghost use Rattle.digits.specs.Hex.{hex_value};
ghost use Rattle.items.specs.Classes.{delim_of, in_quotes, after_backslash, stops_hex, in_hex, in_trim};
ghost use Rattle.items.specs.Readers.{so_far, eat, lined_of, closed, unclosed, cut, scalar_of, failing};
ghost use Rattle.items.specs.Machine.{on_quoted, on_escape, close_hex, on_hex, on_brace, on_trim_before, on_trim_after};

use crate::runs::delimiter;
use crate::signs::*;
use chars::char_width;
use digits::hex_value;
use items::{CharError, Next, Outcome, Phase, Quotes, kinds};
use spellings::characters::scalar_of;
use spellings::failing::{past_failing, rest};

// What closes the quotes.
fn delim_of(k: Quotes) -> u32
    ensures { result ≡ delim_of k }
{
    u32::from(delimiter(k))
}

// What a word is, at its end, that has a vertical line where `read_word` began.
fn lined_of(raw: &[u8]) -> Outcome
    ensures { result ≡ lined_of raw.now }
{
    let n = raw.len();
    if n <= 1 {
        return Outcome::Error(kinds::INCOMPLETE_IDENTIFIER, kinds::NO_DETAIL);
    }
    if raw[0] == b'+' {
        return Outcome::Word;
    }
    if raw[0] != b'|' {
        return Outcome::Error(kinds::INCOMPLETE_IDENTIFIER, kinds::NO_DETAIL);
    }
    if raw[n - 1] == b'|' {
        return Outcome::Lined;
    }
    Outcome::Error(kinds::INCOMPLETE_IDENTIFIER, kinds::NO_DETAIL)
}

// What the item is whose quotes are closed.
pub(crate) fn closed(k: Quotes, raw: &[u8]) -> Outcome
    ensures { result ≡ closed k raw.now }
{
    match k {
        Quotes::Double => Outcome::Str,
        Quotes::Lines => lined_of(raw),
    }
}

// What the item is where the text ends inside the quotes.
pub(crate) fn unclosed(k: Quotes, raw: &[u8]) -> Outcome
    ensures { result ≡ unclosed k raw.now }
{
    match k {
        Quotes::Double => Outcome::Error(kinds::INCOMPLETE_STRING, kinds::NO_DETAIL),
        Quotes::Lines => lined_of(raw),
    }
}

// What the item is where the text ends inside an escape.
pub(crate) fn cut(k: Quotes) -> Outcome
    ensures { result ≡ cut k }
{
    match k {
        Quotes::Double => Outcome::Error(kinds::INCOMPLETE_STRING, kinds::NO_DETAIL),
        Quotes::Lines => Outcome::Error(kinds::INCOMPLETE_IDENTIFIER, kinds::NO_DETAIL),
    }
}

// In quotes, whatever stands in them so far: `read_string`.
pub(crate) fn read_string(k: Quotes, at: usize, c: u32) -> Next
    ensures { (raw : List ℕ) → result ≡ on_quoted (in_quotes k c) k (so_far raw at) c }
{
    if c == delim_of(k) {
        return Next::Eat(Phase::Closed(k));
    }
    if c == BACKSLASH {
        return Next::Eat(Phase::Escape(k, at));
    }
    Next::Eat(Phase::Quoted(k))
}

// After the backslash of an escape, which stands at `from`: `read_string_escape`.
pub(crate) fn read_string_escape(k: Quotes, from: usize, raw: &[u8], at: usize, c: u32) -> Next
    requires { (length raw.now ≤ at) × (at + width c < 2 ^ 64) }
    ensures { result ≡ on_escape (after_backslash c) k from (so_far raw.now at) c }
{
    match c {
        DOUBLE_QUOTE | BACKSLASH | VERTICAL => Next::Eat(Phase::Quoted(k)),
        LOWER_A | LOWER_T | LOWER_N | LOWER_R => Next::Eat(Phase::Quoted(k)),
        LOWER_B | ZERO => Next::Eat(Phase::Quoted(k)),
        LOWER_X => Next::Eat(Phase::Hex(k, SEMICOLON, from, raw.len() + char_width(c))),
        LOWER_U => Next::Eat(Phase::Brace(k, from)),
        SPACE | TAB => Next::Eat(Phase::TrimBefore(k)),
        NEWLINE => Next::Eat(Phase::TrimAfter(k)),
        _ => Next::Stop(Outcome::ErrorAt(
            kinds::INVALID_STRING_ESCAPE,
            c,
            from,
            at + char_width(c),
        )),
    }
}

// The item ends with this character, as an error that sets a range.
fn broken(error: u32, detail: u32, from: usize, to: usize) -> Next
    ensures { result ≡ Next.Eat (Phase.Done (Outcome.ErrorAt error detail from to)) }
{
    Next::Eat(Phase::Done(Outcome::ErrorAt(error, detail, from, to)))
}

// The item ends with this character, as an error of the escape from `from` to `to` that fails at the place `at`, where `left` stands.
fn failing_at(
    report: bool,
    error: u32,
    detail: u32,
    from: usize,
    to: usize,
    at: usize,
    left: &[u8],
) -> Next
    requires { at + length left.now < 2 ^ 64 }
    ensures { result ≡ Next.Eat (Phase.Done (failing report error detail from to at left.now)) }
{
    if report {
        return broken(error, detail, at, past_failing(detail, at, left));
    }
    broken(error, detail, from, to)
}

// Whether c breaks a hex escape off before its closer.
fn breaks_hex(k: Quotes, c: u32) -> bool
    ensures { result ≡ (if stops_hex c then true else eqb c (delim_of k)) }
{
    match c {
        SEMICOLON | BACKSLASH | NEWLINE => true,
        OPEN_ROUND | OPEN_SQUARE | OPEN_CURLY => true,
        CLOSE_ROUND | CLOSE_SQUARE | CLOSE_CURLY => true,
        _ => c == delim_of(k),
    }
}

// After `\u`, whose digits may stand in braces.
pub(crate) fn open_brace(
    report: bool,
    k: Quotes,
    from: usize,
    raw: &[u8],
    at: usize,
    c: u32,
) -> Next
    requires { (length raw.now ≤ at) × (at + width c < 2 ^ 64) }
    ensures { result ≡
        (if eqb c (code "{")
        then Next.Eat (Phase.Hex k (code "}") from (length (eat (so_far raw.now at) c).bytes))
        else on_brace report (in_hex k (code ";") c) k from (so_far raw.now at) c) }
{
    if c == OPEN_CURLY {
        return Next::Eat(Phase::Hex(k, CLOSE_CURLY, from, raw.len() + char_width(c)));
    }
    if c == SEMICOLON {
        return failing_at(
            report,
            kinds::INVALID_HEX_ESCAPE_LITERAL,
            kinds::NO_DIGITS,
            from,
            at + char_width(c),
            at,
            b"",
        );
    }
    if breaks_hex(k, c) {
        return broken(kinds::UNCLOSED_HEX_ESCAPE, SEMICOLON, from, at);
    }
    Next::Eat(Phase::Hex(k, SEMICOLON, from, raw.len()))
}

// At the closer of a hex escape that goes from `from` to `to`, and before whose digits `n` bytes of the item stand.
fn close_hex(
    report: bool,
    k: Quotes,
    from: usize,
    n: usize,
    to: usize,
    raw: &[u8],
    at: usize,
) -> Next
    requires { (length raw.now ≤ at) × (at < 2 ^ 64) }
    ensures { result ≡ close_hex report (scalar_of (hex_value (drop n raw.now))) k from n to (so_far raw.now at) }
{
    let digits = rest(raw, n);
    let Err(e) = scalar_of(hex_value(digits)) else {
        return Next::Eat(Phase::Quoted(k));
    };
    match e {
        CharError::Wrong(error, detail) => broken(error, detail, from, to),
        CharError::WrongAt(error, detail, place) => {
            let left = rest(digits, place);
            failing_at(report, error, detail, from, to, at - left.len(), left)
        }
    }
}

// In the digits of a hex escape, before which `n` bytes of the item stand.
pub(crate) fn hex_digits(
    report: bool,
    k: Quotes,
    closer: u32,
    from: usize,
    n: usize,
    raw: &[u8],
    at: usize,
    c: u32,
) -> Next
    requires { (length raw.now ≤ at) × (at + width c < 2 ^ 64) }
    ensures { result ≡ on_hex report (in_hex k closer c) k closer from n (so_far raw.now at) c }
{
    let next = at + char_width(c);
    if c == closer {
        return close_hex(report, k, from, n, next, raw, at);
    }
    if breaks_hex(k, c) {
        return broken(kinds::UNCLOSED_HEX_ESCAPE, closer, from, at);
    }
    Next::Eat(Phase::Hex(k, closer, from, n))
}

// After a backslash and spaces or tabs, in a line that goes on.
pub(crate) fn trim_before(k: Quotes, at: usize, c: u32) -> Next
    requires { at + width c < 2 ^ 64 }
    ensures { (raw : List ℕ) → result ≡ on_trim_before (in_trim c) k (so_far raw at) c }
{
    match c {
        SPACE | TAB => Next::Eat(Phase::TrimBefore(k)),
        NEWLINE => Next::Eat(Phase::TrimAfter(k)),
        _ => Next::Stop(Outcome::ErrorAt(
            kinds::INVALID_WHITESPACE,
            kinds::NO_DETAIL,
            at,
            at + char_width(c),
        )),
    }
}

// After a backslash, a newline, and spaces or tabs.
pub(crate) fn trim_after(k: Quotes, at: usize, c: u32) -> Next
    ensures { (raw : List ℕ) → result ≡ on_trim_after (in_trim c) k (so_far raw at) c }
{
    match c {
        SPACE | TAB => Next::Eat(Phase::TrimAfter(k)),
        NEWLINE => Next::Eat(Phase::Quoted(k)),
        _ => read_string(k, at, c),
    }
}
