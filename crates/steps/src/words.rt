// Words and number runs: `read_word`, `read_number`.
ghost use Rattle.std.specs.Prelude.{◌≡◌};
ghost use Rattle.laws.specs.Quoted.{codes, one_of};
ghost use Rattle.numbers.specs.Grammar.{parse_number, numeric};
ghost use Rattle.items.specs.Classes.{breaks_word, in_word, stays_run, ends_run, bars_run, in_run};
ghost use Rattle.items.specs.Machine.{on_word, enter_word, on_run};

use crate::signs::*;
use chars::is_blank;
use items::{Next, Outcome, Phase, Quotes};
use numbers::{ParseError, parse_number};

// Whether a character ends a word.
pub(crate) fn breaks_word(c: u32) -> bool
    ensures { result ≡ breaks_word c }
{
    match c {
        OPEN_ROUND | OPEN_SQUARE | OPEN_CURLY => true,
        CLOSE_ROUND | CLOSE_SQUARE | CLOSE_CURLY => true,
        TICK | DOUBLE_QUOTE | BACKTICK | SEMICOLON | COMMA => true,
        _ => is_blank(c),
    }
}

// In a word: `read_word`.
pub(crate) fn read_word(c: u32) -> Next
    ensures { result ≡ on_word (in_word c) }
{
    if breaks_word(c) {
        return Next::Stop(Outcome::Word);
    }
    if c == BACKSLASH {
        return Next::Eat(Phase::WordEscape);
    }
    Next::Eat(Phase::InWord)
}

// Where `read_word` begins: a vertical line makes the rest an identifier in vertical lines.
pub(crate) fn enter_word(c: u32) -> Next
    ensures { result ≡ enter_word c }
{
    if c == VERTICAL {
        return Next::Eat(Phase::Quoted(Quotes::Lines));
    }
    read_word(c)
}

// Whether a character is a digit.
pub(crate) fn is_digit(c: u32) -> bool
    ensures { result ≡ one_of (codes "0123456789") c }
{
    (ZERO..=NINE).contains(&c)
}

// Whether a number run goes on with a character.
pub(crate) fn stays_run(c: u32) -> bool
    ensures { result ≡ stays_run c }
{
    match c {
        PLUS | MINUS | SLASH => true,
        PERIOD | AT => true,
        LOWER_A | UPPER_A => true,
        LOWER_B | UPPER_B => true,
        LOWER_C | UPPER_C => true,
        LOWER_D | UPPER_D => true,
        LOWER_E | UPPER_E => true,
        LOWER_F | UPPER_F => true,
        LOWER_I | LOWER_N => true,
        _ => is_digit(c),
    }
}

// Whether a character ends a number run, so that it may be a number, whatever its bytes are. With `bars_run` the one place where report
// mode differs in where an item ends.
pub(crate) fn ends_run(report: bool, c: u32) -> bool
    ensures { result ≡ ends_run report c }
{
    match c {
        OPEN_ROUND | OPEN_SQUARE => true,
        CLOSE_ROUND | CLOSE_SQUARE => true,
        SEMICOLON | DOUBLE_QUOTE => report,
        _ => is_blank(c),
    }
}

// Whether the bytes of a number run are a number, or error 8.
fn is_numeric(raw: &[u8]) -> bool
    ensures { result ≡ numeric (parse_number raw.now) }
{
    match parse_number(raw) {
        Ok(_) => true,
        Err(ParseError::NoNumber) => false,
        Err(ParseError::ZeroDenominator) => true,
    }
}

// Whether a character is a vertical line that ends a number run: in report mode, where the run's bytes are a number.
fn bars_run(report: bool, raw: &[u8], c: u32) -> bool
    ensures { result ≡ bars_run report raw.now c }
{
    c == VERTICAL && report && is_numeric(raw)
}

// In a number run, whose bytes so far are `raw`: `read_number`.
pub(crate) fn read_number(report: bool, raw: &[u8], c: u32) -> Next
    ensures { result ≡ on_run (in_run report raw.now c) c }
{
    if stays_run(c) {
        return Next::Eat(Phase::InRun);
    }
    if ends_run(report, c) {
        return Next::Stop(Outcome::Run);
    }
    if bars_run(report, raw, c) {
        return Next::Stop(Outcome::Run);
    }
    enter_word(c)
}
