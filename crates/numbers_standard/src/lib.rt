// The second number reader, by the standard: R7RS 7.1.1's <number> without <exactness> (specs/Reals, specs/Grammar), and the number call
// with a choice of reader (specs/Call). What the two readers share is crate numbers'. Crate numbers_difference proves that this reader is the
// standard's grammar, and on which texts the two differ. A part of the text is a slice that starts where the text starts, so that an
// index is a place of the text, and the place where the part starts.
#![tactic(auto)]

ghost use Rattle.std.specs.Prelude.{◌≡◌, ◌≤◌, length};
ghost use Rattle.refusal.specs.Refusals.{limit};
ghost use Rattle.numbers.specs.Call.{answered};
ghost use Rattle.numbers_standard.specs.declared.NumberByError.TheVariants.{Number};
ghost use Rattle.numbers_standard.specs.Grammar.{parse_standard};
ghost use Rattle.numbers_standard.specs.Call.{answered_by, by_standard, number_by};

use grammar::Standard;
use numbers::{NumberError, ParseError, Parts};
use refusal::LIMIT;

mod grammar;

// Why the number call with a choice gives no parts: specs/Call gives the numbers for each case.
#[derive(Clone, Copy)]
pub enum NumberByError {
    // what the chosen reader's call says
    Number(NumberError),
    // choice 2
    UnknownChoice,
}

impl From<NumberError> for NumberByError {
    ghost from_gives = { λ x e. e ≡ Number x };

    fn from(e: NumberError) -> NumberByError {
        NumberByError::Number(e)
    }
}

// The choices: the bought reader, and the standard's.
const BOUGHT: u32 = 0;

const STANDARD: u32 = 1;

// What a text is as a number by the standard. Internal: for a text that is known to be UTF-8 and short enough.
pub fn parse_standard(t: &[u8]) -> Result<Parts, ParseError>
    ensures { result ≡ parse_standard t.now }
{
    numbers::judge(numbers::number_parts::<Standard>(t))
}

// The number call with the standard's reader on a text that is short enough.
fn by_standard(t: &[u8]) -> Result<Parts, NumberError>
    requires { length t.now ≤ limit }
    ensures { answered result ≡ by_standard t.now }
{
    match chars::first_bad(t) {
        Some(at) => Err(NumberError::NotUtf8(at)),
        None => numbers::serve(parse_standard(t)),
    }
}

// The number call with a choice of reader on any bytes. Both readers answer brief numbers alike.
pub fn number_by(choice: u32, t: &[u8]) -> Result<Parts, NumberByError>
    ensures { answered_by result ≡ number_by choice t.now }
{
    if STANDARD < choice {
        return Err(NumberByError::UnknownChoice);
    }
    if LIMIT < t.len() {
        return Err(NumberByError::Number(NumberError::TooLong));
    }
    if let Some(p) = numbers::brief_parts(t) {
        return Ok(p);
    }
    if choice == BOUGHT {
        return Ok(numbers::by_grammar(t)?);
    }
    Ok(by_standard(t)?)
}
