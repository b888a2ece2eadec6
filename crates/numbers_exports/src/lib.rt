// The number call with a choice of reader for programs in C and Rust: its answer as a number, and a number's parts as the words that
// crate numbers_words lays out.
#![tactic(auto)]

ghost use Rattle.std.specs.Prelude.{◌≡◌};
ghost use Rattle.chars.specs.Encode.{lay};
ghost use Rattle.numbers_words.specs.Words.{flattened, number_or};
ghost use Rattle.numbers_standard.specs.Call.{number_by};

use numbers_standard::NumberByError;
use refusal::UNKNOWN_CHOICE;

// What a text is as a number by the reader of a choice: the answer's number, and its words at the front of `words`. An unknown choice has
// no word, a text that is refused one, what the refusal comes with; with too few words for any other answer it is refusal 22, and nothing
// is written.
pub fn mihadrena_number_by(choice: u32, text: &[u8], words: &mut [u64]) -> u32
    ensures { (result ≡ number_or words.old (number_by choice text.now)) × (words.new ≡ lay (flattened (number_by choice text.now)) words.old) }
{
    match numbers_standard::number_by(choice, text) {
        Ok(p) => numbers_words::tell(words, Ok(p)),
        Err(NumberByError::Number(e)) => numbers_words::tell(words, Err(e)),
        Err(NumberByError::UnknownChoice) => UNKNOWN_CHOICE,
    }
}
