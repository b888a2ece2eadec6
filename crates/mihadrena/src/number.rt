// The number call.
ghost use Rattle.std.specs.Prelude.{◌≡◌};
ghost use Rattle.chars.specs.Encode.{lay};
ghost use Rattle.numbers.specs.Call.{number};
ghost use Rattle.numbers_words.specs.Words.{flattened, number_or};

// What a text is as a number: the answer's number, and its words at the front of `words`. A text that is refused has one word, what the
// refusal comes with; with too few words for any other answer it is refusal 22, and nothing is written.
#[unsafe(no_mangle)]
pub extern "C" fn mihadrena_number(text: &[u8], words: &mut [u64]) -> u32
    ensures { (result ≡ number_or words.old (number text.now)) × (words.new ≡ lay (flattened (number text.now)) words.old) }
{
    exports::mihadrena_number(text, words)
}
