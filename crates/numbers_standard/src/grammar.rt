// The standard's grammar of numbers, by what differs from the bought reader's (crate numbers).
ghost use Rattle.std.specs.Prelude.{◌≡◌, not, map, false, ◌+◌, ◌-◌, ◌≤◌, ◌<◌, length, drop};
ghost use Rattle.laws.specs.Texts.{span, same};
ghost use Rattle.laws.specs.Letters.{lower};
ghost use Rattle.digits.specs.Digits.{whole_of};
ghost use Rattle.numbers_standard.specs.Grammars.{standard_letters, standard_reals, standard_parts, standard_cutting};
ghost use Rattle.numbers_standard.specs.Grammar.{ends_i, imaginary, alone_of, pair_of, joint, rectangular, complex};
ghost use Rattle.laws.specs.Letters.{is_sign};
ghost use Rattle.numbers_standard.specs.Reals.{infnan, ratio, ureal, real};

use digits::Int;
use numbers::{HEXADECIMAL_RADIX, NumberGrammar};

// What a letter of ASCII in upper case lacks to its lower case.
const TO_LOWER: u8 = 32;

// A letter in lower case, any other byte as it is.
fn lower_case(c: u8) -> u8
    ensures { result ≡ lower c }
{
    match c {
        b'A'..=b'Z' => c + TO_LOWER,
        _ => c,
    }
}

// Where the first sign from a place on stands, or the end.
fn first_sign(t: &[u8], from: usize) -> usize
    ensures { result ≡ from + span (λ c. not (is_sign c)) (drop from t.now) }
{
    for i in from..t.len() {
        if digits::is_sign(t[i]) {
            return i;
        }
    }
    from.max(t.len())
}

// The standard's grammar.
pub(crate) struct Standard;

impl NumberGrammar for Standard {
    ghost cased = { map lower };

    ghost infnan = { infnan };

    ghost denominator = { λ R. whole_of R false };

    ghost exact = { ratio };

    ghost ureal = { ureal };

    ghost real = { real };

    ghost ends_i = { ends_i };

    ghost joint = { joint };

    ghost again = { λ k s. false };

    ghost imaginary = { imaginary };

    ghost alone_of = { alone_of };

    ghost pair_of = { pair_of };

    ghost rectangular = { rectangular };

    ghost complex = { complex };

    ghost letters = { standard_letters };

    ghost reals = { standard_reals };

    ghost parts = { standard_parts };

    ghost cutting = { standard_cutting };

    // Letters in either case.
    fn spells(t: &[u8], from: usize, w: &[u8]) -> bool {
        let mut i = from;
        for &letter in w {
            if t.len() <= i {
                return false;
            }
            if lower_case(t[i]) != letter {
                return false;
            }
            i += 1;
        }
        t.len() <= i
    }

    // A denominator has no sign.
    fn denominator_at(t: &[u8], from: usize, radix: u64) -> Option<Int> {
        digits::whole(t, from, radix, false)
    }

    // In radix 16 `e` is a digit and no marker.
    fn joint_at(t: &[u8], from: usize, radix: u64) -> usize {
        if radix == HEXADECIMAL_RADIX {
            return first_sign(t, from + 1);
        }
        let marker = numbers::is_marker(t[from]);
        numbers::to_sign(t, from + 1, marker)
    }

    // What follows the sign is read as it is, another sign or not.
    fn is_cut_again(t: &[u8], from: usize, k: usize) -> bool {
        false
    }
}
