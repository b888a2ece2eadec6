// Whether a plus and a text are a number, where the plus lies elsewhere: the writer of a plan asks it of a word that it would join. It goes
// the way of complexes and reals, a place further on. Internal.
ghost use Rattle.std.specs.Prelude.{◌≡◌, ◌∷◌, suc, ◌≤◌, ◌<◌, length};
ghost use Rattle.laws.specs.Quoted.{code};
ghost use Rattle.numbers.specs.Grammar.{alone_of, pair_of, parse_number, numeric};
ghost use Rattle.numbers.specs.Reals.{real};
ghost use Rattle.numbers.specs.AfterPlus.{is_real, is_parts};

use crate::complexes::{ends_i, imaginary_at, to_sign};
use crate::grammar::Bought;
use crate::reals::{real_at, ureal_at};
use digits::DECIMAL_RADIX;

// Whether a plus and t are a real: +5, +inf.0
fn plus_real(t: &[u8]) -> bool
    ensures { result ≡ is_real (real 10 0 (code "+" ∷ t.now)) }
{
    if byte_runs::equal_from(t, 0, b"inf.0") {
        return true;
    }
    if byte_runs::equal_from(t, 0, b"nan.0") {
        return true;
    }
    ureal_at::<Bought>(t, 0, DECIMAL_RADIX, false).is_some()
}

// Whether a plus and t are a number that the sign at k cuts: +1-2i
fn plus_pair(t: &[u8], k: usize) -> bool
    requires { k < length t.now }
    ensures { result ≡ is_parts (pair_of 10 0 (suc k) (code "+" ∷ t.now)) }
{
    if ends_i::<Bought>(t, k) {
        if plus_real(&t[..k]) {
            let last = t.len() - 1;
            return imaginary_at::<Bought>(&t[..last], k, DECIMAL_RADIX).is_some();
        }
        return false;
    }
    false
}

// Whether a plus and t are a number that no other sign cuts: +i, +5i, +5
fn plus_alone(t: &[u8]) -> bool
    ensures { result ≡ is_parts (alone_of 10 0 (code "+" ∷ t.now)) }
{
    if ends_i::<Bought>(t, 0) {
        let last = t.len() - 1;
        if last == 0 {
            return true;
        }
        return plus_real(&t[..last]);
    }
    plus_real(t)
}

// Whether a plus and t are a number, or error 8: +5, +1/0
pub fn plus_number(t: &[u8]) -> bool
    ensures { result ≡ numeric (parse_number (code "+" ∷ t.now)) }
{
    let k = byte_runs::find(t, 0, b'@');
    if k < t.len() {
        if plus_real(&t[..k]) {
            return real_at::<Bought>(t, k + 1, DECIMAL_RADIX).is_some();
        }
        return false;
    }
    let cut = to_sign(t, 0, false);
    if cut < t.len() {
        let another = to_sign(t, cut + 1, false);
        if another < t.len() {
            return false;
        }
        return plus_pair(t, cut);
    }
    plus_alone(t)
}
