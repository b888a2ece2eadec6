// A grammar of numbers, by what differs from one to another: the bought reader's, and the standard's (crate numbers_standard).
ghost use Rattle.std.specs.Prelude.{◌≡◌, ℕ, Bool, List, Option, ◌+◌, ◌-◌, ◌≤◌, ◌<◌, length, drop};
ghost use Rattle.laws.specs.Texts.{same};
ghost use Rattle.digits.specs.declared.Int.{Int};
ghost use Rattle.numbers.specs.declared.Real.{Real};
ghost use Rattle.numbers.specs.Grammars.{Letters, Reals, Grammar, Cutting, another_sign, bought_letters, bought_reals, bought_parts, bought_cutting};
ghost use Rattle.numbers.specs.Grammar.{ends_i, imaginary, alone_of, pair_of, cut, rectangular, complex};
ghost use Rattle.numbers.specs.declared.Parts.{Parts};
ghost use Rattle.numbers.specs.Reals.{infnan, denominator, exact, ureal, real};

use crate::Real;
use crate::complexes::to_sign;
use crate::reals::is_marker;
use digits::Int;

// The productions of a grammar of numbers. An `impl` reads those that differ; the laws, from `letters` on, say how the others
// are made of them.
pub trait NumberGrammar {
    // A part of the text as words in lower case are compared with it.
    ghost cased: { List ℕ → List ℕ };

    ghost infnan: { List ℕ → Option Real };

    ghost denominator: { ℕ → ℕ → List ℕ → Option Int };

    ghost exact: { ℕ → Bool → ℕ → List ℕ → Option Real };

    ghost ureal: { ℕ → Bool → ℕ → List ℕ → Option Real };

    ghost real: { ℕ → ℕ → List ℕ → Option Real };

    ghost ends_i: { List ℕ → Bool };

    ghost joint: { ℕ → List ℕ → ℕ };

    ghost again: { ℕ → List ℕ → Bool };

    ghost imaginary: { ℕ → ℕ → List ℕ → Option Real };

    ghost alone_of: { ℕ → ℕ → List ℕ → Option Parts };

    ghost pair_of: { ℕ → ℕ → ℕ → List ℕ → Option Parts };

    ghost rectangular: { ℕ → ℕ → List ℕ → Option Parts };

    ghost complex: { ℕ → ℕ → List ℕ → Option Parts };

    // Whether t from a place on is the text w, which is in lower case.
    fn spells(t: &[u8], from: usize, w: &[u8]) -> bool
        ensures { result ≡ same (cased (drop from t.now)) w.now };

    // The denominator from a place on.
    fn denominator_at(t: &[u8], from: usize, radix: u64) -> Option<Int>
        requires { (1 ≤ radix) × (radix ≤ 16) }
        ensures { result ≡ denominator radix from (drop from t.now) };

    // Where the sign that joins two parts stands, or the end.
    fn joint_at(t: &[u8], from: usize, radix: u64) -> usize
        requires { from < length t.now }
        ensures { result ≡ from + joint radix (drop from t.now) };

    // Whether a number whose parts join at k is cut again, and so is none.
    fn is_cut_again(t: &[u8], from: usize, k: usize) -> bool
        requires { (from ≤ k) × (k < length t.now) }
        ensures { result ≡ again (k - from) (drop from t.now) };

    ghost letters: { Letters cased infnan ends_i };

    ghost reals: { Reals infnan denominator exact ureal real };

    ghost parts: { Grammar ends_i real imaginary alone_of pair_of rectangular complex };

    ghost cutting: { Cutting joint again alone_of pair_of rectangular };
}

// The bought reader's grammar.
pub struct Bought;

impl NumberGrammar for Bought {
    ghost cased = { λ s. s };

    ghost infnan = { infnan };

    ghost denominator = { denominator };

    ghost exact = { exact };

    ghost ureal = { ureal };

    ghost real = { real };

    ghost ends_i = { ends_i };

    ghost joint = { λ R s. cut s };

    ghost again = { another_sign };

    ghost imaginary = { imaginary };

    ghost alone_of = { alone_of };

    ghost pair_of = { pair_of };

    ghost rectangular = { rectangular };

    ghost complex = { complex };

    ghost letters = { bought_letters };

    ghost reals = { bought_reals };

    ghost parts = { bought_parts };

    ghost cutting = { bought_cutting };

    // Letters as they are.
    fn spells(t: &[u8], from: usize, w: &[u8]) -> bool {
        byte_runs::equal_from(t, from, w)
    }

    // A denominator is an integer, with a sign or without.
    fn denominator_at(t: &[u8], from: usize, radix: u64) -> Option<Int> {
        digits::integer(t, from, radix)
    }

    // The first sign past the first byte, in every radix.
    fn joint_at(t: &[u8], from: usize, radix: u64) -> usize {
        let marker = is_marker(t[from]);
        to_sign(t, from + 1, marker)
    }

    // A second sign cuts it.
    fn is_cut_again(t: &[u8], from: usize, k: usize) -> bool {
        let another = to_sign(t, k + 1, false);
        another < t.len()
    }
}
