// Whether the words of a state are ones that moves know.
ghost use Rattle.std.specs.Prelude.{◌≡◌, true, ℕ, ◌+◌, ◌-◌, ◌^◌, ◌≤◌, ◌<◌};
ghost use Rattle.items.specs.Whole.{limit};
ghost use Rattle.pieces.specs.Expected.{longest};
ghost use Rattle.pieces_quick.specs.Words.{Known, Plain, Quiet, Unheld, Stands, Ready};

use pieces::LONGEST;
use pieces_lent::Words;
use pieces_lent::codes::{
    AFTER_HASH, CLOSED, DONE_TOKEN, IDLE, IN_HASH, IN_LINE, IN_RUN, IN_WORD, LINES, QUOTED,
};
use pieces_spots::KINDS;
use refusal::LIMIT;

// The longest item and the longest text, as words.
const LONGEST_VALUE: u64 = LONGEST as u64;

const LAST_VALUE: u64 = LIMIT as u64;

// How many bytes the quotes of an item are.
const QUOTES_LENGTH: u64 = 2;

// Whether the words of a token that is whole are a kind and a detail.
fn is_token(which: u64, detail: u64) -> bool
    ensures { result ≡ true → (which < 2 ^ 32) × (detail < 2 ^ 32) }
{
    which < KINDS && detail <= LAST_VALUE
}

// Whether a stage is one of those that need neither of the words that others use.
#[tactic(auto, using(crate::proofs::Knows::word_plain, crate::proofs::Knows::run_plain, crate::proofs::Knows::sign_plain, crate::proofs::Knows::hash_plain, crate::proofs::Knows::line_plain))]
fn is_plain(stage: u64) -> bool
    ensures { result ≡ true → Plain stage }
{
    stage == IN_WORD
        || stage == IN_RUN
        || stage == AFTER_HASH
        || stage == IN_HASH
        || stage == IN_LINE
}

// Whether the words of a stage of an item with so many bytes held are ones known here.
fn is_phase(stage: u64, which: u64, detail: u64, len: u64) -> bool
    ensures { result ≡ true → (start at : ℕ) → start + len ≡ at → 1 ≤ len → Known stage start which detail at len }
{
    if stage == DONE_TOKEN {
        return is_token(which, detail);
    }
    detail == 0
        && (which == 0 && is_plain(stage)
            || which <= LINES && (stage == QUOTED || stage == CLOSED && QUOTES_LENGTH <= len))
}

// Whether the end was not declared, no character was begun, and the words that no stage known here uses are 0.
pub fn is_quiet(
    ended: u64,
    one: u64,
    two: u64,
    count: u64,
    need: u64,
    low: u64,
    high: u64,
    code: u64,
) -> bool
    ensures { result ≡ true → Quiet ended one two count need low high code }
{
    ended == 0
        && one == 0
        && two == 0
        && count == 0
        && need == 0
        && low == 0
        && high == 0
        && code == 0
}

// Whether places are within the longest text, with so many bytes of it to come.
pub fn is_within(from: u64, to: u64, at: u64, left: usize) -> bool
    ensures { result ≡ true → (from ≤ limit) × (to ≤ limit) × (at + left ≤ limit) }
{
    from <= LAST_VALUE && to <= LAST_VALUE && at <= LAST_VALUE && left as u64 <= LAST_VALUE - at
}

// Whether no item is held, at a place behind as many brackets.
pub fn is_unheld(w: Words) -> bool
    ensures { result ≡ true → Unheld w }
{
    w.start == 0 && w.which == 0 && w.detail == 0 && w.len == 0 && w.depth <= w.at
}

// Whether bytes are held, no more than an item has, that lead from its start to the place, and as many brackets fit before it.
fn is_placed(w: Words) -> bool
    ensures { result ≡ true → (0 < w.len) × (w.len ≤ longest) × (w.len ≤ w.at) × (w.start ≡ w.at - w.len) × (w.depth ≤ w.start) }
{
    0 < w.len
        && w.len <= LONGEST_VALUE
        && w.len <= w.at
        && w.start == w.at - w.len
        && w.depth <= w.start
}

// Whether a state in an item is known here: its bytes lead from its start to the place, and as many brackets fit before it.
pub fn is_item(w: Words) -> bool
    ensures { result ≡ true → Stands w }
{
    is_placed(w) && is_phase(w.stage, w.which, w.detail, w.len)
}

// Whether a state is known here by its item: none between items, else one that `is_item` knows.
fn is_standing(w: Words) -> bool
    ensures { result ≡ true → Stands w }
{
    if w.stage == IDLE {
        return is_unheld(w);
    }
    is_item(w)
}

// Whether the words are those of a state known here, between two characters, with so many bytes of the text still to come.
pub fn is_ready(w: Words, left: usize) -> bool
    ensures { result ≡ true → Ready w left }
{
    is_quiet(
        w.ended, w.one, w.two, w.count, w.need, w.low, w.high, w.code,
    ) && w.mode <= 1
        && w.skip <= 1
        && is_within(w.from, w.to, w.at, left)
        && is_standing(w)
}
