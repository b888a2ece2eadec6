// Blocks of characters of one byte or two, as most past ASCII are in the texts of the north: each byte is tested with the next.
ghost use Rattle.std.specs.Prelude.{◌≡◌, true, IfSome};
ghost use Rattle.byte_runs.specs.Pairs.{lead, tail, paired, Paired, pairs};

use crate::runs::BLOCK;

// The last byte of a block.
const LAST_OF_BLOCK: usize = BLOCK - 1;

// Whether a byte is the first of a character of two.
fn is_lead(c: u8) -> bool
    ensures { result ≡ lead c }
{
    (0xC2 <= c) & (c < 0xE0)
}

// Whether it is a later byte of a character.
fn is_tail(c: u8) -> bool
    ensures { result ≡ tail c }
{
    (0x80 <= c) & (c < 0xC0)
}

// Whether a byte is of a character of one byte or two, and the next follows it there.
fn is_paired(p: u8, c: u8) -> bool
    ensures { result ≡ paired p c }
{
    let first = is_lead(p);
    (first == is_tail(c)) & (first | (p < 0xC0))
}

// Whether the block at a place is of such characters.
fn pair_block(t: &[u8], at: usize) -> bool
    ensures { result ≡ true → Paired t.now at }
{
    if t.len() <= BLOCK {
        return false;
    }
    if t.len() - BLOCK <= at {
        return false;
    }
    if is_tail(t[at]) {
        return false;
    }
    let mut all = true;
    for i in at..at + BLOCK {
        all &= is_paired(t[i], t[i + 1]);
    }
    all
}

// How many bytes the block of such characters has at a place, with the last character whole; nothing where none is told.
pub fn pairs_at(t: &[u8], at: usize) -> Option<usize>
    ensures { IfSome result (λ n. Paired t.now at × (n ≡ pairs t.now at)) }
{
    if !pair_block(t, at) {
        return None;
    }
    if is_lead(t[at + LAST_OF_BLOCK]) {
        return Some(BLOCK + 1);
    }
    Some(BLOCK)
}
