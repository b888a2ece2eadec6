// Runs of bytes of a class, tested a block at a time: where a byte stands, and where the run of plain or of blank characters of ASCII ends.
ghost use Rattle.std.specs.Prelude.{◌≡◌, ◌+◌, ◌≤◌, ◌<◌, leb, length, drop};
ghost use Rattle.laws.specs.Texts.{before, span};
ghost use Rattle.byte_runs.specs.Runs.{apart, plain, blank, block, PlainBefore, PlainTo};

use crate::classes::{Apart, Blank, ByteClass, Other, Plain};

// How many bytes are tested at once.
pub const BLOCK: usize = 16;

pub const HALF: usize = BLOCK / 2;

pub const QUARTER: usize = HALF / 2;

// Below it a byte is a character of ASCII.
pub const ASCII_END: u8 = 0x80;

// Whether a text has n bytes at a place.
fn has_room(t: &[u8], at: usize, n: usize) -> bool
    ensures { result ≡ leb (at + n) (length t.now) }
{
    n <= t.len() && at <= t.len() - n
}

// Whether a text has a block at a place.
pub fn has_block(t: &[u8], at: usize) -> bool
    ensures { result ≡ leb (at + block) (length t.now) }
{
    has_room(t, at, BLOCK)
}

// Whether n bytes at a place are of a class. The tests are put together as numbers, which the compiler does for a whole block at once.
#[inline(always)]
fn all_of<C: ByteClass>(t: &[u8], at: usize, n: usize, class: C) -> bool
    requires { at + n ≤ length t.now }
    ensures { result ≡ leb n (span (C.passes class) (drop at t.now)) }
{
    let mut ended: u8 = 0;
    for j in 0..n {
        ended |= class.ends(t[at + j]) as u8;
    }
    ended == 0
}

// Whether the run of a class from a place on has n bytes, all tested at once.
#[inline(always)]
pub fn starts_run<C: ByteClass>(t: &[u8], at: usize, n: usize, class: C) -> bool
    requires { 0 < n }
    ensures { result ≡ leb n (span (C.passes class) (drop at t.now)) }
{
    has_room(t, at, n) && all_of(t, at, n, class)
}

// The place past the run of a class from a place on, byte by byte.
pub fn bytes_end<C: ByteClass>(t: &[u8], from: usize, class: C) -> usize
    ensures { result ≡ from + span (C.passes class) (drop from t.now) }
{
    for i in from..t.len() {
        if class.ends(t[i]) {
            return i;
        }
    }
    from.max(t.len())
}

// The same, by blocks.
pub fn run_end<C: ByteClass>(t: &[u8], from: usize, class: C) -> usize
    ensures { result ≡ from + span (C.passes class) (drop from t.now) }
{
    let mut i = from;
    while starts_run(t, i, BLOCK, class) {
        i += BLOCK;
    }
    bytes_end(t, i, class)
}

// Where the first b from a place on stands, or where the text ends.
pub fn find(t: &[u8], from: usize, b: u8) -> usize
    ensures { result ≡ from + before b (drop from t.now) }
{
    run_end(t, from, Other(b))
}

// Where the first a or b from a place on stands, or where the text ends.
pub fn apart_end(t: &[u8], from: usize, a: u8, b: u8) -> usize
    ensures { result ≡ from + span (apart a b) (drop from t.now) }
{
    run_end(t, from, Apart(a, b))
}

// The place past the run of ASCII's blanks from a place on.
pub fn blank_end(t: &[u8], from: usize) -> usize
    ensures { result ≡ from + span blank (drop from t.now) }
{
    run_end(t, from, Blank)
}

// Whether n bytes at a place are plain.
pub fn all_plain(t: &[u8], at: usize, n: usize, a: u8, b: u8) -> bool
    requires { at + n ≤ length t.now }
    ensures { result ≡ leb n (span (plain a b) (drop at t.now)) }
{
    all_of(t, at, n, Plain(a, b))
}

// The place past the run of plain bytes from a place on, byte by byte.
pub fn plain_bytes(t: &[u8], from: usize, a: u8, b: u8) -> usize
    ensures { result ≡ from + span (plain a b) (drop from t.now) }
{
    bytes_end(t, from, Plain(a, b))
}

// Past n bytes at a place, if they are plain, else the place. They are tested together with the n before them, which are plain: so its bytes
// have no test in common with the block's.
#[inline(always)]
fn plain_part(t: &[u8], at: usize, n: usize, a: u8, b: u8) -> usize
    requires { (at + n ≤ length t.now) × PlainBefore t.now a b at n }
    ensures { PlainTo t.now a b at n result }
{
    if all_plain(t, at - n, 2 * n, a, b) {
        return at + n;
    }
    at
}

// The place past the run of plain bytes from a place on, where the block before the place is plain and another has room.
fn plain_rest(t: &[u8], at: usize, a: u8, b: u8) -> usize
    requires { (at + block ≤ length t.now) × PlainBefore t.now a b at block }
    ensures { result ≡ at + span (plain a b) (drop at t.now) }
{
    let i = plain_part(t, at, HALF, a, b);
    let j = plain_part(t, i, QUARTER, a, b);
    plain_bytes(t, j, a, b)
}

// The place past the run, from a place on, of characters of ASCII that are neither a nor b.
pub fn plain_end(t: &[u8], from: usize, a: u8, b: u8) -> usize
    ensures { result ≡ from + span (plain a b) (drop from t.now) }
{
    let mut i = from;
    while has_block(t, i) {
        if all_plain(t, i, BLOCK, a, b) {
            i += BLOCK;
        } else {
            if from < i {
                return plain_rest(t, i, a, b);
            }
            return plain_bytes(t, i, a, b);
        }
    }
    plain_bytes(t, i, a, b)
}
