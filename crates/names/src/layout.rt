// How the table lies in lent memory: its words, the names of its entries, its bounds, its sizes.
ghost use Rattle.std.specs.Prelude.{◌≡◌, ◌≤◌, ◌<◌, length, get_or};
ghost use Rattle.names.specs.Layout.{half_names, table_words, Readable, nowhere, place_at, name_at, bears, half_bounds, is_in_bounds};

use crate::Place;
use crate::blocks::equal;

// A half's names, at most, and its bytes.
pub const HALF_NAMES: usize = 512;

pub const HALF_BYTES: usize = 16384;

// Where a half's bounds and its index stand in its words, and how many words it has.
pub const FIRST_BOUND: usize = 1;

pub const FIRST_SLOT: usize = 514;

pub const HALF_WORDS: usize = 1539;

// The slots of an index. One more stands behind them, which is never asked.
pub const INDEX_SLOTS: usize = 1024;

// Both halves.
pub const TABLE_WORDS: usize = 3078;

pub const TABLE_BYTES: usize = 32768;

// A word as a size.
pub fn word(words: &[u32], i: usize) -> usize
    requires { i < length words.now }
    ensures { result ≡ get_or words.now i 0 }
{
    words[i] as usize
}

// No place: the name there is empty.
pub fn nowhere() -> Place
    ensures { result ≡ nowhere }
{
    Place { start: 0, end: 0 }
}

// Where the name of entry k of a party's half lies.
pub fn place_at(words: &[u32], party: usize, k: usize) -> Place
    requires table_words_in_bounds { table_words ≤ length words.now }
    requires party_bound { party < 2 }
    requires k_lt_half_names { k < half_names }
    ensures { result ≡ place_at words.now party k }
{
    let bounds = party * HALF_WORDS + FIRST_BOUND;
    let s = word(words, bounds + k);
    let e = word(words, bounds + (k + 1));
    if e < s {
        return nowhere();
    }
    if HALF_BYTES < e {
        return nowhere();
    }
    let start = party * HALF_BYTES + s;
    let end = party * HALF_BYTES + e;
    Place { start, end }
}

// The name of entry k of a party's half.
fn name_at<'a>(words: &[u32], bytes: &'a [u8], party: usize, k: usize) -> &'a [u8]
    requires readable { Readable words.now bytes.now party }
    requires k_lt_half_names { k < half_names }
    ensures { result.now ≡ name_at words.now bytes.now party k }
{
    let place = place_at(words, party, k);
    let start = place.start;
    let end = place.end;
    &bytes[start..end]
}

// Whether entry k of a party's half is there and bears the name.
pub fn bears(words: &[u32], bytes: &[u8], party: usize, name: &[u8], k: usize) -> bool
    requires { Readable words.now bytes.now party }
    ensures { result ≡ bears words.now bytes.now party name.now k }
{
    let n = word(words, party * HALF_WORDS);
    k < n && equal(name_at(words, bytes, party, k), name)
}

// Whether a half's count of names and of name bytes are within its bounds.
fn half_in_bounds(words: &[u32], party: usize) -> bool
    requires table_words_in_bounds { table_words ≤ length words.now }
    requires party_bound { party < 2 }
    ensures { result ≡ half_bounds words.now party }
{
    let base = party * HALF_WORDS;
    let n = word(words, base);
    n <= HALF_NAMES && word(words, base + FIRST_BOUND + n) <= HALF_BYTES
}

// Whether lent memory is within the bounds of docs/NAMES.md.
pub fn in_bounds(words: &[u32], bytes: &[u8]) -> bool
    ensures { result ≡ is_in_bounds words.now bytes.now }
{
    if words.len() < TABLE_WORDS {
        return false;
    }
    if bytes.len() < TABLE_BYTES {
        return false;
    }
    half_in_bounds(words, 0) && half_in_bounds(words, 1)
}
