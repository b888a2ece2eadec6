// The calls that write: opening a table, and asking for a name's number.
ghost use Rattle.std.specs.Prelude.{◌≡◌, ◌+◌, ◌≤◌, ◌<◌, length, replicate};
ghost use Rattle.laws.specs.Lent.{written};
ghost use Rattle.names.specs.Layout.{half_names, half_bytes, index_slots, table_words, count, used, Readable};
ghost use Rattle.names.specs.Answers.{told_of, mark_in};
ghost use Rattle.names.specs.Call.{hashes_aSlot, tag_of, probe_of, free_of, new_words, laid, outcome, new_of, enter_of, opening, open_of};

use crate::NameError;
use crate::finding::{find, hash, tag_of};
use crate::layout::{
    FIRST_BOUND, FIRST_SLOT, HALF_BYTES, HALF_NAMES, HALF_WORDS, TABLE_BYTES, TABLE_WORDS,
    in_bounds, word,
};

// How many parties there are.
const PARTIES: u32 = 2;

// Copies a name to a place.
fn copy(bytes: &mut [u8], at: usize, name: &[u8])
    requires { at + length name.now ≤ length bytes.old }
    ensures { bytes.new ≡ laid at name.now bytes.old }
{
    for i in 0..name.len() {
        bytes[at + i] = name[i];
    }
}

// Writes the words of one entry more, of `len` bytes, which the index proposes at a slot under a tag.
fn put(words: &mut [u32], party: usize, slot: usize, tag: usize, n: usize, from: usize, len: usize)
    requires table_words_in_bounds { table_words ≤ length words.old }
    requires party_bound { party < 2 }
    requires slot_bound { slot < index_slots + 1 }
    requires tag_lt_hashes_aslot { tag < hashes_aSlot }
    requires n_value { n ≡ count words.old party }
    requires from_value { from ≡ used words.old party }
    requires n_lt_half_names { n < half_names }
    requires len_bound { from + len ≤ half_bytes }
    ensures { words.new ≡ new_words words.old party slot tag len }
{
    let base = party * HALF_WORDS;
    words[base + FIRST_SLOT + slot] = (tag * HALF_NAMES + n + 1) as u32;
    words[base + FIRST_BOUND + (n + 1)] = (from + len) as u32;
    words[base] = (n + 1) as u32;
}

// Enters a name that is in neither half, at a slot of the index under a tag.
fn add(
    words: &mut [u32],
    bytes: &mut [u8],
    party: usize,
    name: &[u8],
    slot: usize,
    tag: usize,
) -> Result<u32, NameError>
    requires slot_value { slot ≡ free_of (probe_of words.old bytes.old party name.now) }
    requires tag_value { tag ≡ tag_of name.now }
    requires readable { Readable words.old bytes.old party }
    requires party_bound { used words.old party ≤ half_bytes }
    ensures { outcome (told_of result) words.new bytes.new ≡ new_of words.old bytes.old party name.now }
{
    let n = word(words, party * HALF_WORDS);
    if HALF_NAMES <= n {
        return Err(NameError::NoRoom);
    }
    let from = word(words, party * HALF_WORDS + FIRST_BOUND + n);
    if HALF_BYTES - from < name.len() {
        return Err(NameError::NoRoom);
    }
    put(words, party, slot, tag, n, from, name.len());
    copy(bytes, party * HALF_BYTES + from, name);
    Ok((party * HALF_NAMES + n) as u32)
}

// A party asks for a name's number; a name that is in neither half is entered in the party's own.
pub fn enter(words: &mut [u32], bytes: &mut [u8], party: u32, name: &[u8]) -> Result<u32, NameError>
    ensures { outcome (told_of result) words.new bytes.new ≡ enter_of words.old bytes.old party name.now }
{
    if !in_bounds(words, bytes) {
        return Err(NameError::OutOfBounds);
    }
    if PARTIES <= party {
        return Err(NameError::NoParty);
    }
    let p = party as usize;
    let h = hash(name);
    let found = find(words, bytes, p, name, h);
    let number = found.number;
    let free = found.free;
    match number {
        Some(n) => Ok(n as u32),
        None => add(words, bytes, p, name, free, tag_of(h)),
    }
}

// Clears the words of a table.
fn clear(words: &mut [u32])
    requires { table_words ≤ length words.old }
    ensures { words.new ≡ written (replicate table_words 0) words.old }
{
    words[..TABLE_WORDS].fill(0);
}

// The opening call: the table is then empty. Refused where too little is lent.
pub fn open_table(words: &mut [u32], bytes: &[u8]) -> Result<(), NameError>
    ensures { opening (mark_in result) words.new ≡ open_of words.old bytes.now }
{
    if words.len() < TABLE_WORDS {
        return Err(NameError::OutOfBounds);
    }
    if bytes.len() < TABLE_BYTES {
        return Err(NameError::OutOfBounds);
    }
    clear(words);
    Ok(())
}
