// Which entry bears a name: a half's index is asked first, and its names are read only where the index answers neither yes nor no.
ghost use Rattle.std.specs.Prelude.{◌≡◌, ◌-◌, ◌/◌, ◌%◌, ◌≤◌, ◌<◌, length, drop};
ghost use Rattle.names.specs.Layout.{Readable};
ghost use Rattle.names.specs.Call.{hashes, hashes_aSlot, turn, rest, hash_of, tag_of, proposes, probe_of, free_of, scanned, lookup_of, find_of};

use crate::blocks::{FOUR, byte, four};
use crate::layout::{FIRST_SLOT, HALF_NAMES, HALF_WORDS, INDEX_SLOTS, bears, word};
use crate::{Proposal, Sought};

// The hash of a name has 32 bits: the top ten are a slot, the others a tag.
const FACTOR: u64 = 1640531527;

const HASHES: u64 = 4294967296;

const HASHES_A_SLOT: u64 = 4194304;

// So many slots are asked for a name. Names as plans have them never meet this; it bounds what names made to collide cost.
const LOOKS: usize = 64;

// One turn of the hash.
fn turn(h: u64, x: u64) -> u64
    requires h_lt_hashes { h < hashes }
    requires x_lt_hashes { x < hashes }
    ensures { (result ≡ turn h x) × (result < hashes) }
{
    ((h + x) * FACTOR) % HASHES
}

// The hash of the bytes from a place on, one by one.
fn rest(name: &[u8], from: usize, start: u64) -> u64
    requires from_in_bounds { from ≤ length name.now }
    requires start_lt_hashes { start < hashes }
    ensures { result ≡ rest start (drop from name.now) }
{
    let mut h = start;
    for i in from..name.len() {
        h = turn(h, byte(name, i));
    }
    h
}

// The hash of a name.
pub fn hash(name: &[u8]) -> u64
    ensures { result ≡ hash_of name.now }
{
    let mut h: u64 = 0;
    let mut i = 0;
    while FOUR <= name.len() - i {
        h = turn(h, four(name, i));
        i += FOUR;
    }
    rest(name, i, h)
}

// The slot at which the search for a name begins, and its tag.
fn slot_of(h: u64) -> usize
    requires { h < hashes }
    ensures { result ≡ h / hashes_aSlot }
{
    (h / HASHES_A_SLOT) as usize
}

// The part of a hash that a slot keeps.
pub fn tag_of(h: u64) -> usize
    ensures { result ≡ h % hashes_aSlot }
{
    (h % HASHES_A_SLOT) as usize
}

// Whether a slot's word, which is not 0, proposes an entry that bears the name.
fn proposes(words: &[u32], bytes: &[u8], party: usize, name: &[u8], tag: usize, v: usize) -> bool
    requires tag_value { tag ≡ tag_of name.now }
    requires v_nonzero { 0 < v }
    requires readable { Readable words.now bytes.now party }
    ensures { result ≡ proposes words.now bytes.now party name.now v }
{
    (v - 1) / HALF_NAMES == tag && bears(words, bytes, party, name, (v - 1) % HALF_NAMES)
}

// Asks a half's index for a name, whose hash is h.
fn probe(words: &[u32], bytes: &[u8], party: usize, name: &[u8], h: u64) -> Proposal
    requires h_value { h ≡ hash_of name.now }
    requires readable { Readable words.now bytes.now party }
    ensures { result ≡ probe_of words.now bytes.now party name.now }
{
    let tag = tag_of(h);
    let base = party * HALF_WORDS + FIRST_SLOT;
    let mut s = slot_of(h);
    for _step in 0..LOOKS {
        let v = word(words, base + s);
        if v == 0 {
            return Proposal::Free(s);
        }
        if proposes(words, bytes, party, name, tag, v) {
            return Proposal::Entry((v - 1) % HALF_NAMES);
        }
        s = (s + 1) % INDEX_SLOTS;
    }
    Proposal::Full
}

// The first entry of a half that bears the name.
fn scan(words: &[u32], bytes: &[u8], party: usize, name: &[u8]) -> Option<usize>
    requires { Readable words.now bytes.now party }
    ensures { result ≡ scanned words.now bytes.now party name.now }
{
    let n = word(words, party * HALF_WORDS);
    for k in 0..n {
        if bears(words, bytes, party, name, k) {
            return Some(party * HALF_NAMES + k);
        }
    }
    None
}

// The slot at which an entry is proposed: the empty one that was found, else the one that is never asked.
fn free_of(x: Proposal) -> usize
    ensures { result ≡ free_of x }
{
    match x {
        Proposal::Entry(_) => INDEX_SLOTS,
        Proposal::Free(s) => s,
        Proposal::Full => INDEX_SLOTS,
    }
}

// The number of a name that is in a half, by what its index says: the names are read where that is neither yes nor no.
fn number_by(words: &[u32], bytes: &[u8], party: usize, name: &[u8], x: Proposal) -> Option<usize>
    requires x_value { x ≡ probe_of words.now bytes.now party name.now }
    requires readable { Readable words.now bytes.now party }
    ensures { result ≡ lookup_of words.now bytes.now party name.now }
{
    match x {
        Proposal::Entry(k) => Some(party * HALF_NAMES + k),
        Proposal::Free(_) => None,
        Proposal::Full => scan(words, bytes, party, name),
    }
}

// Asks one half for a name, whose hash is h: its number there, and the slot that is free for it.
fn lookup(words: &[u32], bytes: &[u8], party: usize, name: &[u8], h: u64) -> Sought
    requires h_value { h ≡ hash_of name.now }
    requires readable { Readable words.now bytes.now party }
    ensures { (result.number ≡ lookup_of words.now bytes.now party name.now) × (result.free ≡ free_of (probe_of words.now bytes.now party name.now)) }
{
    let x = probe(words, bytes, party, name, h);
    let free = free_of(x);
    let number = number_by(words, bytes, party, name, x);
    Sought { number, free }
}

// Asks both halves for a name, whose hash is h, own half first: its number, and the slot that is free for it in the own half. It is a loop
// so that `lookup` has one caller: the compiler then puts it in place, and passing the memory on costs nothing.
pub fn find(words: &[u32], bytes: &[u8], party: usize, name: &[u8], h: u64) -> Sought
    requires h_value { h ≡ hash_of name.now }
    requires readable { Readable words.now bytes.now party }
    requires readable_2 { Readable words.now bytes.now (1 - party) }
    ensures { (result.number ≡ find_of words.now bytes.now party name.now) × (result.free ≡ free_of (probe_of words.now bytes.now party name.now)) }
{
    let mut half = party;
    let mut free: usize = INDEX_SLOTS;
    loop {
        let said = lookup(words, bytes, half, name, h);
        let number = said.number;
        if half != party {
            return Sought { number, free };
        }
        free = said.free;
        match number {
            Some(_) => return Sought { number, free },
            None => half = 1 - party,
        }
    }
}
