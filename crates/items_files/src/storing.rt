// The writer's two passes: how many bytes, then the bytes. Both go record by record.
ghost use Rattle.std.specs.Prelude.{false, ◌≡◌, ◌++◌, ◌+◌, ◌%◌, ◌≤◌, length, drop};
ghost use Rattle.laws.specs.Lent.{written};
ghost use Rattle.items.specs.Items.{record_words, words_of};
ghost use Rattle.items_files.specs.Groups.{image, images};
ghost use Rattle.items_files.specs.Layout.{first, goes_back, numbers_of};
ghost use Rattle.items_files.specs.Write.{file, on, goes, measured};

use crate::StoreError;
use items::{Nine, RECORD_WORDS, Record};

// The record that starts at a word.
fn record_at(words: &[u32], i: usize) -> Record
    requires { i + record_words ≤ length words.now }
    ensures { drop i words.now ≡ words_of result ++ drop (i + record_words) words.now }
{
    let nine = Nine {
        kind: words[i],
        detail: words[i + 1],
        start: words[i + 2],
        end: words[i + 3],
        from: words[i + 4],
        to: words[i + 5],
        source: words[i + 6],
        first: words[i + 7],
        past: words[i + 8],
    };
    Record {
        nine,
        depth: words[i + 9],
    }
}

// Whether a record goes back: it starts before the last one, or its extent, place or text ends before it starts.
fn goes_back(r: Nine, last: u32) -> bool
    ensures { result ≡ goes_back last r }
{
    r.start < last || r.end < r.start || r.to < r.from || r.past < r.first
}

// The ten numbers of a record that does not go back.
fn numbers_of(r: Record, last: u32) -> [u32; RECORD_WORDS]
    requires { goes_back last r.nine ≡ false }
    ensures { result ≡ numbers_of last r }
{
    let n = r.nine;
    [
        n.kind,
        n.detail,
        n.start - last,
        n.end - n.start,
        n.from,
        n.to - n.from,
        n.source,
        n.first,
        n.past - n.first,
        r.depth,
    ]
}

// How many groups a number takes, from its leading zero bits: nine for each bit and 64 are one group more at 8, 15, 22 and 29 bits.
fn group_count(n: u32) -> usize
    ensures { result ≡ length (image n) }
{
    let zeros = u32::leading_zeros(n);
    ((352 - 9 * zeros) / 64) as usize
}

// How many groups ten numbers take.
fn counts(ns: [u32; RECORD_WORDS]) -> usize
    requires { length ns ≡ record_words }
    ensures { result ≡ length (images ns) }
{
    let mut total: usize = 0;
    for n in ns {
        total += group_count(n);
    }
    total
}

// The groups of a number, one by one, from the start of the memory on, and how many they are.
fn put_groups(n: u32, out: &mut [u8]) -> usize
    requires { length (image n) ≤ length out.old }
    ensures { (result ≡ length (image n)) × (out.new ≡ written (image n) out.old) }
{
    let count = group_count(n);
    let mut rest = n;
    let last = count - 1;
    for i in 0..last {
        out[i] = 128 + (rest % 128) as u8;
        rest = rest / 128;
    }
    out[last] = rest as u8;
    count
}

// The groups of a number: most have one.
fn put_number(n: u32, out: &mut [u8]) -> usize
    requires { length (image n) ≤ length out.old }
    ensures { (result ≡ length (image n)) × (out.new ≡ written (image n) out.old) }
{
    if n < 128 {
        out[0] = n as u8;
        return 1;
    }
    put_groups(n, out)
}

// The groups of ten numbers, one after the other.
fn put_numbers(ns: [u32; RECORD_WORDS], out: &mut [u8]) -> usize
    requires { (length ns ≡ record_words) × (length (images ns) ≤ length out.old) }
    ensures { (result ≡ length (images ns)) × (out.new ≡ written (images ns) out.old) }
{
    let mut at: usize = 0;
    for n in ns {
        at += put_number(n, &mut out[at..]);
    }
    at
}

// The bytes that the words of whole records take, or the first record that goes back.
pub fn measure(words: &[u32]) -> Result<usize, StoreError>
    requires { length words.now % record_words ≡ 0 }
    ensures { result ≡ measured words.now }
{
    let mut total: usize = 0;
    let mut last: u32 = 0;
    for item in 0..words.len() / RECORD_WORDS {
        let record = record_at(words, item * RECORD_WORDS);
        if goes_back(record.nine, last) {
            return Err(StoreError::Back(item));
        }
        total += counts(numbers_of(record, last));
        last = record.nine.start;
    }
    Ok(total)
}

// The file of the words of whole records, none of which goes back, from the start of the memory on.
pub fn put_words(words: &[u32], out: &mut [u8])
    requires { (length words.now % record_words ≡ 0) × (goes first 0 words.now ≡ on) × (length (file first words.now) ≤ length out.old) }
    ensures { out.new ≡ written (file first words.now) out.old }
{
    let mut at: usize = 0;
    let mut last: u32 = 0;
    for item in 0..words.len() / RECORD_WORDS {
        let record = record_at(words, item * RECORD_WORDS);
        at += put_numbers(numbers_of(record, last), &mut out[at..]);
        last = record.nine.start;
    }
}
