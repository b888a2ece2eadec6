// Builds the index of a whole text: counts its line starts, then stores them, a block of bytes at a time.
ghost use Rattle.std.specs.Prelude.{◌≡◌, false, ◌+◌, ◌≤◌, eqb, length, if◌then◌else◌};
ghost use Rattle.laws.specs.Lent.{written};
ghost use Rattle.refusal.specs.Refusals.{limit};
ghost use Rattle.lines.specs.Starts.{newline, starts, told_of, outcome, build_of};
ghost use Rattle.lines_calls.specs.Left.{left, Storing, block, wide};

use lines::LinesError;
use refusal::LIMIT;

// How many bytes are stored of at once.
const STORED_AT_ONCE: usize = 16;

// How many bytes are counted at once, in a byte.
const WIDE: usize = 192;

// 1 for a newline byte, 0 for another.
fn if_newline(b: u8) -> u8
    ensures { result ≡ (if eqb b newline then 1 else 0) }
{
    if b == b'\n' { 1 } else { 0 }
}

// How many newline bytes stand in a part of the text, which is no longer than WIDE.
fn count_part(text: &[u8], at: usize, bytes: usize) -> u8
    requires { (at + bytes ≤ length text.now) × (bytes ≤ wide) }
    ensures { (result ≤ bytes) × (length (left text.now at) ≡ result + length (left text.now (at + bytes))) }
{
    let mut n: u8 = 0;
    for j in 0..bytes {
        n += if_newline(text[at + j]);
    }
    n
}

// How many line starts a text has.
fn count(text: &[u8]) -> usize
    ensures { result ≡ length (starts text.now) }
{
    let mut n: usize = 1;
    let mut i: usize = 0;
    while WIDE <= text.len() - i {
        n += count_part(text, i, WIDE) as usize;
        i += WIDE;
    }
    n + count_part(text, i, text.len() - i) as usize
}

// Whether a newline byte stands in the block at a place.
fn has_newline(text: &[u8], at: usize) -> bool
    requires { at + block ≤ length text.now }
    ensures { result ≡ false → left text.now at ≡ left text.now (at + block) }
{
    let mut found = false;
    for j in 0..STORED_AT_ONCE {
        if text[at + j] == b'\n' {
            found = true;
        }
    }
    found
}

// Stores the starts after the newline bytes of a part of the text, from place n of the index on; answers the place past them.
fn put_bytes(text: &[u8], from: usize, to: usize, index: &mut [u32], n: usize) -> usize
    requires { (from ≤ to) × (to ≤ length text.now) × (length text.now ≤ limit) × (n + length (left text.now from) ≤ length index.old) }
    ensures { Storing text.now index.old n from index.new result to }
{
    let mut k = n;
    for i in from..to {
        if text[i] == b'\n' {
            index[k] = (i + 1) as u32;
            k += 1;
        }
    }
    k
}

// The same of the block at a place.
fn put_block(text: &[u8], at: usize, index: &mut [u32], n: usize) -> usize
    requires { (at + block ≤ length text.now) × (length text.now ≤ limit) × (n + length (left text.now at) ≤ length index.old) }
    ensures { Storing text.now index.old n at index.new result (at + block) }
{
    if has_newline(text, at) {
        return put_bytes(text, at, at + STORED_AT_ONCE, index, n);
    }
    n
}

// The line starts, from the start of the memory on; answers how many.
fn put(text: &[u8], index: &mut [u32]) -> usize
    requires { (length text.now ≤ limit) × (length (starts text.now) ≤ length index.old) }
    ensures { (result ≡ length (starts text.now)) × (index.new ≡ written (starts text.now) index.old) }
{
    index[0] = 0;
    let mut n: usize = 1;
    let mut i: usize = 0;
    while STORED_AT_ONCE <= text.len() - i {
        n = put_block(text, i, index, n);
        i += STORED_AT_ONCE;
    }
    put_bytes(text, i, text.len(), index, n)
}

// Builds the index of a whole text.
pub fn build(text: &[u8], index: &mut [u32]) -> Result<usize, LinesError>
    ensures { outcome (told_of result) index.new ≡ build_of text.now index.old }
{
    if LIMIT < text.len() {
        return Err(LinesError::TooLong);
    }
    if let Some(at) = chars::first_bad(text) {
        return Err(LinesError::NotUtf8(at));
    }
    if text.len() < index.len() {
        return Ok(put(text, index));
    }
    let n = count(text);
    if index.len() < n {
        return Err(LinesError::NoRoom(n));
    }
    put(text, index);
    Ok(n)
}
