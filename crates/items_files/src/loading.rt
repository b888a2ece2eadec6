// The reader's two passes: the first looks at every number and writes nothing, the second writes the words.
ghost use Rattle.std.specs.Prelude.{true, ◌≡◌, ◌≤◌, ◌<◌, length, drop};
ghost use Rattle.laws.specs.Lent.{written};
ghost use Rattle.items_files.specs.Answers.{got};
ghost use Rattle.items_files.specs.Numbers.{number_of};
ghost use Rattle.items_files.specs.Read.{opening, read_from, sizes, words_in, sound};

use crate::{LoadError, Number, NumberFault, glance, layout};
use items::RECORD_WORDS;
use meaning::records::put;

// The largest number of 32 bits.
const LARGEST_NUMBER: u64 = 4294967295;

// The weight of the fifth group.
const FIFTH: u32 = 268435456;

// The number that stands at a place, group by group.
fn groups_at(file: &[u8], at: usize) -> Result<Number, NumberFault>
    ensures { result ≡ number_of 0 1 at (drop at file.now) }
{
    let mut value: u32 = 0;
    let mut weight: u32 = 1;
    for i in at..file.len() {
        let c = file[i];
        if c < 128 {
            if c == 0 {
                if weight == 1 {
                    return Ok(Number {
                        value: 0,
                        next: i + 1,
                    });
                }
                return Err(NumberFault::Wrong);
            }
            let n = value as u64 + weight as u64 * c as u64;
            if LARGEST_NUMBER < n {
                return Err(NumberFault::Wrong);
            }
            return Ok(Number {
                value: n as u32,
                next: i + 1,
            });
        }
        if weight == FIFTH {
            return Err(NumberFault::Wrong);
        }
        value = value + weight * (c - 128) as u32;
        weight = weight * 128;
    }
    Err(NumberFault::Cut)
}

// The number that stands at a place of the file: most have one group.
fn number_at(file: &[u8], at: usize) -> Result<Number, NumberFault>
    requires { at < length file.now }
    ensures { result ≡ number_of 0 1 at (drop at file.now) }
{
    let c = file[at];
    if c < 128 {
        return Ok(Number {
            value: c as u32,
            next: at + 1,
        });
    }
    groups_at(file, at)
}

// How many words a file has, or the first number that fails.
pub fn scan(file: &[u8]) -> Result<usize, LoadError>
    ensures { got result ≡ sizes (read_from opening 0 file.now) }
{
    let mut b = layout::at_first();
    let mut n: usize = 0;
    let mut i: usize = 0;
    while i < file.len() {
        if let Some(past) = glance::item_end(file, i, b) {
            b = layout::after_item(b.start + file[i + 2] as u32, file[past - 1] as u32);
            n += RECORD_WORDS;
            i = past;
        } else {
            match number_at(file, i) {
                Ok(number) => {
                    let word = layout::base_of(b) as u64 + number.value as u64;
                    if LARGEST_NUMBER < word {
                        return Err(LoadError::Over(n));
                    }
                    b = layout::after_word(b, word as u32);
                    n += 1;
                    i = number.next;
                }
                Err(NumberFault::Wrong) => {
                    return Err(LoadError::Wrong(n));
                }
                Err(NumberFault::Cut) => {
                    return Err(LoadError::Cut(n));
                }
            }
        }
    }
    if b.which == 0 {
        return Ok(n);
    }
    Err(LoadError::Cut(n))
}

// The words of a file that has no number that fails, from the start of the memory on.
pub fn fill(file: &[u8], records: &mut [u32])
    requires { (sound (read_from opening 0 file.now) ≡ true) × (length (words_in (read_from opening 0 file.now)) ≤ length records.old) }
    ensures { records.new ≡ written (words_in (read_from opening 0 file.now)) records.old }
{
    let mut b = layout::at_first();
    let mut n: usize = 0;
    let mut i: usize = 0;
    while i < file.len() {
        if let Some(light) = glance::item_at(file, i, b) {
            put(&mut records[n..], light.record);
            b = layout::after_item(light.record.nine.start, light.record.depth);
            n += RECORD_WORDS;
            i = light.next;
        } else {
            let Ok(number) = number_at(file, i) else {
                return;
            };
            let w = layout::base_of(b) + number.value;
            records[n] = w;
            b = layout::after_word(b, w);
            n += 1;
            i = number.next;
        }
    }
}
