// Items that one look tells: light ones, of which nearly all of a plan are. Any other is for the passes of `loading`, which go number by
// number.
ghost use Rattle.std.specs.Prelude.{true, ◌≡◌, ◌+◌, ◌≤◌, length};
ghost use Rattle.items_files.specs.Glance.{brief_groups, BriefAt, PairAt, LightHead, LightParts, light_record, LightAt, EndAt};

use crate::{Before, Light, Number};
use items::{Nine, Record};

// The lowest byte whose group goes on.
const GOES_ON: u8 = 128;

// The weights of the second, the third and the fourth group.
const SECOND: u32 = 128;

const THIRD: u32 = 16384;

const FOURTH: u32 = 2097152;

// How many bytes a light item has at most.
const LIGHT_BYTES: usize = 16;

// The highest start that two numbers of one group do not take past 32 bits.
const LOW_START: u32 = 4294967041;

// A brief number that stands at a place, one below 268,435,456 and so of up to four groups: as a rule the start of a place or of a text is
// one.
fn brief_at(file: &[u8], at: usize) -> Option<Number>
    requires { at + brief_groups ≤ length file.now }
    ensures { BriefAt file.now at result }
{
    let c = file[at];
    if c < GOES_ON {
        return Some(Number {
            value: c as u32,
            next: at + 1,
        });
    }
    let d = file[at + 1];
    if d == 0 {
        return None;
    }
    if d < GOES_ON {
        return Some(Number {
            value: (c - GOES_ON) as u32 + SECOND * d as u32,
            next: at + 2,
        });
    }
    let e = file[at + 2];
    if e == 0 {
        return None;
    }
    let low = (c - GOES_ON) as u32 + SECOND * (d - GOES_ON) as u32;
    if e < GOES_ON {
        return Some(Number {
            value: low + THIRD * e as u32,
            next: at + 3,
        });
    }
    let g = file[at + 3];
    if g == 0 {
        return None;
    }
    if g < GOES_ON {
        return Some(Number {
            value: low + THIRD * (e - GOES_ON) as u32 + FOURTH * g as u32,
            next: at + 4,
        });
    }
    None
}

// Whether two numbers of one group each stand at a place.
fn pair_at(file: &[u8], at: usize) -> bool
    requires { at + 2 ≤ length file.now }
    ensures { result ≡ true → PairAt file.now at }
{
    file[at] | file[at + 1] < GOES_ON
}

// Whether an item whose first four numbers have one group each starts at a place, with as many bytes from there on as a light item may
// have, after one that starts so low that the sums stay below 32 bits.
fn light_head(file: &[u8], at: usize, b: Before) -> bool
    ensures { result ≡ true → LightHead file.now at b }
{
    b.which == 0
        && b.start <= LOW_START
        && LIGHT_BYTES <= file.len()
        && at <= file.len() - LIGHT_BYTES
        && file[at] | file[at + 1] | file[at + 2] | file[at + 3] < GOES_ON
}

// The place past a light item.
pub fn item_end(file: &[u8], at: usize, b: Before) -> Option<usize>
    ensures { EndAt file.now at b result }
{
    if light_head(file, at, b) {
        let i = brief_at(file, at + 4)?.next;
        if pair_at(file, i) {
            let j = brief_at(file, i + 2)?.next;
            if pair_at(file, j) {
                return Some(j + 2);
            }
        }
    }
    None
}

// The record of a light item at a place: the start of its place ends at i, that of its text at j.
fn light_record(
    file: &[u8],
    at: usize,
    b: Before,
    from: u32,
    i: usize,
    first: u32,
    j: usize,
) -> Record
    requires { LightParts file.now at b from i first j }
    ensures { result ≡ light_record file.now at b from i first j }
{
    let start = b.start + file[at + 2] as u32;
    let nine = Nine {
        kind: file[at] as u32,
        detail: file[at + 1] as u32,
        start: start,
        end: start + file[at + 3] as u32,
        from: from,
        to: from + file[i] as u32,
        source: file[i + 1] as u32,
        first: first,
        past: first + file[j] as u32,
    };
    Record {
        nine,
        depth: file[j + 1] as u32,
    }
}

// A light item that stands at a place.
pub fn item_at(file: &[u8], at: usize, b: Before) -> Option<Light>
    ensures { LightAt file.now at b result }
{
    if light_head(file, at, b) {
        let place = brief_at(file, at + 4)?;
        if pair_at(file, place.next) {
            let text = brief_at(file, place.next + 2)?;
            if pair_at(file, text.next) {
                return Some(Light {
                    record: light_record(
                        file,
                        at,
                        b,
                        place.value,
                        place.next,
                        text.value,
                        text.next,
                    ),
                    next: text.next + 2,
                });
            }
        }
    }
    None
}
