// Each word of a record is stored less a base.
ghost use Rattle.std.specs.Prelude.{◌≡◌};
ghost use Rattle.items_files.specs.Layout.{before, first, base, after};

use crate::Before;

// What lies before the first word of a list.
pub fn at_first() -> Before
    ensures { result ≡ first }
{
    Before {
        which: 0,
        last: 0,
        start: 0,
    }
}

// What lies before the word after an item that starts at a place and has this depth.
pub fn after_item(start: u32, depth: u32) -> Before
    ensures { result ≡ before 0 depth start }
{
    Before {
        which: 0,
        last: depth,
        start,
    }
}

// What a word is stored less of.
pub fn base_of(b: Before) -> u32
    ensures { result ≡ base b }
{
    match b.which {
        2 => b.start,
        3 | 5 | 8 => b.last,
        _ => 0,
    }
}

// What lies before the word after w.
pub fn after_word(b: Before, w: u32) -> Before
    ensures { result ≡ after b w }
{
    if b.which == 2 {
        return Before {
            which: 3,
            last: w,
            start: w,
        };
    }
    if b.which < 9 {
        return Before {
            which: b.which + 1,
            last: w,
            start: b.start,
        };
    }
    Before {
        which: 0,
        last: w,
        start: b.start,
    }
}
