// The end places.
ghost use Rattle.std.specs.Prelude.{◌≡◌, length};
ghost use Rattle.chars.specs.Utf8.{first_bad};
ghost use Rattle.lexer_fields.specs.Fields.{is_in_order};
ghost use Rattle.lexer_fields.specs.Answers.{continues, between, cutting_of, well_cut};

use crate::EndsCutting;
use chars::{TAIL_HIGH, TAIL_LOW, first_bad};

// Whether the byte at a place goes on with a character.
fn continues(source: &[u8], at: usize) -> bool
    ensures { result ≡ continues source.now at }
{
    if source.len() <= at {
        return false;
    }
    let b = source[at];
    if b < TAIL_LOW {
        return false;
    }
    b <= TAIL_HIGH
}

// How the ends cut a source.
pub fn cut(source: &[u8], ends: &[u32]) -> EndsCutting
    ensures { result ≡ cutting_of (is_in_order (length source.now) 0 ends.now) (between source.now ends.now) }
{
    let n = source.len();
    let mut from: usize = 0;
    let mut inside = false;
    for place in ends {
        let end = *place as usize;
        if end < from || n < end {
            return EndsCutting::Disordered;
        }
        if continues(source, end) {
            inside = true;
        }
        from = end;
    }
    if inside {
        return EndsCutting::Inside;
    }
    EndsCutting::Between
}

// Whether all parts are known to be UTF-8: the source is, and its ends are clean, none inside a character.
pub fn all_known(source: &[u8], clean: bool) -> bool
    ensures { result ≡ well_cut (first_bad source.now) clean }
{
    match first_bad(source) {
        None => clean,
        Some(_) => false,
    }
}
