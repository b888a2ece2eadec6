// A position as the words that a caller keeps, in the order of docs/STATE.md.
ghost use Rattle.std.specs.Prelude.{◌≡◌, true, length};
ghost use Rattle.laws.specs.Lent.{written};
ghost use Rattle.reader_exports.specs.Words.{reader_words, listed, are_at_most, is_position, position_in};

use lexer::{Position, Spot};
use meaning::Range;

// How many words a position has.
pub const READER_WORDS: usize = 7;

// The words by what they hold.
const AT_WORD: usize = 0;

const FROM_WORD: usize = 1;

const TO_WORD: usize = 2;

const SECOND_WORD: usize = 3;

const REPORT_WORD: usize = 4;

const SKIP_WORD: usize = 5;

const DEPTH_WORD: usize = 6;

// The greatest number of 32 bits.
const GREATEST_U32: u64 = 0xFFFF_FFFF;

// The word of a yes.
const YES: u64 = 1;

// Whether three numbers are at most a fourth.
fn are_at_most(most: u64, a: u64, b: u64, c: u64) -> bool
    ensures { result ≡ are_at_most most a b c }
{
    a <= most && b <= most && c <= most
}

// Whether some words are those of a position.
pub fn is_position(words: &[u64]) -> bool
    ensures { result ≡ is_position words.now }
{
    words.len() == READER_WORDS
        && are_at_most(
            GREATEST_U32,
            words[FROM_WORD],
            words[TO_WORD],
            words[DEPTH_WORD],
        )
        && are_at_most(
            YES,
            words[SECOND_WORD],
            words[REPORT_WORD],
            words[SKIP_WORD],
        )
}

// The position that they are.
pub fn position_in(words: &[u64]) -> Position
    requires { is_position words.now ≡ true }
    ensures { result ≡ position_in words.now }
{
    Position {
        spot: Spot {
            at: words[AT_WORD] as usize,
            last: Range {
                from: words[FROM_WORD] as u32,
                to: words[TO_WORD] as u32,
            },
            second: words[SECOND_WORD] == YES,
            report: words[REPORT_WORD] == YES,
            skip: words[SKIP_WORD] == YES,
        },
        depth: words[DEPTH_WORD] as u32,
    }
}

// Writes a position's words.
pub fn put_position(words: &mut [u64], p: Position)
    requires { length words.old ≡ reader_words }
    ensures { words.new ≡ written (listed p) words.old }
{
    let second = u64::from(p.spot.second);
    let report = u64::from(p.spot.report);
    let skip = u64::from(p.spot.skip);
    words[AT_WORD] = p.spot.at as u64;
    words[FROM_WORD] = p.spot.last.from as u64;
    words[TO_WORD] = p.spot.last.to as u64;
    words[SECOND_WORD] = second;
    words[REPORT_WORD] = report;
    words[SKIP_WORD] = skip;
    words[DEPTH_WORD] = p.depth as u64;
}
