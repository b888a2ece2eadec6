// Where reading starts.
ghost use Rattle.std.specs.Prelude.{◌≡◌, drop};
ghost use Rattle.chars.specs.Utf8.{chars};
ghost use Rattle.items.specs.Whole.{in_report};
ghost use Rattle.lexer.specs.Opening.{line_end, after_hash, start_of, opening, opening_of, open_of};

use crate::{OpenError, Position, Spot};
use chars::{Decoded, decode_at, first_bad};
use items::modes::REPORT;
use meaning::Range;
use refusal::LIMIT;
use steps::signs::{BANG, HASH, NEWLINE};

// No error range was set yet.
pub const UNSET: u32 = 0;

// The depth where no bracket is open.
pub const OUTSIDE: u32 = 0;

// The place of the first newline from a place on, or of the end.
fn line_end(source: &[u8], from: usize) -> usize
    ensures { result ≡ line_end from (chars (drop from source.now)) }
{
    let mut at = from;
    while let Decoded::Char { code, next } = decode_at(source, at) {
        if code == NEWLINE {
            return at;
        }
        at = next;
    }
    at
}

// Where reading starts after a # that begins the text and ends here.
fn after_hash(source: &[u8], at: usize) -> usize
    requires { at ≡ 1 }
    ensures { result ≡ after_hash (chars (drop at source.now)) }
{
    match decode_at(source, at) {
        Decoded::Char { code, next } => {
            if code == BANG {
                return line_end(source, next);
            }
            0
        }
        _ => 0,
    }
}

// Where reading starts: at the end of a first line that starts with #!, else at 0.
fn start_of(source: &[u8]) -> usize
    ensures { result ≡ start_of (chars source.now) }
{
    match decode_at(source, 0) {
        Decoded::Char { code, next } => {
            if code == HASH {
                return after_hash(source, next);
            }
            0
        }
        _ => 0,
    }
}

// The position at the start of a source.
pub fn start(source: &[u8], mode: u32, skip: bool) -> Position
    ensures { result ≡ opening source.now (in_report mode) skip }
{
    Position {
        spot: Spot {
            at: start_of(source),
            last: Range {
                from: UNSET,
                to: UNSET,
            },
            second: false,
            report: mode == REPORT,
            skip: skip,
        },
        depth: OUTSIDE,
    }
}

// Opens a source for reading one item a call: a position to read on from, or a refusal.
pub fn open(source: &[u8], mode: u32, skip: bool) -> Result<Position, OpenError>
    ensures { opening_of result ≡ open_of source.now mode skip }
{
    if REPORT < mode {
        return Err(OpenError::NoMode(mode));
    }
    if LIMIT < source.len() {
        return Err(OpenError::TooLong);
    }
    match first_bad(source) {
        None => Ok(start(source, mode, skip)),
        Some(at) => Err(OpenError::NotUtf8(at)),
    }
}
