// Where an error that knows its place points. Internal: for strings, vertical lines and characters.
ghost use Rattle.std.specs.Prelude.{◌≡◌, ◌+◌, ◌^◌, ◌<◌, length, drop};
ghost use Rattle.items.specs.Readers.{past_failing};

use chars::{Decoded, decode_at};
use items::kinds;

// What follows the first n bytes; nothing where there are fewer.
pub fn rest(raw: &[u8], n: usize) -> &[u8]
    ensures { result.now ≡ drop n raw.now }
{
    if raw.len() < n {
        return &raw[raw.len()..];
    }
    &raw[n..]
}

// The place past what fails at the place `at`, where the bytes `rest` stand.
pub fn past_failing(detail: u32, at: usize, rest: &[u8]) -> usize
    requires { at + length rest.now < 2 ^ 64 }
    ensures { result ≡ past_failing detail at rest.now }
{
    if detail == kinds::NO_DIGITS {
        return at;
    }
    match decode_at(rest, 0) {
        Decoded::Char { code: _, next } => at + next,
        Decoded::Bad => at,
        Decoded::Cut => at,
        Decoded::End => at,
    }
}
