// The bytes of a line: the run of the characters of ASCII that are no newline, tested a block at a time.
ghost use Rattle.std.specs.Prelude.{◌≡◌, ◌+◌, ◌≤◌, leb, length, drop};
ghost use Rattle.laws.specs.Texts.{span};
ghost use Rattle.byte_runs.specs.Runs.{block};
ghost use Rattle.pieces_spots.specs.Lines.{of_line, LineTo};

use byte_runs::{BLOCK, HALF, QUARTER, all_plain, has_block, plain_bytes};

// Whether the block at a place is of a line.
pub(crate) fn line_block(t: &[u8], at: usize) -> bool
    ensures { result ≡ leb block (span of_line (drop at t.now)) }
{
    has_block(t, at) && all_plain(t, at, BLOCK, b'\n', b'\n')
}

// Past n bytes at a place, if all are of a line, else the place.
fn past_part(t: &[u8], at: usize, n: usize) -> usize
    requires { at + n ≤ length t.now }
    ensures { LineTo t.now at n result }
{
    if all_plain(t, at, n, b'\n', b'\n') {
        return at + n;
    }
    at
}

// The place past the run from a place on, which has no block more.
pub(crate) fn line_rest(t: &[u8], at: usize) -> usize
    requires { at ≤ length t.now }
    ensures { result ≡ at + span of_line (drop at t.now) }
{
    if t.len() - at < BLOCK {
        return plain_bytes(t, at, b'\n', b'\n');
    }
    let i = past_part(t, at, HALF);
    let j = past_part(t, i, QUARTER);
    plain_bytes(t, j, b'\n', b'\n')
}
