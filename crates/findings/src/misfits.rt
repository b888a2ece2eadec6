// The search for a list that starts no further right than the one it lies in: one pass, which keeps for each depth where the line of its
// last bracket starts and how far right that bracket stands.
ghost use Rattle.std.specs.Prelude.{◌≡◌, ◌&&◌, ◌-◌, ◌≤◌, leb, ltb, get_or};
ghost use Rattle.findings.specs.Lines.{first_on_line};
ghost use Rattle.findings.specs.Rows.{first_row};
ghost use Rattle.findings.specs.Lists.{is_misfit};
ghost use Rattle.findings.specs.Misfits.{noted, misfit_by};

use crate::slips::is_within;
use crate::{Row, lines, rows};
use items::{RECORD_WORDS, kinds};

// How many depths are kept, and the deepest bracket that a misfit may lie in one more of.
const DEPTHS: usize = 65;

const DEEPEST_KEPT: u32 = 64;

// What is kept of a depth, 0 past the last one.
fn kept_at(kept: &[usize], depth: u32) -> usize
    ensures { result ≡ get_or kept.now depth 0 }
{
    let d = depth as usize;
    if d < kept.len() { kept[d] } else { 0 }
}

// Keeps a value for the depth of a row, if it opens a bracket.
fn note(kept: &mut [usize], row: Row, value: usize)
    ensures { kept.new ≡ noted row value kept.old }
{
    if row.kind == kinds::OPEN_PAREN {
        let d = row.depth as usize;
        if d < kept.len() {
            kept[d] = value;
        }
    }
}

// Whether a list at the place a, whose line starts at `line`, stands below the line that starts at `outer` and no more than `offset`
// bytes right.
fn stands_out(source: &[u8], a: usize, line: usize, outer: usize, offset: usize) -> bool
    requires { line ≤ a }
    ensures { result ≡ (ltb outer line && leb (a - line) offset && first_on_line source.now a) }
{
    outer < line && a - line <= offset && lines::first_on_line(source, a)
}

// Whether a row is a misfit, by what is kept.
fn is_misfit(source: &[u8], row: Row, line: usize, starts: &[usize], offsets: &[usize]) -> bool
    requires { line ≤ row.start }
    ensures { result ≡ misfit_by source.now row line starts.now offsets.now }
{
    if row.kind != kinds::OPEN_PAREN || !is_within(1, DEEPEST_KEPT, row.depth) {
        return false;
    }
    let outer = kept_at(starts, row.depth - 1);
    let offset = kept_at(offsets, row.depth - 1);
    stands_out(source, row.start as usize, line, outer, offset)
}

// The first misfit, or the number of rows.
pub fn first_misfit(source: &[u8], rows: &[u32]) -> usize
    ensures { result ≡ first_row (is_misfit source.now rows.now) rows.now }
{
    let count = rows.len() / RECORD_WORDS;
    let first = rows::row_at(rows, 0);
    let mut at = first.start as usize;
    let mut line = lines::line_from(source, 0, 0, at);
    let mut starts = [line; DEPTHS];
    let mut offsets = [at - line; DEPTHS];
    for k in 0..count {
        let row = rows::row_at(rows, k);
        line = lines::line_from(source, at, line, row.start as usize);
        at = row.start as usize;
        if is_misfit(source, row, line, &starts, &offsets) {
            return k;
        }
        note(&mut starts, row, line);
        note(&mut offsets, row, at - line);
    }
    count
}
