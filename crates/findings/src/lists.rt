// The finding about lists, by the refusal of the nested lists.
ghost use Rattle.std.specs.Prelude.{◌≡◌, ◌<◌, ℕ, Bool, List};
ghost use Rattle.laws.specs.Quoted.{within};
ghost use Rattle.items.specs.Kinds as kind;
ghost use Rattle.nested.specs.Errors.{error_number};
ghost use Rattle.findings.specs.Rows.{last_before};
ghost use Rattle.findings.specs.Lists.{at_row, at_rows, is_kind, opener, is_mark, waits, wrong_close, misplaced_dot, mark_waits, innermost, around, bracket_open, refused_list, list_of};

use crate::codes::{AT_DOT, BEHIND_DOT, CLOSES_ANOTHER, ERROR, NO_FINDING_DETAIL, NOWHERE, STRAY};
use crate::slips::is_within;
use crate::{Finding, ListTold, misfits, rows};
use items::{RECORD_WORDS, kinds};
use nested::{NestError, NestErrorKind};
use refusal::{BRACKET_OPEN, MARK_WAITS, MISPLACED_DOT, TOO_DEEP, WRONG_CLOSE};

// Told at row i.
fn at_row(rows: &[u32], code: u32, detail: u32, i: usize) -> Option<ListTold>
    ensures { result ≡ at_row rows.now code detail i }
{
    let row = rows::row_at(rows, i);
    Some(ListTold {
        row: i,
        finding: Finding {
            severity: ERROR,
            code,
            detail,
            start: row.start,
            end: row.end,
            also: NOWHERE,
            past: NOWHERE,
        },
    })
}

// Told at row i, with row j as the second place.
fn at_rows(rows: &[u32], code: u32, detail: u32, i: usize, j: usize) -> Option<ListTold>
    ensures { result ≡ at_rows rows.now code detail i j }
{
    let row = rows::row_at(rows, i);
    let other = rows::row_at(rows, j);
    Some(ListTold {
        row: i,
        finding: Finding {
            severity: ERROR,
            code,
            detail,
            start: row.start,
            end: row.end,
            also: other.start,
            past: other.end,
        },
    })
}

// A test of the rows before one.
trait RowTest: Copy {
    ghost passes: { Self → List ℕ → ℕ → ℕ → Bool };

    // Whether row i passes, before row p.
    fn holds(self, rows: &[u32], p: usize, i: usize) -> bool
        requires { i < p }
        ensures { result ≡ passes self rows.now p i };
}

// A row of a kind, where so many brackets are open.
#[derive(Clone, Copy)]
struct OfKind {
    kind: u32,
    depth: u32,
}

impl RowTest for OfKind {
    ghost passes = { λ s rows p i. is_kind rows s.kind s.depth i };

    fn holds(self, rows: &[u32], p: usize, i: usize) -> bool {
        let row = rows::row_at(rows, i);
        row.kind == self.kind && row.depth == self.depth
    }
}

// A mark that waits at row p, where so many brackets are open.
#[derive(Clone, Copy)]
struct Waiting {
    depth: u32,
}

impl RowTest for Waiting {
    ghost passes = { λ s rows p i. waits rows s.depth p i };

    fn holds(self, rows: &[u32], p: usize, i: usize) -> bool {
        let row = rows::row_at(rows, i);
        is_mark(row.kind)
            && row.depth == self.depth
            && (i + 1 == p || rows::row_at(rows, i + 1).kind == kinds::DATUM_COMMENT)
    }
}

// The last row before row p that passes.
fn last_passing<T: RowTest>(rows: &[u32], p: usize, test: T) -> usize
    ensures { result ≡ last_before (T.passes test rows.now p) p }
{
    for i in (0..p).rev() {
        if test.holds(rows, p, i) {
            return i;
        }
    }
    0
}

// The bracket that is innermost where `depth` are open, before row p.
fn opener_of(rows: &[u32], depth: u32, p: usize) -> usize
    ensures { result ≡ opener rows.now depth p }
{
    let opens = OfKind {
        kind: kinds::OPEN_PAREN,
        depth: depth.saturating_sub(1),
    };
    last_passing(rows, p, opens)
}

// E41.
fn wrong_close(rows: &[u32], p: usize) -> Option<ListTold>
    ensures { result ≡ wrong_close rows.now p }
{
    let depth = rows::depth_at(rows, p);
    if depth == 0 {
        return at_row(rows, WRONG_CLOSE, STRAY, p);
    }
    at_rows(
        rows,
        WRONG_CLOSE,
        CLOSES_ANOTHER,
        p,
        opener_of(rows, depth, p),
    )
}

// E42.
fn misplaced_dot(rows: &[u32], p: usize) -> Option<ListTold>
    ensures { result ≡ misplaced_dot rows.now p }
{
    let row = rows::row_at(rows, p);
    if row.kind == kinds::DOT {
        return at_row(rows, MISPLACED_DOT, AT_DOT, p);
    }
    let dots = OfKind {
        kind: kinds::DOT,
        depth: rows::depth_at(rows, p),
    };
    let dot = last_passing(rows, p, dots);
    at_row(rows, MISPLACED_DOT, BEHIND_DOT, dot)
}

// One of the eight quoting marks, or `#;`.
fn is_mark(kind: u32) -> bool
    ensures { result ≡ is_mark kind }
{
    kind == kinds::DATUM_COMMENT || is_within(kinds::QUOTE_TICK, kinds::UNQUOTE_SPLICE_SYNTAX, kind)
}

// E43.
fn mark_waits(rows: &[u32], p: usize) -> Option<ListTold>
    ensures { result ≡ mark_waits rows.now p }
{
    let marks = Waiting {
        depth: rows::depth_at(rows, p),
    };
    at_row(
        rows,
        MARK_WAITS,
        NO_FINDING_DETAIL,
        last_passing(rows, p, marks),
    )
}

// The innermost bracket that is open at the end.
fn innermost_open(rows: &[u32]) -> Option<ListTold>
    ensures { result ≡ innermost rows.now }
{
    let count = rows.len() / RECORD_WORDS;
    let depth = rows::depth_at(rows, count);
    at_row(rows, BRACKET_OPEN, depth, opener_of(rows, depth, count))
}

// The bracket that the misfit of row k lies in, with the misfit.
fn around_misfit(rows: &[u32], k: usize) -> Option<ListTold>
    ensures { result ≡ around rows.now k }
{
    let depth = rows::depth_at(rows, rows.len() / RECORD_WORDS);
    let row = rows::row_at(rows, k);
    let q = opener_of(rows, row.depth, k);
    at_rows(rows, BRACKET_OPEN, depth, q, k)
}

// Whether an error is of what is not closed.
fn is_unclosed(error: u32) -> bool
    ensures { result ≡ within kind.IncompleteString kind.IncompleteComment error }
{
    is_within(kinds::INCOMPLETE_STRING, kinds::INCOMPLETE_COMMENT, error)
}

// E40.
fn bracket_open(source: &[u8], rows: &[u32]) -> Option<ListTold>
    ensures { result ≡ bracket_open source.now rows.now }
{
    let last = rows::last_row(rows);
    if is_unclosed(last.error) {
        return None;
    }
    let k = misfits::first_misfit(source, rows);
    if k < rows.len() / RECORD_WORDS {
        return around_misfit(rows, k);
    }
    innermost_open(rows)
}

// By the refusal and its row.
fn refused_list(source: &[u8], rows: &[u32], e: NestError) -> Option<ListTold>
    ensures { result ≡ refused_list source.now rows.now (error_number e.kind) e.at }
{
    match e.kind {
        NestErrorKind::BracketOpen => bracket_open(source, rows),
        NestErrorKind::WrongClose => wrong_close(rows, e.at),
        NestErrorKind::MisplacedDot => misplaced_dot(rows, e.at),
        NestErrorKind::MarkWaits => mark_waits(rows, e.at),
        NestErrorKind::TooDeep => at_row(rows, TOO_DEEP, NO_FINDING_DETAIL, e.at),
        NestErrorKind::Alien => None,
        NestErrorKind::ErrorItem => None,
        NestErrorKind::FewNodes => None,
    }
}

// The finding about the lists of a plan.
pub fn list_of(source: &[u8], rows: &[u32]) -> Option<ListTold>
    ensures { result ≡ list_of source.now rows.now }
{
    let mut none = [0u32; 1];
    let built = nested::build(rows, &mut none[..0]);
    match built {
        Ok(_n) => None,
        Err(e) => refused_list(source, rows, e),
    }
}
