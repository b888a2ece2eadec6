// What each row tells, and all that a plan tells.
ghost use Rattle.std.specs.Prelude.{◌≡◌, ◌&&◌, ◌+◌, ◌<◌, eqb, ltb};
ghost use Rattle.laws.specs.Quoted.{codes, one_of};
ghost use Rattle.nested.specs.Items.{count_of};
ghost use Rattle.findings.specs.Laid.{telling, all_told};
ghost use Rattle.findings.specs.Told.{ends_in_text, error_end, error_of, error_told, swallow_told, text_told, number_told, name_or_nothing, row_told, list_told, told_of};

use crate::codes::{ERROR, MODES_DIFFER, NO_FINDING_DETAIL, NOWHERE, SWALLOWING};
use crate::{Counted, Finding, ListTold, Row, laying, lists, rows, slips, swallowing};
use items::{RECORD_WORDS, kinds};

// Whether the last row is a text with no closing quote.
fn ends_in_text(source: &[u8], rows: &[u32]) -> bool
    ensures { result ≡ ends_in_text source.now rows.now }
{
    let last = rows::last_row(rows);
    last.error == kinds::INCOMPLETE_STRING && rows::byte_at(source, last.start as usize) == b'"'
}

// Whether a quote is left over, where the first text that has swallowed a line's end is row `first`.
fn is_left_over(source: &[u8], rows: &[u32], first: usize) -> bool
    ensures { result ≡ (ltb first (count_of rows.now) && ends_in_text source.now rows.now) }
{
    first < rows.len() / RECORD_WORDS && ends_in_text(source, rows)
}

// Where an error's place ends.
fn error_end(row: Row) -> u32
    ensures { result ≡ error_end row }
{
    if row.error == kinds::INCOMPLETE_STRING {
        return rows::bytes_on(1, row.from);
    }
    if row.error == kinds::INCOMPLETE_IDENTIFIER {
        return rows::bytes_on(1, row.from);
    }
    if row.error == kinds::INCOMPLETE_COMMENT {
        return rows::bytes_on(2, row.from);
    }
    row.to
}

// Whether row p is the left-over quote.
fn is_left_quote(rows: &[u32], left: bool, p: usize) -> bool
    requires { p < count_of rows.now }
    ensures { result ≡ (left && eqb (p + 1) (count_of rows.now)) }
{
    left && p + 1 == rows.len() / RECORD_WORDS
}

// An error's row, as it is.
fn error_of(row: Row) -> Option<Finding>
    ensures { result ≡ error_of row }
{
    let end = error_end(row);
    Some(Finding {
        severity: ERROR,
        code: row.error,
        detail: row.about,
        start: row.from,
        end,
        also: NOWHERE,
        past: NOWHERE,
    })
}

// E01 to E13.
fn error_told(rows: &[u32], left: bool, p: usize) -> Option<Finding>
    requires { p < count_of rows.now }
    ensures { result ≡ error_told rows.now left p }
{
    if is_left_quote(rows, left, p) {
        return None;
    }
    error_of(rows::row_at(rows, p))
}

// The text that has swallowed a line's end, by where it and the left-over quote start.
fn swallow_told(left: bool, a: u32, b: u32) -> Option<Finding>
    ensures { result ≡ swallow_told left a b }
{
    if left {
        return Some(Finding {
            severity: ERROR,
            code: kinds::INCOMPLETE_STRING,
            detail: NO_FINDING_DETAIL,
            start: a,
            end: rows::bytes_on(1, a),
            also: b,
            past: rows::bytes_on(1, b),
        });
    }
    slips::warn(SWALLOWING, NO_FINDING_DETAIL, a, rows::bytes_on(1, a))
}

// W06 or E02.
fn text_told(rows: &[u32], first: usize, left: bool, p: usize) -> Option<Finding>
    ensures { result ≡ text_told rows.now first left p }
{
    if p == first {
        let row = rows::row_at(rows, p);
        let last = rows::last_row(rows);
        return swallow_told(left, row.start, last.start);
    }
    None
}

// `;`, `"` or `|`, which end a number in report mode only.
fn ends_in_report(b: u8) -> bool
    ensures { result ≡ one_of (codes ";\"|") b }
{
    matches!(b, b';' | b'"' | b'|')
}

// W07.
fn number_told(source: &[u8], rows: &[u32], p: usize) -> Option<Finding>
    ensures { result ≡ number_told source.now rows.now p }
{
    let row = rows::row_at(rows, p);
    let b = rows::byte_at(source, row.end as usize);
    if ends_in_report(b) {
        return slips::warn(MODES_DIFFER, b as u32, row.start, row.end);
    }
    None
}

// A name that warnings are told of, and no other, tells something.
fn name_or_nothing(source: &[u8], rows: &[u32], p: usize) -> Option<Finding>
    requires { p < count_of rows.now }
    ensures { result ≡ name_or_nothing source.now rows.now p }
{
    if slips::is_name(source, rows, p) {
        return slips::name_told(source, rows, p);
    }
    None
}

// What row p tells.
fn row_told(source: &[u8], rows: &[u32], first: usize, left: bool, p: usize) -> Option<Finding>
    requires { p < count_of rows.now }
    ensures { result ≡ row_told source.now rows.now first left p }
{
    let row = rows::row_at(rows, p);
    if 0 < row.error {
        return error_told(rows, left, p);
    }
    if row.kind == kinds::IDENTIFIER {
        return name_or_nothing(source, rows, p);
    }
    if row.kind == kinds::STRING_LITERAL {
        return text_told(rows, first, left, p);
    }
    if row.kind == kinds::NUMBER {
        return number_told(source, rows, p);
    }
    None
}

// The finding about lists, if row p tells it.
fn list_told(list: Option<ListTold>, p: usize) -> Option<Finding>
    ensures { result ≡ list_told list p }
{
    let told = list?;
    (told.row == p).then_some(told.finding)
}

// What the rows of a source tell: how many findings, how many of them errors; those that fit are written from the start of `findings`.
pub fn tell(source: &[u8], rows: &[u32], findings: &mut [u32]) -> Counted
    ensures { telling result findings.new ≡ all_told (told_of source.now rows.now) findings.old }
{
    let list = lists::list_of(source, rows);
    let first = swallowing::first_swallower(source, rows);
    let left = is_left_over(source, rows, first);
    let count = rows.len() / RECORD_WORDS;
    let mut n = Counted {
        findings: 0,
        errors: 0,
    };
    for p in 0..count {
        n = laying::lay(findings, n, list_told(list, p));
        n = laying::lay(findings, n, row_told(source, rows, first, left, p));
    }
    n
}
