// The findings of a plan.
ghost use Rattle.std.specs.Prelude.{◌≡◌, [], ◌∷◌, ◌≤◌};
ghost use Rattle.items.specs.Whole.{limit};
ghost use Rattle.findings_rows.specs.Laid.{flat};
ghost use Rattle.findings_rows.specs.Rows.{rows_of};
ghost use Rattle.findings.specs.Told.{told_of};
ghost use Rattle.findings.specs.Find.{not_utf8, outcome, delivered, call_of};

use crate::codes::{ERROR, NO_FINDING_DETAIL, NOWHERE};
use crate::telling::tell;
use crate::{Counted, Finding, TooFew, laying, rows};
use chars::first_bad;
use items::RECORD_WORDS;
use refusal::{LIMIT, NOT_UTF8, TOO_LONG};

// A finding that is the only one.
fn alone(rows: &[u32], findings: &mut [u32], f: Finding) -> Result<Counted, TooFew>
    ensures { outcome result rows.now findings.new ≡ delivered (f ∷ []) [] rows.now findings.old }
{
    let none = Counted {
        findings: 0,
        errors: 0,
    };
    Ok(laying::lay(findings, none, Some(f)))
}

// E21: a bad sequence starts at b.
fn not_utf8(source: &[u8], b: usize) -> Finding
    requires { b ≤ limit }
    ensures { result ≡ not_utf8 source.now b }
{
    let byte = rows::byte_at(source, b);
    Finding {
        severity: ERROR,
        code: NOT_UTF8,
        detail: byte as u32,
        start: b as u32,
        end: b as u32,
        also: NOWHERE,
        past: NOWHERE,
    }
}

// The findings of a text that is UTF-8 and not too long.
fn find_good(source: &[u8], rows: &mut [u32], findings: &mut [u32]) -> Result<Counted, TooFew>
    ensures { outcome result rows.new findings.new
        ≡ delivered (told_of source.now (flat (rows_of source.now))) (rows_of source.now) rows.old findings.old }
{
    let count = findings_rows::rows(source, rows);
    if rows.len() / RECORD_WORDS < count {
        return Err(TooFew { rows: count });
    }
    let end = count * RECORD_WORDS;
    Ok(tell(source, &rows[..end], findings))
}

// The findings of a plan: how many there are, and how many of them are errors; those that fit are written from the start of `findings`.
// `rows` is lent as working memory, and holds the plan's rows afterwards.
pub fn find(source: &[u8], rows: &mut [u32], findings: &mut [u32]) -> Result<Counted, TooFew>
    ensures { outcome result rows.new findings.new ≡ call_of source.now rows.old findings.old }
{
    if LIMIT < source.len() {
        let f = Finding {
            severity: ERROR,
            code: TOO_LONG,
            detail: NO_FINDING_DETAIL,
            start: 0,
            end: 0,
            also: NOWHERE,
            past: NOWHERE,
        };
        return alone(rows, findings, f);
    }
    match first_bad(source) {
        None => find_good(source, rows, findings),
        Some(b) => alone(rows, findings, not_utf8(source, b)),
    }
}
