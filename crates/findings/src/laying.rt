// Findings in lent memory: counted, and written as long as there is room.
ghost use Rattle.std.specs.Prelude.{◌≡◌, ◌*◌, ◌≤◌, ◌<◌, ◌^◌, length};
ghost use Rattle.laws.specs.Lent.{written};
ghost use Rattle.findings_rows.specs.Laid.{laid_at};
ghost use Rattle.findings.specs.Finding.{finding_words, words_of, listed};
ghost use Rattle.findings.specs.Laid.{count_on, laid_behind, telling};

use crate::codes::{ERROR, FINDING_WORDS};
use crate::{Counted, Finding};

// A finding at the start of lent memory.
fn put(out: &mut [u32], f: Finding)
    requires { finding_words ≤ length out.old }
    ensures { out.new ≡ written (words_of f) out.old }
{
    out[0] = f.severity;
    out[1] = f.code;
    out[2] = f.detail;
    out[3] = f.start;
    out[4] = f.end;
    out[5] = f.also;
    out[6] = f.past;
}

// A finding behind n others, if it fits.
fn lay_one(findings: &mut [u32], n: usize, f: Finding)
    ensures { findings.new ≡ laid_at (n * finding_words) (words_of f) findings.old }
{
    if n < findings.len() / FINDING_WORDS {
        let at = n * FINDING_WORDS;
        put(&mut findings[at..], f);
    }
}

// What a row tells, behind what was told before.
pub fn lay(findings: &mut [u32], n: Counted, t: Option<Finding>) -> Counted
    requires { (n.findings < 2 ^ 62) × (n.errors ≤ n.findings) }
    ensures { telling result findings.new ≡ telling (count_on n (listed t)) (laid_behind n.findings (listed t) findings.old) }
{
    match t {
        None => Counted {
            findings: n.findings,
            errors: n.errors,
        },
        Some(f) => {
            lay_one(findings, n.findings, f);
            if f.severity == ERROR {
                return Counted {
                    findings: n.findings + 1,
                    errors: n.errors + 1,
                };
            }
            Counted {
                findings: n.findings + 1,
                errors: n.errors,
            }
        }
    }
}
