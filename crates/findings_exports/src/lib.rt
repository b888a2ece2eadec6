// The call of the crate `findings` for programs in C and Rust: its answer as a number and two values.
#![tactic(auto)]

ghost use Rattle.std.specs.Prelude.{◌≡◌};
ghost use Rattle.chars.specs.Encode.{lay};
ghost use Rattle.findings_exports.specs.Told.{number_in, values_in, left_behind, find_left};

use exports_values::put_values;
use findings::{Counted, TooFew};
use refusal::{SERVED, TOO_FEW};

// An answer told: its values go to the lent memory, and its number back.
fn tell(a: Result<Counted, TooFew>, values: &mut [u64]) -> u32
    ensures { (result ≡ number_in a) × (values.new ≡ lay (values_in a) values.old) }
{
    match a {
        Ok(n) => {
            put_values(values, n.findings as u64, n.errors as u64);
            SERVED
        }
        Err(few) => {
            put_values(values, few.rows as u64, 0);
            TOO_FEW
        }
    }
}

// Finds what a foreman can act on in a plan. The findings, seven words each, are written from the front of `findings` on, as many whole ones
// as fit; `values` gets how many there are and how many of them are errors. `records` is working memory and holds the plan's rows, ten words
// each, as many as fit; where not all do, the answer is 22, `values` gets how many there are and 0, and `findings` stays as it was. A text
// that is too long or not UTF-8 has one finding that says so. Where there is no room for both values they are left as they were.
pub fn mihadrena_find(
    source: &[u8],
    records: &mut [u32],
    findings: &mut [u32],
    values: &mut [u64],
) -> u32
    ensures { left_behind result records.new findings.new values.new
        ≡ find_left source.now records.old findings.old values.old }
{
    let a = findings::find(source, records, findings);
    tell(a, values)
}
