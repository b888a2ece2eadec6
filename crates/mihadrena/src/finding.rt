// The call that finds what is wrong in a plan.
ghost use Rattle.std.specs.Prelude.{◌≡◌};
ghost use Rattle.findings_exports.specs.Told.{left_behind, find_left};

// Finds what a foreman can act on in a plan. The findings, seven words each, are written from the front of `findings` on, as many whole ones
// as fit; `values` gets how many there are and how many of them are errors. `records` is working memory and holds the plan's rows, ten words
// each, as many as fit; where not all do, the answer is 22, `values` gets how many there are and 0, and `findings` stays as it was. A text
// that is too long or not UTF-8 has one finding that says so. Where there is no room for both values they are left as they were.
#[unsafe(no_mangle)]
pub extern "C" fn mihadrena_find(
    source: &[u8],
    records: &mut [u32],
    findings: &mut [u32],
    values: &mut [u64],
) -> u32
    ensures { left_behind result records.new findings.new values.new
        ≡ find_left source.now records.old findings.old values.old }
{
    findings_exports::mihadrena_find(source, records, findings, values)
}
