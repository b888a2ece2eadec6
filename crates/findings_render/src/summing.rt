// The last lines of a file.
ghost use Rattle.std.specs.Prelude.{◌≡◌, false};
ghost use Rattle.findings_render_parts.specs.Laid.{Laid, counted, over};
ghost use Rattle.findings_render.specs.Summed.{count_of, counts, more, last, summed};

use crate::JSON;
use crate::picture::put_if;
use findings_render_parts::laying::put;
use findings_render_parts::numbers::put_number;

// `1 error`, `2 errors`
fn put_count(out: &mut [u8], at: usize, n: usize, word: &[u8]) -> usize
    ensures { Laid false (count_of n word.now) at out.old result out.new }
{
    let counted = put_number(out, at, false, n);
    let worded = put(out, counted, false, word);
    put_if(out, worded, n != 1, b"s")
}

fn put_counts(out: &mut [u8], at: usize, findings: usize, errors: usize) -> usize
    ensures { Laid false (counts findings errors) at out.old result out.new }
{
    if findings == 0 {
        return put(out, at, false, b"ok");
    }
    let first = put_count(out, at, errors, b" error");
    let parted = put(out, first, false, b", ");
    put_count(out, parted, findings.saturating_sub(errors), b" warning")
}

fn put_more(out: &mut [u8], at: usize, name: &[u8], findings: usize, told: usize) -> usize
    ensures { Laid false (more name.now findings told) at out.old result out.new }
{
    if findings <= told {
        return at;
    }
    let named = put(out, at, false, name);
    let parted = put(out, named, false, b": ");
    let counted = put_number(out, parted, false, findings.saturating_sub(told));
    put(out, counted, false, b" more\n")
}

fn put_last(out: &mut [u8], at: usize, name: &[u8], findings: usize, errors: usize) -> usize
    ensures { Laid false (last name.now findings errors) at out.old result out.new }
{
    let named = put(out, at, false, name);
    let parted = put(out, named, false, b": ");
    let counted = put_counts(out, parted, findings, errors);
    put(out, counted, false, b"\n")
}

// The last lines of a file of which so many findings were told, from the start of `out` on, as many bytes as fit; answers how many there are.
pub fn summary(
    name: &[u8],
    findings: usize,
    errors: usize,
    told: usize,
    style: u32,
    out: &mut [u8],
) -> usize
    ensures { (result ≡ counted (summed name.now findings errors told style))
        × (out.new ≡ over (summed name.now findings errors told style) out.old) }
{
    // JSON is the first style that has no last lines.
    if JSON <= style {
        return 0;
    }
    let left = put_more(out, 0, name, findings, told);
    put_last(out, left, name, findings, errors)
}
