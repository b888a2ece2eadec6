// The calls that write findings out.
ghost use Rattle.std.specs.Prelude.{◌≡◌};
ghost use Rattle.findings_render_parts.specs.Laid.{counted, over};
ghost use Rattle.findings_render.specs.Called.{rendered};
ghost use Rattle.findings_render.specs.Summed.{summed};

// A finding's bytes, from the front of `out` on, as many as fit; answers how many there are.
#[unsafe(no_mangle)]
pub extern "C" fn mihadrena_render(
    finding: &[u32],
    source: &[u8],
    name: &[u8],
    style: u32,
    colour: bool,
    out: &mut [u8],
) -> usize
    ensures { (result ≡ counted (rendered finding.now source.now name.now style colour))
        × (out.new ≡ over (rendered finding.now source.now name.now style colour) out.old) }
{
    findings_render_exports::mihadrena_render(finding, source, name, style, colour, out)
}

// The last lines of a file of which so many findings were told, in the same way.
#[unsafe(no_mangle)]
pub extern "C" fn mihadrena_summary(
    name: &[u8],
    findings: usize,
    errors: usize,
    told: usize,
    style: u32,
    out: &mut [u8],
) -> usize
    ensures { (result ≡ counted (summed name.now findings errors told style))
        × (out.new ≡ over (summed name.now findings errors told style) out.old) }
{
    findings_render_exports::mihadrena_summary(name, findings, errors, told, style, out)
}
