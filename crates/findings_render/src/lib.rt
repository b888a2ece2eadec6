// What a person sees of a finding: its bytes, laid into lent memory as far as they fit, with the count of all of them. Reads the seven words of
// a finding, the text that it was found in and the name that the text goes by; what is found is for others.
#![tactic(auto)]

ghost use Rattle.std.specs.Prelude.{◌≡◌, false, get_or};
ghost use Rattle.findings_render_parts.specs.Laid.{Laid, counted, over};
ghost use Rattle.findings_render_parts.specs.Spots.{IsPlace};
ghost use Rattle.findings_render_messages.specs.Messages.{cut, told_of};
ghost use Rattle.findings_render.specs.Called.{in_style, rendered};

use crate::json::put_json;
use crate::lines::put_lines;
use findings_render_messages::{MESSAGE, ToldFinding, is_told};

mod json;
mod lines;
mod picture;
mod summing;

pub use summing::summary;

// Styles: with a picture and help; the headline and the note alone; an object of JSON.
pub const FULL: u32 = 0;

pub const BRIEF: u32 = 1;

pub const JSON: u32 = 2;

// A word of a finding; 0 where there is none.
fn word(finding: &[u32], k: usize) -> u32
    ensures { result ≡ get_or finding.now k 0 }
{
    finding.get(k).copied().unwrap_or(0)
}

// A place, or the text's end.
fn or_end(s: &[u8], place: u32) -> usize
    ensures { (result ≡ cut s.now place) × IsPlace s.now result }
{
    s.len().min(place as usize)
}

fn read_words(finding: &[u32], s: &[u8]) -> ToldFinding
    ensures { (result ≡ told_of finding.now s.now)
        × IsPlace s.now result.start
        × IsPlace s.now result.end
        × IsPlace s.now result.from }
{
    ToldFinding {
        severity: word(finding, 0),
        code: word(finding, 1),
        detail: word(finding, 2),
        start: or_end(s, word(finding, 3)),
        end: or_end(s, word(finding, 4)),
        from: or_end(s, word(finding, 5)),
        to: or_end(s, word(finding, 6)),
    }
}

fn put_style(
    out: &mut [u8],
    style: u32,
    colour: bool,
    t: ToldFinding,
    s: &[u8],
    name: &[u8],
) -> usize
    requires place { IsPlace s.now t.start × IsPlace s.now t.end }
    requires place_2 { IsPlace s.now t.from }
    ensures { Laid false (in_style style colour t s.now name.now) 0 out.old result out.new }
{
    match style {
        FULL => put_lines(out, 0, true, colour, t, s, name),
        BRIEF => put_lines(out, 0, false, colour, t, s, name),
        JSON => put_json(out, 0, t, s, name),
        _ => 0,
    }
}

// A finding's bytes, from the start of `out` on, as many as fit; answers how many there are.
pub fn render(
    finding: &[u32],
    source: &[u8],
    name: &[u8],
    style: u32,
    colour: bool,
    out: &mut [u8],
) -> usize
    ensures { (result ≡ counted (rendered finding.now source.now name.now style colour))
        × (out.new ≡ over (rendered finding.now source.now name.now style colour) out.old) }
{
    let t = read_words(finding, source);
    if !is_told(t, MESSAGE) {
        return 0;
    }
    put_style(out, style, colour, t, source, name)
}
