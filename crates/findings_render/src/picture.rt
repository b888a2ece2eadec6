// The line of a place with carets under it.
ghost use Rattle.std.specs.Prelude.{false};
ghost use Rattle.findings_render_parts.specs.Laid.{Laid};
ghost use Rattle.findings_render_parts.specs.Spots.{IsPlace};
ghost use Rattle.findings_render.specs.Rendered.{only_if, line_of, under_line, picture};

use findings_render_parts::Window;
use findings_render_parts::characters::{part, put_carets, put_shown, put_under};
use findings_render_parts::laying::put;
use findings_render_parts::numbers::put_aligned;
use findings_render_parts::places::{line_number, window};

// A text, or nothing.
pub fn put_if(out: &mut [u8], at: usize, there: bool, text: &[u8]) -> usize
    ensures { Laid false (only_if there text.now) at out.old result out.new }
{
    if there { put(out, at, false, text) } else { at }
}

// The line, with its number.
fn put_line(out: &mut [u8], at: usize, s: &[u8], w: Window, n: usize) -> usize
    ensures { Laid false (line_of s.now w n) at out.old result out.new }
{
    let numbered = put_aligned(out, at, n);
    let barred = put(out, numbered, false, b" | ");
    let begun = put_if(out, barred, w.from != w.start, b"...");
    let shown = put_shown(out, begun, false, part(s, w.from, w.to));
    let ended = put_if(out, shown, w.to != w.end, b"...");
    put(out, ended, false, b"\n")
}

// What stands under it.
fn put_under_line(
    out: &mut [u8],
    at: usize,
    colour: bool,
    s: &[u8],
    w: Window,
    p: usize,
    q: usize,
) -> usize
    ensures { Laid false (under_line colour s.now w p q) at out.old result out.new }
{
    let barred = put(out, at, false, b"      | ");
    let begun = put_if(out, barred, w.from != w.start, b"   ");
    let under = put_under(out, begun, b' ', part(s, w.from, p));
    let painted = put_if(out, under, colour, b"\x1b[1;32m");
    let marked = put_carets(out, painted, part(s, p, q.min(w.to)));
    let ended = put_if(out, marked, colour, b"\x1b[0m");
    put(out, ended, false, b"\n")
}

// Both, for a place.
pub fn put_picture(out: &mut [u8], at: usize, colour: bool, s: &[u8], p: usize, q: usize) -> usize
    requires { IsPlace s.now p }
    ensures { Laid false (picture colour s.now p q) at out.old result out.new }
{
    let w = window(s, p);
    let lined = put_line(out, at, s, w, line_number(s, p));
    put_under_line(out, lined, colour, s, w, p, q)
}
