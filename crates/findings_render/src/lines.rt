// A finding's lines: the headline, its picture and help, and the note at the second place.
ghost use Rattle.std.specs.Prelude.{◌≡◌, ◌++◌, false, if◌then◌else◌};
ghost use Rattle.findings_render_parts.specs.Laid.{Laid, marked};
ghost use Rattle.findings_render_messages.specs.Messages.{text_of};
ghost use Rattle.findings_render_parts.specs.Spots.{IsPlace};
ghost use Rattle.findings_render.specs.Rendered.{only_if, is_error, red, magenta, spot, severity_word, severity, headline, help, note, body, lines, picture};

use crate::picture::{put_if, put_picture};
use findings_render_messages::{
    HELP, MESSAGE, NOTE, ToldFinding, WARNING, code_of, is_told, put_text,
};
use findings_render_parts::laying::put;
use findings_render_parts::numbers::put_number;
use findings_render_parts::places::{column_number, line_number};

// `NAME:LINE:COLUMN: `
fn put_spot(out: &mut [u8], at: usize, name: &[u8], s: &[u8], p: usize) -> usize
    requires { IsPlace s.now p }
    ensures { Laid false (spot name.now s.now p) at out.old result out.new }
{
    let named = put(out, at, false, name);
    let first = put(out, named, false, b":");
    let lined = put_number(out, first, false, line_number(s, p));
    let second = put(out, lined, false, b":");
    let placed = put_number(out, second, false, column_number(s, p));
    put(out, placed, false, b": ")
}

// `error` or `warning`.
pub fn put_severity_word(out: &mut [u8], at: usize, t: ToldFinding) -> usize
    ensures { Laid false (severity_word t) at out.old result out.new }
{
    if WARNING < t.severity {
        put(out, at, false, b"error")
    } else {
        put(out, at, false, b"warning")
    }
}

fn put_paint(out: &mut [u8], at: usize, colour: bool, t: ToldFinding) -> usize
    ensures { Laid false (only_if colour (if is_error t then red else magenta)) at out.old result out.new }
{
    if WARNING < t.severity {
        put_if(out, at, colour, b"\x1b[1;31m")
    } else {
        put_if(out, at, colour, b"\x1b[1;35m")
    }
}

fn put_severity(out: &mut [u8], at: usize, colour: bool, t: ToldFinding) -> usize
    ensures { Laid false (severity colour t) at out.old result out.new }
{
    let painted = put_paint(out, at, colour, t);
    let worded = put_severity_word(out, painted, t);
    let ended = put(out, worded, false, b": ");
    put_if(out, ended, colour, b"\x1b[0m")
}

fn put_headline(
    out: &mut [u8],
    at: usize,
    colour: bool,
    t: ToldFinding,
    s: &[u8],
    name: &[u8],
) -> usize
    requires { IsPlace s.now t.start }
    ensures { Laid false (headline colour t s.now name.now) at out.old result out.new }
{
    let placed = put_spot(out, at, name, s, t.start);
    let weighed = put_severity(out, placed, colour, t);
    let worded = put_text(out, weighed, false, t, s, MESSAGE);
    let opened = put(out, worded, false, b" [");
    let code = code_of(t);
    let coded = put(out, opened, false, &code);
    put(out, coded, false, b"]\n")
}

// A finding's message, help or note between two texts.
pub fn put_told(
    out: &mut [u8],
    at: usize,
    quoted: bool,
    t: ToldFinding,
    s: &[u8],
    before: &[u8],
    which: u8,
    after: &[u8],
) -> usize
    ensures { Laid false (before.now ++ (marked quoted (text_of t s.now which) ++ after.now)) at out.old result out.new }
{
    let begun = put(out, at, false, before);
    let worded = put_text(out, begun, quoted, t, s, which);
    put(out, worded, false, after)
}

fn put_help(out: &mut [u8], at: usize, t: ToldFinding, s: &[u8]) -> usize
    ensures { Laid false (help t s.now) at out.old result out.new }
{
    if !is_told(t, HELP) {
        return at;
    }
    put_told(out, at, false, t, s, b"      = help: ", HELP, b"\n")
}

fn put_picture_if(
    out: &mut [u8],
    at: usize,
    full: bool,
    colour: bool,
    s: &[u8],
    p: usize,
    q: usize,
) -> usize
    requires { IsPlace s.now p }
    ensures { Laid false (only_if full (picture colour s.now p q)) at out.old result out.new }
{
    if full {
        put_picture(out, at, colour, s, p, q)
    } else {
        at
    }
}

fn put_note(
    out: &mut [u8],
    at: usize,
    full: bool,
    colour: bool,
    t: ToldFinding,
    s: &[u8],
    name: &[u8],
) -> usize
    requires { IsPlace s.now t.from }
    ensures { Laid false (note full colour t s.now name.now) at out.old result out.new }
{
    if !is_told(t, NOTE) {
        return at;
    }
    let placed = put_spot(out, at, name, s, t.from);
    let told = put_told(out, placed, false, t, s, b"note: ", NOTE, b"\n");
    put_picture_if(out, told, full, colour, s, t.from, t.to)
}

// What stands under the headline, in full.
fn put_body_if(
    out: &mut [u8],
    at: usize,
    full: bool,
    colour: bool,
    t: ToldFinding,
    s: &[u8],
) -> usize
    requires { IsPlace s.now t.start }
    ensures { Laid false (only_if full (body colour t s.now)) at out.old result out.new }
{
    if !full {
        return at;
    }
    let pictured = put_picture(out, at, colour, s, t.start, t.end);
    put_help(out, pictured, t, s)
}

// A finding's lines, in full or brief.
pub fn put_lines(
    out: &mut [u8],
    at: usize,
    full: bool,
    colour: bool,
    t: ToldFinding,
    s: &[u8],
    name: &[u8],
) -> usize
    requires { IsPlace s.now t.start × IsPlace s.now t.from }
    ensures { Laid false (lines full colour t s.now name.now) at out.old result out.new }
{
    let headed = put_headline(out, at, colour, t, s, name);
    let told = put_body_if(out, headed, full, colour, t, s);
    put_note(out, told, full, colour, t, s, name)
}
