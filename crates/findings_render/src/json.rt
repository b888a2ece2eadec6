// A finding as an object of JSON.
ghost use Rattle.std.specs.Prelude.{false};
ghost use Rattle.findings_render_parts.specs.Laid.{Laid};
ghost use Rattle.findings_render_parts.specs.Spots.{IsPlace};
ghost use Rattle.findings_render.specs.Json.{name_one, name_string, spot_fields, byte_fields, place_fields, word_fields, help_field, see_field, json};

use crate::lines::{put_severity_word, put_told};
use findings_render_messages::{HELP, MESSAGE, NOTE, ToldFinding, code_of, is_told};
use findings_render_parts::characters::{Walker, part, put_walked};
use findings_render_parts::laying::put;
use findings_render_parts::numbers::{put_digits, put_number};
use findings_render_parts::places::{column_number, line_number};
use findings_render_parts::{Seen, Showing};

const CONTROL_END: u32 = 0x20;

// Each character of a file's name, or byte of none.
#[derive(Clone, Copy)]
struct Name;

impl Walker for Name {
    ghost quoted = { λ s. false };

    ghost made = { λ s u t. name_one u t };

    fn put_one(self, out: &mut [u8], at: usize, u: Seen, t: &[u8]) -> usize {
        match u.kind {
            Showing::AsByte => put(out, at, false, b"\\ufffd"),
            _ if u.code < CONTROL_END => {
                let begun = put(out, at, false, b"\\u00");
                put_digits(out, begun, false, true, 2, u.code as usize)
            }
            _ => put(out, at, true, part(t, 0, u.size)),
        }
    }
}

fn put_name(out: &mut [u8], at: usize, t: &[u8]) -> usize
    ensures { Laid false (name_string t.now) at out.old result out.new }
{
    put_walked(out, at, t, Name)
}

fn put_spot_fields(
    out: &mut [u8],
    at: usize,
    line: &[u8],
    column: &[u8],
    s: &[u8],
    p: usize,
) -> usize
    requires { IsPlace s.now p }
    ensures { Laid false (spot_fields line.now column.now s.now p) at out.old result out.new }
{
    let first = put(out, at, false, line);
    let lined = put_number(out, first, false, line_number(s, p));
    let second = put(out, lined, false, column);
    put_number(out, second, false, column_number(s, p))
}

fn put_byte_fields(out: &mut [u8], at: usize, p: usize, q: usize) -> usize
    ensures { Laid false (byte_fields p q) at out.old result out.new }
{
    let first = put(out, at, false, b",\"byte\":");
    let begun = put_number(out, first, false, p);
    let second = put(out, begun, false, b",\"end_byte\":");
    put_number(out, second, false, q)
}

fn put_place_fields(out: &mut [u8], at: usize, t: ToldFinding, s: &[u8]) -> usize
    requires { IsPlace s.now t.start × IsPlace s.now t.end }
    ensures { Laid false (place_fields t s.now) at out.old result out.new }
{
    let begun = put_spot_fields(out, at, b"\",\"line\":", b",\"column\":", s, t.start);
    let ended = put_spot_fields(out, begun, b",\"end_line\":", b",\"end_column\":", s, t.end);
    put_byte_fields(out, ended, t.start, t.end)
}

fn put_word_fields(out: &mut [u8], at: usize, t: ToldFinding, s: &[u8]) -> usize
    ensures { Laid false (word_fields t s.now) at out.old result out.new }
{
    let first = put(out, at, false, b",\"severity\":\"");
    let weighed = put_severity_word(out, first, t);
    let second = put(out, weighed, false, b"\",\"code\":\"");
    let code = code_of(t);
    let coded = put(out, second, false, &code);
    put_told(out, coded, true, t, s, b"\",\"message\":\"", MESSAGE, b"\"")
}

fn put_help_field(out: &mut [u8], at: usize, t: ToldFinding, s: &[u8]) -> usize
    ensures { Laid false (help_field t s.now) at out.old result out.new }
{
    if !is_told(t, HELP) {
        return put(out, at, false, b",\"help\":null");
    }
    put_told(out, at, true, t, s, b",\"help\":\"", HELP, b"\"")
}

fn put_see_field(out: &mut [u8], at: usize, t: ToldFinding, s: &[u8]) -> usize
    requires { IsPlace s.now t.from }
    ensures { Laid false (see_field t s.now) at out.old result out.new }
{
    if !is_told(t, NOTE) {
        return put(out, at, false, b",\"see\":null");
    }
    let placed = put_spot_fields(out, at, b",\"see\":{\"line\":", b",\"column\":", s, t.from);
    let counted = put_byte_fields(out, placed, t.from, t.to);
    put_told(out, counted, true, t, s, b",\"message\":\"", NOTE, b"\"}")
}

// A finding as an object of JSON.
pub fn put_json(out: &mut [u8], at: usize, t: ToldFinding, s: &[u8], name: &[u8]) -> usize
    requires place { IsPlace s.now t.start × IsPlace s.now t.end }
    requires place_2 { IsPlace s.now t.from }
    ensures { Laid false (json t s.now name.now) at out.old result out.new }
{
    let begun = put(out, at, false, b"{\"file\":\"");
    let named = put_name(out, begun, name);
    let placed = put_place_fields(out, named, t, s);
    let worded = put_word_fields(out, placed, t, s);
    let helped = put_help_field(out, worded, t, s);
    let seen = put_see_field(out, helped, t, s);
    put(out, seen, false, b"}\n")
}
