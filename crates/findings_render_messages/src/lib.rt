// What is said of each finding, in one table: a message, a help, a note. How a finding reads as a whole is for crate `findings_render`.
#![tactic(auto)]

ghost use Rattle.std.specs.Prelude.{◌≡◌, true, ◌&&◌, [], ◌∷◌, ◌≤◌, ◌<◌, length, drop};
ghost use Rattle.laws.specs.Texts.{begins};
ghost use Rattle.laws.specs.Quoted.{one_of};
ghost use Rattle.findings_render_parts.specs.Laid.{Laid};
ghost use Rattle.findings_render_messages.specs.Messages.{table, behind, piece_of, letter_of, variant_of, code_of, key_of, inserted, filled, text_of, is_told};

use byte_runs::{begins_with, find};
use findings_render_parts::characters::{part, put_shown};
use findings_render_parts::laying::put_byte;
use findings_render_parts::numbers::{digit_byte, hex_count, put_digits, put_number};

// A finding's words, and its places as far as the text goes.
#[derive(Clone, Copy)]
pub struct ToldFinding {
    pub severity: u32,
    pub code: u32,
    pub detail: u32,
    pub start: usize,
    pub end: usize,
    pub from: usize,
    pub to: usize,
}

const LENGTH: usize = 2628;

// A piece for each text, ended by a zero byte: the code with its variant, `.` for the message, `?` for the help or `!` for the note at the
// second place, and the text. In it stand for: @ the place's text; & the second place's; % the detail as a number; $ as a character; * and ~
// in hexadecimal digits; < and > what stands in the place before and behind so many bytes and one more.
const TEXTS: [u8; LENGTH] = *b"\
    E010.unexpected character in `@`\0\
    E020.this text is not closed: a `\"` is missing\0\
    E022.this text goes on over the line's end: is its closing quote missing?\0\
    E022!quotes are paired from the front, and this one is left over\0\
    E030.this name is not closed: a `|` is missing\0\
    E040.this comment is not closed: `|#` is missing\0\
    E050.after `\\` and blanks the line must end\0\
    E050?to write a backslash, type it twice: `\\\\`\0\
    E060.`@` is no escape\0\
    E060?to write a backslash, type it twice: `\\\\`\0\
    E070.a character is missing after `#\\`\0\
    E070?a blank is written `#\\space`\0\
    E080.a fraction cannot have 0 below the line\0\
    E090.this escape is not closed: `$` is missing\0\
    E100.no character has this name\0\
    E100?the names are alarm, backspace, delete, escape, newline, null, return, space and tab\0\
    E111.hexadecimal digits are missing here\0\
    E112.`@` is no hexadecimal digit\0\
    E112?digits are 0 to 9 and A to F; a letter can be typed as it is\0\
    E113.this number is too large for a character\0\
    E113?the largest is 10FFFF\0\
    E120.no character has this number\0\
    E120?D800 to DFFF are no characters, and 10FFFF is the last one\0\
    E130.this mark cannot stand in a character's name\0\
    E130?put a blank before it\0\
    E200.the plan has more than 4,294,967,295 bytes\0\
    E200?split it into several files\0\
    E210.byte 0x~ is not UTF-8: was the plan saved in another encoding?\0\
    E210?save it as UTF-8; nothing after this place was read\0\
    E400.this bracket is never closed\0\
    E401.% brackets are never closed; the last is this one\0\
    E402.this bracket is probably the one that is never closed\0\
    E402!this list starts no further right: is a closing bracket missing before it?\0\
    E410.this bracket closes nothing: there is one too many\0\
    E411.`@` cannot close `&`\0\
    E411!opened here\0\
    E420.a dot on its own cannot stand here\0\
    E420?it stands before the last thing of a list\0\
    E421.after this dot exactly one thing must stand before the bracket closes\0\
    E430.nothing stands after `@`\0\
    E430?remove it, or write after it what it belongs to\0\
    E440.lists lie more than 64 deep here\0\
    W010.a comma in a number makes it a name\0\
    W010?write it with a dot: <.>\0\
    W020.this begins like a number and is read as a name\0\
    W020?mend the number, or write |..| around a name that begins so\0\
    W030.this typographic quote does not begin a text\0\
    W030?type the straight quote `\"`\0\
    W040.this typographic dash is no minus sign\0\
    W040?type the hyphen `-`\0\
    W050.the invisible character U+* makes this another name\0\
    W050?remove it; a byte order mark goes if the plan is saved as UTF-8 without BOM\0\
    W060.this text goes on over the line's end and a `(`: is its closing quote missing?\0\
    W070.terminals that read in plain mode take this number for a name\0\
    W070?put a blank before the `$`\0\
";

pub const MESSAGE: u8 = b'.';

pub const HELP: u8 = b'?';

pub const NOTE: u8 = b'!';

// Severities.
pub const WARNING: u32 = 1;

const ERROR: u32 = 2;

// A warning that counts as an error.
const WARNING_AS_ERROR: u32 = 3;

// Whether a piece that begins with a key stands at a place.
fn begins_at(t: &[u8], at: usize, start: bool, key: &[u8]) -> bool
    requires { at ≤ length t.now }
    ensures { result ≡ (start && begins key.now (drop at t.now)) }
{
    start && begins_with(&t[at..], key)
}

// The place behind a key.
fn text_start(t: &[u8], key: &[u8]) -> usize
    ensures { (drop result t.now ≡ behind key.now true t.now) × (result ≤ length t.now) }
{
    let mut start = true;
    for (i, b) in t.iter().enumerate() {
        if begins_at(t, i, start, key) {
            return i + key.len();
        }
        start = *b == 0;
    }
    t.len()
}

fn piece<'a>(t: &'a [u8], key: &[u8]) -> &'a [u8]
    ensures { result.now ≡ piece_of key.now t.now }
{
    let from = text_start(t, key);
    part(t, from, find(t, from, 0))
}

fn letter(t: ToldFinding) -> u8
    ensures { result ≡ letter_of t }
{
    match t.severity {
        _ if 99 < t.code => 0,
        ERROR => b'E',
        WARNING => b'W',
        WARNING_AS_ERROR => b'W',
        _ => 0,
    }
}

fn is_by_detail(code: u32) -> bool
    ensures { result ≡ one_of (11 ∷ 41 ∷ 42 ∷ []) code }
{
    matches!(code, 11 | 41 | 42)
}

fn is_by_second(code: u32) -> bool
    ensures { result ≡ one_of (2 ∷ 40 ∷ []) code }
{
    matches!(code, 2 | 40)
}

fn variant(t: ToldFinding) -> usize
    ensures { (result ≡ variant_of t) × (result < 10) }
{
    if is_by_detail(t.code) {
        (t.detail as usize).min(9)
    } else if !is_by_second(t.code) {
        0
    } else if t.from < t.to {
        2
    } else if 1 < t.detail {
        1
    } else {
        0
    }
}

// A finding's code, as `E41`.
pub fn code_of(t: ToldFinding) -> [u8; 3]
    ensures { result ≡ code_of t }
{
    [
        letter(t),
        digit_byte((t.code / 10 % 10) as usize),
        digit_byte((t.code % 10) as usize),
    ]
}

fn key_of(t: ToldFinding, which: u8) -> [u8; 5]
    ensures { result ≡ key_of t which }
{
    let [letter, tens, ones] = code_of(t);
    [letter, tens, ones, digit_byte(variant(t)), which]
}

// What a byte of a text stands for.
fn put_inserted(
    out: &mut [u8],
    at: usize,
    quoted: bool,
    t: ToldFinding,
    source: &[u8],
    b: u8,
) -> usize
    ensures { Laid quoted (inserted t source.now b) at out.old result out.new }
{
    match b {
        b'@' => put_shown(out, at, quoted, part(source, t.start, t.end)),
        b'&' => put_shown(out, at, quoted, part(source, t.from, t.to)),
        b'%' => put_number(out, at, quoted, t.detail as usize),
        b'$' => {
            let one = [(t.detail % 256) as u8];
            put_shown(out, at, quoted, &one)
        }
        b'*' => {
            let count = hex_count(t.detail);
            put_digits(out, at, quoted, true, count, t.detail as usize)
        }
        b'~' => put_digits(out, at, quoted, true, 2, t.detail as usize),
        b'<' => {
            let place = part(source, t.start, t.end);
            put_shown(out, at, quoted, part(place, 0, t.detail as usize))
        }
        b'>' => {
            let place = part(source, t.start, t.end);
            let from = t.detail as usize + 1;
            put_shown(out, at, quoted, part(place, from, place.len()))
        }
        _ => put_byte(out, at, quoted, b),
    }
}

// A text of the table, filled in.
fn put_filled(
    out: &mut [u8],
    at: usize,
    quoted: bool,
    t: ToldFinding,
    source: &[u8],
    text: &[u8],
) -> usize
    ensures { Laid quoted (filled t source.now text.now) at out.old result out.new }
{
    let mut next = at;
    for b in text {
        next = put_inserted(out, next, quoted, t, source, *b);
    }
    next
}

// A finding's message, help or note.
pub fn put_text(
    out: &mut [u8],
    at: usize,
    quoted: bool,
    t: ToldFinding,
    source: &[u8],
    which: u8,
) -> usize
    ensures { Laid quoted (text_of t source.now which) at out.old result out.new }
{
    let texts = TEXTS;
    let key = key_of(t, which);
    put_filled(out, at, quoted, t, source, piece(&texts, &key))
}

// Whether a finding has such a text.
pub fn is_told(t: ToldFinding, which: u8) -> bool
    ensures { result ≡ is_told t which }
{
    let texts = TEXTS;
    let key = key_of(t, which);
    0 < piece(&texts, &key).len()
}
