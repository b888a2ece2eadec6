// A text as a terminal shows it, character by character.
ghost use Rattle.std.specs.Prelude.{ℕ, Bool, List, ◌≡◌, false, true, [], ◌∷◌, ◌+◌, ◌<◌, ◌≤◌, ◌-◌, length, get_or, take, drop};
ghost use Rattle.laws.specs.Quoted.{code, within};
ghost use Rattle.findings_render_parts.specs.Laid.{Laid};
ghost use Rattle.findings_render_parts.specs.declared.Seen.{Seen};
ghost use Rattle.findings_render_parts.specs.declared.Showing.TheVariants.{AsByte};
ghost use Rattle.findings_render_parts.specs.Shown.{kind_of, seen_in, by_its_number, as_its_byte, walked, shown_one, shown, columns, is_copied, under_one, under, is_nil, carets};

use crate::laying::{put, put_byte, put_run};
use crate::numbers::{hex_count, put_digits};
use crate::{Seen, Showing};
use chars::{Decoded, decode_at};

// The characters that are not one column wide: from, to, and how they are shown.
const RANGES: [(u32, u32, Showing); 33] = [
    (0x0000, 0x0008, Showing::ByNumber),
    (0x0009, 0x0009, Showing::Tab),
    (0x000A, 0x001F, Showing::ByNumber),
    (0x007F, 0x009F, Showing::ByNumber),
    (0x00AD, 0x00AD, Showing::ByNumber), // soft hyphen
    (0x0300, 0x036F, Showing::NoColumn), // combining marks
    (0x0483, 0x0489, Showing::NoColumn),
    (0x0591, 0x05BD, Showing::NoColumn),
    (0x0610, 0x061A, Showing::NoColumn),
    (0x061C, 0x061C, Showing::ByNumber), // Arabic letter mark
    (0x064B, 0x065F, Showing::NoColumn),
    (0x1100, 0x115F, Showing::TwoColumns), // hangul jamo
    (0x180E, 0x180E, Showing::ByNumber),
    (0x1AB0, 0x1AFF, Showing::NoColumn),
    (0x1DC0, 0x1DFF, Showing::NoColumn),
    (0x200B, 0x200F, Showing::ByNumber), // zero width, direction marks
    (0x2028, 0x202E, Showing::ByNumber), // separators, embeddings, overrides
    (0x2060, 0x206F, Showing::ByNumber),
    (0x20D0, 0x20FF, Showing::NoColumn),
    (0x2E80, 0x303E, Showing::TwoColumns), // ideographs, kana
    (0x3041, 0xA4CF, Showing::TwoColumns),
    (0xAC00, 0xD7A3, Showing::TwoColumns), // hangul
    (0xF900, 0xFAFF, Showing::TwoColumns),
    (0xFE00, 0xFE0F, Showing::NoColumn), // variation selectors
    (0xFE20, 0xFE2F, Showing::NoColumn),
    (0xFE30, 0xFE6F, Showing::TwoColumns),
    (0xFEFF, 0xFEFF, Showing::ByNumber), // byte order mark
    (0xFF01, 0xFF60, Showing::TwoColumns), // full-width forms
    (0xFFE0, 0xFFE6, Showing::TwoColumns),
    (0x1F300, 0x1F64F, Showing::TwoColumns), // pictures
    (0x1F680, 0x1F6FF, Showing::TwoColumns),
    (0x1F900, 0x1FAFF, Showing::TwoColumns),
    (0x20000, 0x3FFFD, Showing::TwoColumns),
];

fn is_within(c: u32, low: u32, high: u32) -> bool
    ensures { result ≡ within low high c }
{
    low <= c && c <= high
}

// How a character is shown.
fn kind_of(c: u32) -> Showing
    ensures { result ≡ kind_of c }
{
    for (low, high, kind) in RANGES.iter() {
        if is_within(c, *low, *high) {
            return *kind;
        }
    }
    Showing::OneColumn
}

// A byte of no character.
fn seen_byte(b: u8) -> Seen
    ensures { result ≡ record { size = 1; kind = AsByte; code = b } }
{
    Seen {
        size: 1,
        kind: Showing::AsByte,
        code: b as u32,
    }
}

// What stands at a place of a text.
pub fn seen_at(t: &[u8], at: usize) -> Seen
    requires { at < length t.now }
    ensures { (result ≡ seen_in (drop at t.now)) × (1 ≤ result.size) × (at + result.size ≤ length t.now) }
{
    match decode_at(t, at) {
        Decoded::Char { code, next } => Seen {
            size: next - at,
            kind: kind_of(code),
            code,
        },
        _ => seen_byte(t[at]),
    }
}

// A part of a text, as much of it as there is.
pub fn part(t: &[u8], from: usize, to: usize) -> &[u8]
    ensures { result.now ≡ take (to - from) (drop from t.now) }
{
    if t.len() < from {
        return &t[t.len()..];
    }
    if to < from {
        return &t[from..from];
    }
    if t.len() < to {
        return &t[from..];
    }
    &t[from..to]
}

// A character by its number, `<U+202E>`.
fn put_by_number(out: &mut [u8], at: usize, quoted: bool, c: u32) -> usize
    ensures { Laid quoted (by_its_number c) at out.old result out.new }
{
    let begun = put(out, at, quoted, b"<U+");
    let told = put_digits(out, begun, quoted, true, hex_count(c), c as usize);
    put(out, told, quoted, b">")
}

// A byte of no character, `<E5>`.
fn put_as_byte(out: &mut [u8], at: usize, quoted: bool, b: u32) -> usize
    ensures { Laid quoted (as_its_byte b) at out.old result out.new }
{
    let begun = put(out, at, quoted, b"<");
    let told = put_digits(out, begun, quoted, true, 2, b as usize);
    put(out, told, quoted, b">")
}

// What is laid of each character of a text, and of each byte of none.
pub trait Walker: Copy {
    // Whether the bytes stand in a string of JSON.
    ghost quoted: { Self → Bool };

    // The bytes of what stands at the front of a text.
    ghost made: { Self → Seen → List ℕ → List ℕ };

    fn put_one(self, out: &mut [u8], at: usize, u: Seen, t: &[u8]) -> usize
        ensures { Laid (quoted self) (made self u t.now) at out.old result out.new };
}

// A text, character by character.
pub fn put_walked<W: Walker>(out: &mut [u8], at: usize, t: &[u8], walker: W) -> usize
    ensures { Laid (W.quoted walker) (walked (W.made walker) 0 t.now) at out.old result out.new }
{
    let mut next = at;
    let mut i = 0;
    while i < t.len() {
        let u = seen_at(t, i);
        next = walker.put_one(out, next, u, &t[i..]);
        i += u.size;
    }
    next
}

// Each character as it is shown.
#[derive(Clone, Copy)]
struct AsShown {
    quoted: bool,
}

impl Walker for AsShown {
    ghost quoted = { λ s. s.quoted };

    ghost made = { λ s u t. shown_one u t };

    fn put_one(self, out: &mut [u8], at: usize, u: Seen, t: &[u8]) -> usize {
        match u.kind {
            Showing::ByNumber => put_by_number(out, at, self.quoted, u.code),
            Showing::AsByte => put_as_byte(out, at, self.quoted, u.code),
            _ => put(out, at, self.quoted, part(t, 0, u.size)),
        }
    }
}

// A text as it is shown.
pub fn put_shown(out: &mut [u8], at: usize, quoted: bool, t: &[u8]) -> usize
    ensures { Laid quoted (shown t.now) at out.old result out.new }
{
    put_walked(out, at, t, AsShown { quoted })
}

fn columns_of(u: Seen) -> usize
    ensures { result ≡ columns u }
{
    match u.kind {
        Showing::NoColumn => 0,
        Showing::OneColumn => 1,
        Showing::TwoColumns => 2,
        Showing::Tab => 1,
        Showing::ByNumber => 4 + hex_count(u.code),
        Showing::AsByte => 4,
    }
}

// Whether a character is copied where the mark would stand.
fn is_copied(mark: u8, kind: Showing) -> bool
    ensures { result ≡ is_copied mark kind }
{
    mark == b' ' && matches!(kind, Showing::Tab)
}

// What stands under each character.
#[derive(Clone, Copy)]
struct Under {
    mark: u8,
}

impl Walker for Under {
    ghost quoted = { λ s. false };

    ghost made = { λ s u t. under_one s.mark u t };

    fn put_one(self, out: &mut [u8], at: usize, u: Seen, t: &[u8]) -> usize {
        if is_copied(self.mark, u.kind) {
            return put_byte(out, at, false, b'\t');
        }
        put_run(out, at, false, self.mark, columns_of(u))
    }
}

// What stands under a text.
pub fn put_under(out: &mut [u8], at: usize, mark: u8, t: &[u8]) -> usize
    ensures { Laid false (under mark t.now) at out.old result out.new }
{
    put_walked(out, at, t, Under { mark })
}

// Whether a text takes no column.
fn is_flat(t: &[u8]) -> bool
    ensures { result ≡ is_nil (under (code "^") t.now) }
{
    let mut i = 0;
    while i < t.len() {
        let u = seen_at(t, i);
        if 0 < columns_of(u) {
            return false;
        }
        i += u.size;
    }
    true
}

// The carets under a text, one at least.
pub fn put_carets(out: &mut [u8], at: usize, t: &[u8]) -> usize
    ensures { Laid false (carets t.now) at out.old result out.new }
{
    if is_flat(t) {
        return put(out, at, false, b"^");
    }
    put_under(out, at, b'^', t)
}
