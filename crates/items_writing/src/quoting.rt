// Texts as they are written: as they are, or in quotes or vertical lines, with a backslash before a backslash and before the closing mark and
// no other escape.
ghost use Rattle.std.specs.Prelude.{◌≡◌, ◌*◌, ◌≤◌, length};
ghost use Rattle.laws.specs.Lent.{written};
ghost use Rattle.refusal.specs.Refusals as refusal;
ghost use Rattle.items.specs.Classes.{delim_of};
ghost use Rattle.items_writing.specs.Pieces.{is_marked, escaped_byte, escaped_by, quoted_by, lone, shown};

use items::Quotes;

fn closing(k: Quotes) -> u8
    ensures { result ≡ delim_of k }
{
    match k {
        Quotes::Double => b'"',
        Quotes::Lines => b'|',
    }
}

// Whether a backslash stands before a byte.
fn is_marked(b: u8, mark: u8) -> bool
    ensures { result ≡ is_marked mark b }
{
    b == mark || b == b'\\'
}

// How many bytes a byte takes.
fn byte_length(b: u8, mark: u8) -> usize
    ensures { result ≡ length (escaped_byte mark b) }
{
    if is_marked(b, mark) {
        return 2;
    }
    1
}

// A byte, with a backslash where there is one, from the memory's start on.
fn put_byte(b: u8, mark: u8, out: &mut [u8]) -> usize
    requires { length (escaped_byte mark b) ≤ length out.old }
    ensures { (result ≡ length (escaped_byte mark b)) × (out.new ≡ written (escaped_byte mark b) out.old) }
{
    if is_marked(b, mark) {
        out[0] = b'\\';
        out[1] = b;
        return 2;
    }
    out[0] = b;
    1
}

// How many bytes a text between marks takes.
fn escaped_length(t: &[u8], mark: u8) -> usize
    requires { length t.now ≤ refusal.limit }
    ensures { (result ≡ length (escaped_by mark t.now)) × (result ≤ 2 * refusal.limit) }
{
    let mut n: usize = 0;
    for b in t {
        n += byte_length(*b, mark);
    }
    n
}

fn put_escaped(t: &[u8], mark: u8, out: &mut [u8]) -> usize
    requires { length (escaped_by mark t.now) ≤ length out.old }
    ensures { (result ≡ length (escaped_by mark t.now)) × (out.new ≡ written (escaped_by mark t.now) out.old) }
{
    let mut n: usize = 0;
    for b in t {
        n += put_byte(*b, mark, &mut out[n..]);
    }
    n
}

// How many bytes one byte takes that is there or not.
pub fn lone_length(there: bool, b: u8) -> usize
    ensures { result ≡ length (lone there b) }
{
    if there {
        return 1;
    }
    0
}

// One byte, if it is there.
pub fn put_lone(there: bool, b: u8, out: &mut [u8]) -> usize
    requires { length (lone there b) ≤ length out.old }
    ensures { (result ≡ length (lone there b)) × (out.new ≡ written (lone there b) out.old) }
{
    if there {
        out[0] = b;
        return 1;
    }
    0
}

// A text between marks.
fn put_quoted(t: &[u8], mark: u8, out: &mut [u8]) -> usize
    requires { length (quoted_by mark t.now) ≤ length out.old }
    ensures { (result ≡ length (quoted_by mark t.now)) × (out.new ≡ written (quoted_by mark t.now) out.old) }
{
    let start = put_lone(true, mark, out);
    let end = start + put_escaped(t, mark, &mut out[start..]);
    end + put_lone(true, mark, &mut out[end..])
}

fn put_plain(t: &[u8], out: &mut [u8]) -> usize
    requires { length t.now ≤ length out.old }
    ensures { (result ≡ length t.now) × (out.new ≡ written t.now out.old) }
{
    for i in 0..t.len() {
        out[i] = t[i];
    }
    t.len()
}

// How many bytes a text takes in its form.
pub fn shown_length(t: &[u8], form: Option<Quotes>) -> usize
    requires { length t.now ≤ refusal.limit }
    ensures { result ≡ length (shown form t.now) }
{
    match form {
        None => t.len(),
        Some(k) => 2 + escaped_length(t, closing(k)),
    }
}

// A text in its form, from the memory's start on.
pub fn put_shown(t: &[u8], form: Option<Quotes>, out: &mut [u8]) -> usize
    requires { length (shown form t.now) ≤ length out.old }
    ensures { (result ≡ length (shown form t.now)) × (out.new ≡ written (shown form t.now) out.old) }
{
    match form {
        None => put_plain(t, out),
        Some(k) => put_quoted(t, closing(k), out),
    }
}
