// Bytes laid into lent memory from a place on. Where the memory ends nothing more is written, and the place past the bytes is counted all the
// same: so a caller learns how much memory there must be.
ghost use Rattle.std.specs.Prelude.{◌≡◌, [], ◌∷◌, set, replicate};
ghost use Rattle.laws.specs.Quoted.{one_of};
ghost use Rattle.findings_render_parts.specs.Laid.{beyond, special, is_marked, letter, Laid};

// One byte, as it is.
fn put_raw(out: &mut [u8], at: usize, b: u8) -> usize
    ensures { (result ≡ beyond at) × (out.new ≡ set out.old at b) }
{
    if at < out.len() {
        out[at] = b;
    }
    at.saturating_add(1)
}

// Whether a backslash stands before a byte of a string of JSON.
fn is_special(b: u8) -> bool
    ensures { result ≡ one_of special b }
{
    matches!(b, b'"' | b'\\' | b'\t')
}

// The same where it may be no such string.
fn is_marked(quoted: bool, b: u8) -> bool
    ensures { result ≡ is_marked quoted b }
{
    quoted && is_special(b)
}

// What stands after it.
fn letter_of(b: u8) -> u8
    ensures { result ≡ letter b }
{
    if b == b'\t' { b't' } else { b }
}

// One byte; where it is quoted, as JSON wants it.
pub fn put_byte(out: &mut [u8], at: usize, quoted: bool, b: u8) -> usize
    ensures { Laid quoted (b ∷ []) at out.old result out.new }
{
    if is_marked(quoted, b) {
        let next = put_raw(out, at, b'\\');
        return put_raw(out, next, letter_of(b));
    }
    put_raw(out, at, b)
}

// A text.
pub fn put(out: &mut [u8], at: usize, quoted: bool, text: &[u8]) -> usize
    ensures { Laid quoted text.now at out.old result out.new }
{
    let mut next = at;
    for b in text {
        next = put_byte(out, next, quoted, *b);
    }
    next
}

// A byte n times.
pub fn put_run(out: &mut [u8], at: usize, quoted: bool, b: u8, n: usize) -> usize
    ensures { Laid quoted (replicate n b) at out.old result out.new }
{
    let mut next = at;
    for _ in 0..n {
        next = put_byte(out, next, quoted, b);
    }
    next
}
