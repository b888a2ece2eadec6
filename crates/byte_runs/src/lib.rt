// Texts as bytes, by the definitions of laws/specs/Texts: where a byte stands, how far a run goes, and how two texts compare. Each function answers what
// the definition that its contract names says of the text, or of the text from a place on. Internal.
#![tactic(auto)]

ghost use Rattle.std.specs.Prelude.{◌≡◌, drop};
ghost use Rattle.laws.specs.Quoted.{within};
ghost use Rattle.laws.specs.Texts.{starts, begins, same};

mod classes;
mod pairs;
mod runs;
mod search;

pub use classes::ByteClass;
pub use pairs::pairs_at;
pub use runs::{
    ASCII_END, BLOCK, HALF, QUARTER, all_plain, apart_end, blank_end, bytes_end, find, has_block,
    plain_bytes, plain_end, run_end, starts_run,
};
pub use search::{agreeing, find_pair};

// Whether a byte is one of those from a to b.
pub fn between(a: u8, b: u8, c: u8) -> bool
    ensures { result ≡ within a b c }
{
    a <= c && c <= b
}

// Whether b stands at a place.
pub fn starts_at(t: &[u8], from: usize, b: u8) -> bool
    ensures { result ≡ starts b (drop from t.now) }
{
    from < t.len() && t[from] == b
}

// Whether s begins with p.
pub fn begins_with(s: &[u8], p: &[u8]) -> bool
    ensures { result ≡ begins p.now s.now }
{
    s.starts_with(p)
}

// Whether s and t are one text.
pub fn equal(s: &[u8], t: &[u8]) -> bool
    ensures { result ≡ same s.now t.now }
{
    s == t
}

// Whether t from a place on is the text w.
pub fn equal_from(t: &[u8], from: usize, w: &[u8]) -> bool
    ensures { result ≡ same (drop from t.now) w.now }
{
    if t.len() <= from {
        return w.len() == 0;
    }
    equal(&t[from..], w)
}
