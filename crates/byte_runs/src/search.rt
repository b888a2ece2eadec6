// What a search for a text goes by, a block at a time: where two bytes stand at a distance, and how far two parts of a text agree.
ghost use Rattle.std.specs.Prelude.{◌≡◌, true, ◌+◌, ◌≤◌, length};
ghost use Rattle.byte_runs.specs.Runs.{block};
ghost use Rattle.byte_runs.specs.Search.{Lone, LoneTo, Alike, Agree};

use crate::runs::BLOCK;

// Whether in the block at a place x stands nowhere with y `gap` bytes behind it.
fn lone_block(t: &[u8], at: usize, gap: usize, x: u8, y: u8) -> bool
    requires { at + block + gap ≤ length t.now }
    ensures { result ≡ true → Lone t.now gap x y at (at + block) }
{
    let behind = at + gap;
    let mut all = true;
    for j in 0..BLOCK {
        all &= !((t[at + j] == x) & (t[behind + j] == y));
    }
    all
}

// `find_pair`, byte by byte.
fn pair_bytes(t: &[u8], from: usize, gap: usize, x: u8, y: u8) -> usize
    requires { from + gap ≤ length t.now }
    ensures { LoneTo t.now gap x y from result }
{
    let end = t.len() - gap;
    for i in from..end {
        if t[i] == x && t[i + gap] == y {
            return i;
        }
    }
    end
}

// Where, from a place on, x stands with y `gap` bytes behind it; where there is none, the first place for which y would stand past the text.
pub fn find_pair(t: &[u8], from: usize, gap: usize, x: u8, y: u8) -> usize
    requires { from + gap ≤ length t.now }
    ensures { LoneTo t.now gap x y from result }
{
    let end = t.len() - gap;
    if from < end && t[from] == x && t[from + gap] == y {
        return from;
    }
    let mut i = from;
    while BLOCK <= end - i && lone_block(t, i, gap, x, y) {
        i += BLOCK;
    }
    pair_bytes(t, i, gap, x, y)
}

// Whether the blocks at two places are the same.
fn same_block(t: &[u8], a: usize, b: usize) -> bool
    requires { (a + block ≤ length t.now) × (b + block ≤ length t.now) }
    ensures { result ≡ true → Alike t.now a b block }
{
    let mut all = true;
    for j in 0..BLOCK {
        all &= t[a + j] == t[b + j];
    }
    all
}

// `agreeing`, byte by byte, where some bytes are known to agree.
fn agreeing_bytes(t: &[u8], a: usize, b: usize, n: usize, known: usize) -> usize
    requires { (a + n ≤ length t.now) × (b + n ≤ length t.now) × (known ≤ n) × Alike t.now a b known }
    ensures { Agree t.now a b n result }
{
    for j in known..n {
        if t[a + j] != t[b + j] {
            return j;
        }
    }
    n
}

// How many of the n bytes at two places agree, up to the first that does not.
pub fn agreeing(t: &[u8], a: usize, b: usize, n: usize) -> usize
    requires { (a + n ≤ length t.now) × (b + n ≤ length t.now) }
    ensures { Agree t.now a b n result }
{
    let mut j: usize = 0;
    while BLOCK <= n - j && same_block(t, a + j, b + j) {
        j += BLOCK;
    }
    agreeing_bytes(t, a, b, n, j)
}
