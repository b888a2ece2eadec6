// Names by several bytes at once: four as a number for the hash, eight to compare two names.
ghost use Rattle.std.specs.Prelude.{◌≡◌, ◌+◌, ◌≤◌, ◌<◌, length, get_or};
ghost use Rattle.laws.specs.Texts.{same};
ghost use Rattle.names.specs.Call.{hashes};
ghost use Rattle.names.specs.Blocks.{four_at, eight_at};

// So many bytes go into one turn of the hash, and of the comparison.
pub const FOUR: usize = 4;

const EIGHT: usize = 8;

// A byte of a name.
pub fn byte(name: &[u8], i: usize) -> u64
    requires { i < length name.now }
    ensures { (result ≡ get_or name.now i 0) × (result < 256) }
{
    name[i] as u64
}

// Four bytes of a name as one number, the lowest first.
pub fn four(name: &[u8], i: usize) -> u64
    requires { i + 4 ≤ length name.now }
    ensures { (result ≡ four_at name.now i) × (result < hashes) }
{
    let a = byte(name, i);
    let b = byte(name, i + 1);
    let c = byte(name, i + 2);
    let d = byte(name, i + 3);
    a + b * 0x100 + c * 0x10000 + d * 0x1000000
}

// Eight bytes of a name as one number.
fn eight(name: &[u8], i: usize) -> u64
    requires { i + 8 ≤ length name.now }
    ensures { result ≡ eight_at name.now i }
{
    let low = four(name, i);
    let high = four(name, i + FOUR);
    low + high * 0x100000000
}

// Whether two names of one length below EIGHT are the same: their first four bytes and their last four, which may overlap.
fn equal_short(s: &[u8], t: &[u8]) -> bool
    requires s_len { length s.now ≡ length t.now }
    requires s_len_bound { length s.now < 8 }
    ensures { result ≡ same s.now t.now }
{
    if s.len() < FOUR {
        return byte_runs::equal(s, t);
    }
    let last = s.len() - FOUR;
    if four(s, 0) != four(t, 0) {
        return false;
    }
    four(s, last) == four(t, last)
}

// Whether two names are the same. The last eight bytes are compared at once too, though the loop may have passed some of them.
pub fn equal(s: &[u8], t: &[u8]) -> bool
    ensures { result ≡ same s.now t.now }
{
    if s.len() != t.len() {
        return false;
    }
    if s.len() < EIGHT {
        return equal_short(s, t);
    }
    let last = s.len() - EIGHT;
    let mut i = 0;
    while i < last {
        if eight(s, i) != eight(t, i) {
            return false;
        }
        i += EIGHT;
    }
    eight(s, last) == eight(t, last)
}
