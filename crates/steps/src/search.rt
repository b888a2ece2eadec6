// The search for a here-string's delimiter. Only places are looked at where its first byte stands, and its last one as far behind as they
// stand apart. Of the delimiter, whose line may have carriage returns, as many bytes are known as were found in the text: against those a
// place is compared, blocks of text with blocks of text, once three single bytes have not told that the delimiter does not stand there. A text
// that was made to agree far at many places would cost its length times the delimiter's: after the first such place it is searched by periods.
ghost use Rattle.std.specs.Prelude.{◌≡◌, true, false, ◌+◌, ◌-◌, ◌≤◌, ◌<◌, length, get_or, take, drop};
ghost use Rattle.laws.specs.Quoted.{code};
ghost use Rattle.laws.specs.Texts.{begins};
ghost use Rattle.byte_runs.specs.Search.{Alike};
ghost use Rattle.items.specs.Readers.{unreturned};
ghost use Rattle.steps.specs.Sought.{Waits, Kept, Begun, Knows, Looked, Absent};

use byte_periods::{Moved, moved_along};
use byte_runs::{agreeing, find_pair};

// So many bytes of a place agree at most with those known before the search goes on in linear time.
const FAR: usize = 128;

// What is known of a delimiter: its first `count` bytes stand at the place `at`, and its line has them before `read`. The place looked at
// last failed at its byte `off`, which stands at the place `odd`.
#[derive(Clone, Copy)]
struct Known {
    pub at: usize,
    pub count: usize,
    pub read: usize,
    pub off: usize,
    pub odd: usize,
}

// Where the first byte of a line stands that is no carriage return, or where the line ends.
pub(crate) fn kept_start(line: &[u8]) -> usize
    ensures { (result ≤ length line.now) × (unreturned (drop result line.now) ≡ unreturned line.now)
        × (result < length line.now → get_or line.now result 0 ≡ code "\r" → ⊥) }
{
    line.iter().position(|&b| b != b'\r').unwrap_or(line.len())
}

// Past the last byte of a line that is no carriage return.
pub(crate) fn kept_end(line: &[u8]) -> usize
    ensures { (result ≤ length line.now) × (unreturned (take result line.now) ≡ unreturned line.now)
        × (0 < result → get_or line.now (result - 1) 0 ≡ code "\r" → ⊥) }
{
    for i in (0..line.len()).rev() {
        if line[i] != b'\r' {
            return i + 1;
        }
    }
    0
}

// Whether the byte q of those known differs from that of another place.
fn differs(s: &[u8], i: usize, at: usize, count: usize, q: usize) -> bool
    requires { (i + count ≤ length s.now) × (at + count ≤ length s.now) }
    ensures { result ≡ true → (q < count) × (get_or s.now (i + q) 0 ≡ get_or s.now (at + q) 0 → ⊥) }
{
    if count <= q {
        return false;
    }
    s[i + q] != s[at + q]
}

// Whether one byte tells that the delimiter does not stand at a place: the one past those known, or the one that failed last, by its place
// in the delimiter or in the text.
fn refuted(s: &[u8], i: usize, line: &[u8], known: Known) -> bool
    requires { (i + length (unreturned line.now) ≤ length s.now) × (known.count < length (unreturned line.now)) × Knows s.now line.now known }
    ensures { result ≡ true → begins (unreturned line.now) (drop i s.now) ≡ false }
{
    let count = known.count;
    let read = known.read;
    if s[i + count] != line[read] {
        return true;
    }
    if differs(s, i, known.at, count, known.off) {
        return true;
    }
    if known.odd < i {
        return false;
    }
    differs(s, i, known.at, count, known.odd - i)
}

// What is known where the first bytes stand at a place: they and those that follow.
fn learn(s: &[u8], at: usize, line: &[u8], count: usize, read: usize) -> Known
    requires { (at + length (unreturned line.now) ≤ length s.now) × Begun s.now line.now at count read }
    ensures { Looked s.now line.now at result × (count ≤ result.off) }
{
    let mut i = read;
    let mut j = count;
    while i < line.len() {
        if line[i] == b'\r' {
            i += 1;
        } else {
            if line[i] != s[at + j] {
                return Known {
                    at,
                    count: j,
                    read: i,
                    off: j,
                    odd: at + j,
                };
            }
            i += 1;
            j += 1;
        }
    }
    Known {
        at,
        count: j,
        read: i,
        off: j,
        odd: at + j,
    }
}

// What is known once a place was compared, where some bytes agree with those known.
fn compared(s: &[u8], i: usize, same: usize, line: &[u8], known: Known) -> Known
    requires { (i + length (unreturned line.now) ≤ length s.now) × (known.count < length (unreturned line.now)) × Knows s.now line.now known
        × (same ≤ known.count) × Alike s.now i known.at same }
    ensures { Looked s.now line.now i result × (same ≤ result.off) }
{
    let k = same + agreeing(s, i + same, known.at + same, known.count - same);
    if k < known.count {
        return Known {
            at: known.at,
            count: known.count,
            read: known.read,
            off: k,
            odd: i + k,
        };
    }
    learn(s, i, line, known.count, known.read)
}

// The search from a place on, in time that grows with the text alone: a place that fails is left by as much as the bytes that stand there,
// those of the delimiter and the one that is not, must be moved before they can agree with themselves.
fn linear_end(s: &[u8], from: usize, line: &[u8], n: usize, first: Known) -> usize
    requires { (from ≤ length s.now) × (n ≡ length (unreturned line.now)) × (first.count < length (unreturned line.now)) × Knows s.now line.now first }
    ensures { Absent s.now line.now from result }
{
    let mut known = first;
    let mut at = from;
    let mut m = Moved {
        by: 0,
        kept: 0,
        start: 0,
        period: 1,
    };
    while n <= s.len() - at {
        known = compared(s, at, m.kept, line, known);
        if known.count == n {
            return at + n;
        }
        let end = at + known.off + 1;
        m = moved_along(&s[at..end], m);
        at += m.by;
    }
    s.len()
}

// Whether a place agreed with so many of the bytes known before that the next ones are not to be looked at in this way.
fn agreed_far(count: usize, off: usize) -> bool {
    if count < FAR {
        return false;
    }
    FAR <= off
}

// Where the first delimiter ends that begins at a place or behind it, or where the text ends. Its line begins and ends with a byte that is
// no carriage return, and has n such.
pub(crate) fn delimiter_end(s: &[u8], from: usize, line: &[u8], n: usize) -> usize
    requires { (from ≤ length s.now) × (n ≡ length (unreturned line.now)) × Kept line.now }
    ensures { Absent s.now line.now from result }
{
    let gap = n - 1;
    let first = line[0];
    let last = line[line.len() - 1];
    let mut known = Known {
        at: from,
        count: 0,
        read: 0,
        off: 0,
        odd: 0,
    };
    let mut i = from;
    while n <= s.len() - i {
        i = find_pair(s, i, gap, first, last);
        if s.len() - i < n {
            return s.len();
        }
        if !refuted(s, i, line, known) {
            let count = known.count;
            known = compared(s, i, 0, line, known);
            if known.count == n {
                return i + n;
            }
            if agreed_far(count, known.off) {
                return linear_end(s, i + 1, line, n, known);
            }
        }
        i += 1;
    }
    s.len()
}
