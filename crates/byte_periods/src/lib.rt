// The periods of a text, by its greatest suffix: how far a text may be moved along itself before it can agree with itself again. A search that moves a
// text so ends in time that grows with what is searched alone (M. Crochemore, "String-matching on ordered alphabets", 1992). Internal.
#![tactic(auto)]

ghost use Rattle.std.specs.Prelude.{◌≡◌, true, false, ◌+◌, ◌*◌, ◌≤◌, ◌<◌, length};
ghost use Rattle.byte_periods.specs.Periods.{byte, Suffixed, Repeats, Moves, Stays};

use byte_runs::agreeing;

// The greatest suffix of the bytes before `end`: where it starts, and its least period.
#[derive(Clone, Copy)]
pub struct Suffix {
    pub start: usize,
    pub period: usize,
    pub end: usize,
}

// How far a text is moved along itself, how many of its bytes agree with it there, and where the greatest suffix of these starts and its period; where
// none is kept nothing is known.
#[derive(Clone, Copy)]
pub struct Moved {
    pub by: usize,
    pub kept: usize,
    pub start: usize,
    pub period: usize,
}

// The greatest suffix of one byte more, or a later start for it.
fn next(w: &[u8], v: Suffix) -> Suffix
    requires { (v.end < length w.now) × Suffixed (byte w.now) (length w.now) v.start v.period v.end }
    ensures { (result.end ≤ length w.now) × Suffixed (byte w.now) (length w.now) result.start result.period result.end
        × (v.start + v.end < result.start + result.end) }
{
    let end = v.end;
    let old = w[end - v.period];
    let new = w[end];
    if new == old {
        return Suffix {
            start: v.start,
            period: v.period,
            end: end + 1,
        };
    }
    if new < old {
        return Suffix {
            start: v.start,
            period: end + 1 - v.start,
            end: end + 1,
        };
    }
    let start = v.start + v.period;
    if end - start < v.period {
        return Suffix {
            start,
            period: 1,
            end: start + 1,
        };
    }
    Suffix {
        start,
        period: v.period,
        end,
    }
}

// The greatest suffix of a text, from that of its first bytes.
fn grown(w: &[u8], first: Suffix) -> Suffix
    requires { (first.end ≤ length w.now) × Suffixed (byte w.now) (length w.now) first.start first.period first.end }
    ensures { (result.end ≡ length w.now)
        × Suffixed (byte w.now) (length w.now) result.start result.period result.end }
{
    let mut v = first;
    while v.end < w.len() {
        v = next(w, v);
    }
    v
}

// Whether all of a text has the period of its greatest suffix.
fn repeats(w: &[u8], start: usize, period: usize) -> bool
    requires { start + period ≤ length w.now }
    ensures { (result ≡ true → (start ≤ period) × Repeats (byte w.now) start period)
        × (result ≡ false → start ≤ period → Repeats (byte w.now) start period → ⊥) }
{
    if period < start {
        return false;
    }
    agreeing(w, 0, period, start) == start
}

// How a text is moved that does not have the period of its greatest suffix: its periods are longer than a third of it.
fn moved_far(n: usize) -> Moved
    ensures { (result.kept ≡ 0) × (n < 3 * result.by) × (3 * result.by ≤ n + 3) }
{
    Moved {
        by: n / 3 + 1,
        kept: 0,
        start: 0,
        period: 1,
    }
}

// What a move before tells of the greatest suffix of a text's first bytes.
fn begun(m: Moved) -> Suffix
    ensures { (m.kept ≡ 0 → (result.start ≡ 0) × (result.period ≡ 1) × (result.end ≡ 1))
        × (0 < m.kept → (result.start ≡ m.start) × (result.period ≡ m.period) × (result.end ≡ m.kept)) }
{
    if m.kept == 0 {
        return Suffix {
            start: 0,
            period: 1,
            end: 1,
        };
    }
    Suffix {
        start: m.start,
        period: m.period,
        end: m.kept,
    }
}

// The next place where a text may agree with itself, from what is known of its greatest suffix by the move before.
pub fn moved_along(w: &[u8], m: Moved) -> Moved
    requires { (0 < length w.now) × (m.kept ≤ length w.now) × Stays (byte w.now) m.kept m.start m.period }
    ensures { Moves (byte w.now) (length w.now) result.by result.kept
        × Stays (byte w.now) result.kept result.start result.period }
{
    let n = w.len();
    let v = grown(w, begun(m));
    let period = v.period;
    if !repeats(w, v.start, period) {
        return moved_far(n);
    }
    if n - v.start - period < period {
        return Moved {
            by: period,
            kept: 0,
            start: 0,
            period: 1,
        };
    }
    Moved {
        by: period,
        kept: n - period,
        start: v.start,
        period,
    }
}
