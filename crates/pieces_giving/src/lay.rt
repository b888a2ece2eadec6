// A character's bytes, laid into the buffer.
ghost use Rattle.std.specs.Prelude.{◌≡◌, ◌+◌, ◌^◌, ◌≤◌, ◌<◌, length};
ghost use Rattle.chars.specs.Encode.{width, utf8};
ghost use Rattle.pieces.specs.Expected.{longest};
ghost use Rattle.pieces.specs.Calls as calls;

use chars::encode::{
    EIGHTEEN_BITS, FOUR_FROM, MARK_FOUR, MARK_THREE, MARK_TWO, SIX_BITS, THREE_FROM, TWELVE_BITS,
    TWO_FROM, later,
};

// Lays the bytes of c into the buffer from `at` on. A forged state may lead to a number that is no character's: it has bytes all the same.
pub fn lay(buf: &mut [u8], at: usize, c: u32)
    requires { (length buf.old ≡ longest) × (at + width c ≤ longest) × (c < 2 ^ 21) }
    ensures { buf.new ≡ calls.laid_at at (utf8 c) buf.old }
{
    if c < TWO_FROM {
        buf[at] = c as u8;
        return;
    }
    if c < THREE_FROM {
        buf[at] = (MARK_TWO + c / SIX_BITS) as u8;
        buf[at + 1] = later(c);
        return;
    }
    if c < FOUR_FROM {
        buf[at] = (MARK_THREE + c / TWELVE_BITS) as u8;
        buf[at + 1] = later(c / SIX_BITS);
        buf[at + 2] = later(c);
        return;
    }
    buf[at] = (MARK_FOUR + c / EIGHTEEN_BITS) as u8;
    buf[at + 1] = later(c / TWELVE_BITS);
    buf[at + 2] = later(c / SIX_BITS);
    buf[at + 3] = later(c);
}
