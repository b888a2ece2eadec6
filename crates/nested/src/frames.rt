// What the frame of a level becomes with what was read in it.
ghost use Rattle.std.specs.Prelude.{◌≡◌};
ghost use Rattle.nested.specs.Grammar.{kind_of};
ghost use Rattle.nested.specs.Reader.{pointed, node_kind};
ghost use Rattle.nested.specs.Said.{begun_of, held_of, skipped_of, stage_of, bracket_of};

use crate::{Frame, Read, Turn, nodes};
use items::kinds;

// Brackets as a frame holds them.
pub const ROUND: u64 = kinds::ROUND as u64;

pub const VECTOR: u64 = kinds::VECTOR as u64;

// The frames in their order.
const PLAN: u64 = 0;

const QUOTING: u64 = 1;

const DROPPING: u64 = 2;

const FRESH: u64 = 3;

const HOLDS: u64 = 4;

const DOTTED: u64 = 5;

const TAILED: u64 = 6;

// The frame after a dot.
pub fn pointed_at(f: Frame) -> Frame
    ensures { result ≡ pointed f }
{
    match f {
        Frame::Fresh(s) => Frame::Dotted(s),
        Frame::Holds(s) => Frame::Dotted(s),
        _ => f,
    }
}

// What a frame does that got a datum: a mark and `#;` are thereby shut. Reading goes on at record p and node w.
pub fn held(f: Frame, p: usize, w: usize) -> Turn
    ensures { result ≡ held_of f p w }
{
    match f {
        Frame::Plan => Turn::On(p, w, Frame::Plan),
        Frame::Quoting => Turn::Shut(p, w),
        Frame::Dropping => Turn::Shut(p, w),
        Frame::Fresh(s) => Turn::On(p, w, Frame::Holds(s)),
        Frame::Holds(s) => Turn::On(p, w, Frame::Holds(s)),
        Frame::Dotted(s) => Turn::On(p, w, Frame::Tailed(s)),
        Frame::Tailed(s) => Turn::On(p, w, Frame::Tailed(s)),
    }
}

// The kind of the node that a bracket without a dot gives.
pub fn shape_kind(s: u64) -> u32
    ensures { result ≡ kind_of s }
{
    if s < VECTOR {
        return nodes::NODE_LIST;
    }
    if s == VECTOR {
        return nodes::NODE_VECTOR;
    }
    nodes::NODE_BYTE_LIST
}

// A frame's place among the frames, in their order.
fn stage_of(f: Frame) -> u64
    ensures { result ≡ stage_of f }
{
    match f {
        Frame::Plan => PLAN,
        Frame::Quoting => QUOTING,
        Frame::Dropping => DROPPING,
        Frame::Fresh(_s) => FRESH,
        Frame::Holds(_s) => HOLDS,
        Frame::Dotted(_s) => DOTTED,
        Frame::Tailed(_s) => TAILED,
    }
}

// The bracket of a frame that has one.
fn bracket_of(f: Frame) -> u64
    ensures { result ≡ bracket_of f }
{
    match f {
        Frame::Plan => ROUND,
        Frame::Quoting => ROUND,
        Frame::Dropping => ROUND,
        Frame::Fresh(s) => s,
        Frame::Holds(s) => s,
        Frame::Dotted(s) => s,
        Frame::Tailed(s) => s,
    }
}

// The kind of the node that a level gives. Frames are compared by their places: a match would be a jump by a table.
pub fn node_kind(f: Frame) -> u32
    ensures { result ≡ node_kind f }
{
    let g = stage_of(f);
    if HOLDS < g {
        return nodes::NODE_DOTTED_LIST;
    }
    if FRESH <= g {
        return shape_kind(bracket_of(f));
    }
    if g == QUOTING {
        return nodes::NODE_MARK;
    }
    nodes::NO_KIND
}

// The frame of a bracket that holds so many data.
pub fn begun(s: u64, n: usize) -> Frame
    ensures { result ≡ begun_of s n }
{
    if n == 0 {
        return Frame::Fresh(s);
    }
    Frame::Holds(s)
}

// What a frame makes of a datum that was dropped: it stays, and so does the node w.
pub fn skipped(f: Frame, w: usize, d: Read) -> Turn
    ensures { result ≡ skipped_of f w d }
{
    Turn::On(d.next, w, f)
}
