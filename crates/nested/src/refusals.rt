// Which refusal a record meets in a frame. Where several hold, it is the first in the order Alien, ErrorItem, MarkWaits, MisplacedDot,
// WrongClose, BracketOpen, TooDeep.
ghost use Rattle.std.specs.Prelude.{◌≡◌, cond};
ghost use Rattle.nested.specs.Errors.{error_number, mark_in};
ghost use Rattle.nested.specs.Grammar;
ghost use Rattle.nested.specs.Reader.{tailed, starting, closing, dotting, ending, wrong};

use crate::NestErrorKind::{
    Alien, BracketOpen, ErrorItem, MarkWaits, MisplacedDot, TooDeep, WrongClose,
};
use crate::{Class, Frame, NestErrorKind, frames};

// How many levels may lie inside one another.
const DEEPEST: usize = 64;

// The bracket that closes what this one opens; vectors and byte lists are round.
pub fn closer_of(s: u64) -> u64
    ensures { result ≡ Rattle.nested.specs.Grammar.closer s }
{
    if s < frames::VECTOR { s } else { frames::ROUND }
}

// Refused unless something holds.
fn allowed(holds: bool, kind: NestErrorKind) -> Result<(), NestErrorKind>
    ensures { mark_in result ≡ cond holds 0 (error_number kind) }
{
    if holds { Ok(()) } else { Err(kind) }
}

// A level opens inside so many.
fn deep_at(depth: usize) -> Result<(), NestErrorKind>
    ensures { mark_in result ≡ Rattle.nested.specs.Reader.deep depth }
{
    allowed(depth < DEEPEST, TooDeep)
}

// A datum starts: refused if it is the second one after a dot.
fn tailed_at(f: Frame) -> Result<(), NestErrorKind>
    ensures { mark_in result ≡ tailed f }
{
    match f {
        Frame::Plan => Ok(()),
        Frame::Quoting => Ok(()),
        Frame::Dropping => Ok(()),
        Frame::Fresh(_s) => Ok(()),
        Frame::Holds(_s) => Ok(()),
        Frame::Dotted(_s) => Ok(()),
        Frame::Tailed(_s) => Err(MisplacedDot),
    }
}

// A datum starts that opens a level.
fn starting_at(f: Frame, depth: usize) -> Result<(), NestErrorKind>
    ensures { mark_in result ≡ starting f depth }
{
    tailed_at(f)?;
    deep_at(depth)
}

// A close in an open bracket.
fn fits_close(b: u64, s: u64) -> Result<(), NestErrorKind>
    ensures { mark_in result ≡ closing b (Frame.Fresh s) }
{
    allowed(b == closer_of(s), WrongClose)
}

// A close in any frame.
fn closing_at(b: u64, f: Frame) -> Result<(), NestErrorKind>
    ensures { mark_in result ≡ closing b f }
{
    match f {
        Frame::Plan => Err(WrongClose),
        Frame::Quoting => Err(MarkWaits),
        Frame::Dropping => Err(MarkWaits),
        Frame::Fresh(s) => fits_close(b, s),
        Frame::Holds(s) => fits_close(b, s),
        Frame::Dotted(_s) => Err(MisplacedDot),
        Frame::Tailed(s) => fits_close(b, s),
    }
}

// The first dot of a bracket that holds data.
fn first_dot(s: u64) -> Result<(), NestErrorKind>
    ensures { mark_in result ≡ dotting (Frame.Holds s) }
{
    allowed(s < frames::VECTOR, MisplacedDot)
}

// A dot in any frame.
fn dotting_at(f: Frame) -> Result<(), NestErrorKind>
    ensures { mark_in result ≡ dotting f }
{
    match f {
        Frame::Plan => Err(MisplacedDot),
        Frame::Quoting => Err(MarkWaits),
        Frame::Dropping => Err(MarkWaits),
        Frame::Fresh(_s) => Err(MisplacedDot),
        Frame::Holds(s) => first_dot(s),
        Frame::Dotted(_s) => Err(MisplacedDot),
        Frame::Tailed(_s) => Err(MisplacedDot),
    }
}

// The end of the records.
pub fn ending_at(f: Frame) -> Result<(), NestErrorKind>
    ensures { mark_in result ≡ ending f }
{
    match f {
        Frame::Plan => Ok(()),
        Frame::Quoting => Err(MarkWaits),
        Frame::Dropping => Err(MarkWaits),
        Frame::Fresh(_s) => Err(BracketOpen),
        Frame::Holds(_s) => Err(BracketOpen),
        Frame::Dotted(_s) => Err(MisplacedDot),
        Frame::Tailed(_s) => Err(BracketOpen),
    }
}

// The refusal of a record of class k in the frame f with so many levels around it.
pub fn wrong_at(k: Class, f: Frame, depth: usize) -> Result<(), NestErrorKind>
    ensures { mark_in result ≡ wrong k f depth }
{
    match k {
        Class::Alien => Err(Alien),
        Class::Fails => Err(ErrorItem),
        Class::Passes => Ok(()),
        Class::Drops => deep_at(depth),
        Class::Marks => starting_at(f, depth),
        Class::Simple(_kind) => tailed_at(f),
        Class::Opens(_s) => starting_at(f, depth),
        Class::Closes(b) => closing_at(b, f),
        Class::Dots => dotting_at(f),
    }
}
