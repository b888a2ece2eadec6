// Comments: to the end of the line, and nested ones.
ghost use Rattle.std.specs.Prelude.{◌≡◌, ◌+◌, ◌^◌, ◌<◌};
ghost use Rattle.items.specs.Classes.{in_nest};
ghost use Rattle.items.specs.Machine.{on_line, on_nest, on_bar, on_sharp};
ghost use Rattle.items.specs.Readers.{comment};

use crate::signs::*;
use items::{Next, Outcome, Phase, kinds};

// A comment whose last character was read.
fn comment_ends() -> Next
    ensures { result ≡ Next.Eat (Phase.Done (comment)) }
{
    Next::Eat(Phase::Done(Outcome::Token(kinds::COMMENT, kinds::NO_DETAIL)))
}

// After `;`.
pub(crate) fn read_rest_of_line(c: u32) -> Next
    ensures { result ≡ on_line c }
{
    if c == NEWLINE {
        return comment_ends();
    }
    Next::Eat(Phase::InLine)
}

// After `#|`, this many comments deep.
pub(crate) fn read_nestable_comment(depth: usize, c: u32) -> Next
    ensures { result ≡ on_nest (in_nest c) depth }
{
    match c {
        VERTICAL => Next::Eat(Phase::NestBar(depth)),
        HASH => Next::Eat(Phase::NestSharp(depth)),
        _ => Next::Eat(Phase::Nest(depth)),
    }
}

// After `|` in a nested comment.
pub(crate) fn nest_bar(depth: usize, c: u32) -> Next
    ensures { result ≡ on_bar (in_nest c) depth }
{
    match c {
        VERTICAL => Next::Eat(Phase::NestBar(depth)),
        HASH => {
            if depth <= 1 {
                return comment_ends();
            }
            Next::Eat(Phase::Nest(depth - 1))
        }
        _ => Next::Eat(Phase::Nest(depth)),
    }
}

// After `#` in a nested comment.
pub(crate) fn nest_sharp(depth: usize, c: u32) -> Next
    requires { depth + 1 < 2 ^ 64 }
    ensures { result ≡ on_sharp (in_nest c) depth }
{
    match c {
        VERTICAL => Next::Eat(Phase::Nest(depth + 1)),
        HASH => Next::Eat(Phase::NestSharp(depth)),
        _ => Next::Eat(Phase::Nest(depth)),
    }
}
