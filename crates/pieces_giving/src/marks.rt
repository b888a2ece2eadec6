// The marks of a state as they become others.
ghost use Rattle.std.specs.Prelude.{◌≡◌};
ghost use Rattle.items.specs.Items.{depth_after, range};
ghost use Rattle.pieces.specs.Calls.{whole, marks, with_depth};
ghost use Rattle.pieces_giving.specs.Answers.{begun};

use chars::Begun;
use meaning::records::depth_after;
use pieces::{Marks, Part, Stage};

// Between two characters.
pub fn no_part() -> Part
    ensures { result ≡ whole }
{
    Part {
        count: 0,
        state: Begun {
            need: 0,
            low: 0,
            high: 0,
            code: 0,
        },
    }
}

// The marks with another stage, place, count of the item's bytes and last range, between two characters.
pub fn marks_at(m: Marks, stage: Stage, at: usize, len: usize, from: usize, to: usize) -> Marks
    ensures { result ≡ marks m stage at len (range from to) }
{
    Marks {
        stage,
        at,
        part: no_part(),
        from,
        to,
        len,
        ..m
    }
}

// The marks after an item of a kind was given.
pub fn counted(m: Marks, kind: u32) -> Marks
    ensures { result ≡ with_depth (depth_after kind m.depth) m }
{
    Marks {
        depth: depth_after(kind, m.depth),
        ..m
    }
}

// The marks with another character begun.
pub fn with_part(m: Marks, part: Part) -> Marks
    ensures { result ≡ begun m part }
{
    Marks { part, ..m }
}
