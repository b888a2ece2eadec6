// The reader: one item a call.
ghost use Rattle.std.specs.Prelude.{◌≡◌};
ghost use Rattle.lexer.specs.Answers.{reply_of, replied, next_of};

use crate::reading::next_item;
use crate::whole::{free_after, put_text};
use crate::{Given, NextError, Position};
use items::Record;
use meaning::records::depth_after;
use refusal::LIMIT;

// The text of an item starts at the first byte of the text memory.
const FRONT: usize = 0;

// The next item of a source from a position on, and the position after it. Its decoded text, if it has one, goes to the start of the
// text memory.
pub fn next_at(
    source: &[u8],
    position: Position,
    text: &mut [u8],
) -> Result<Option<Given>, NextError>
    ensures { replied (reply_of result) text.new ≡ next_of source.now position text.old }
{
    if LIMIT < source.len() {
        return Err(NextError::TooLong);
    }
    let depth = position.depth;
    let Some(found) = next_item(source, position.spot, FRONT) else {
        return Ok(None);
    };
    let nine = found.nine;
    let bytes = free_after(FRONT, nine);
    if text.len() < bytes {
        return Err(NextError::NoRoom(bytes));
    }
    put_text(source, nine, text);
    Ok(Some(Given {
        item: Record {
            nine: nine,
            depth: depth,
        },
        after: Position {
            spot: found.after,
            depth: depth_after(nine.kind, depth),
        },
    }))
}
