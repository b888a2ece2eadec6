// A turn: the next item, or the next two where they are a pair that is written as one word. What it writes is a piece: a space unless it is
// the first, the plus of a pair, and a text in its form.
ghost use Rattle.std.specs.Prelude.{◌≡◌, true, ◌≤◌, ◌<◌, length, if◌then◌else◌};
ghost use Rattle.laws.specs.Lent.{written};
ghost use Rattle.refusal.specs.Refusals as refusal;
ghost use Rattle.chars.specs.Utf8.{first_bad};
ghost use Rattle.items_writing.specs.Written.{joined};
ghost use Rattle.items_writing.specs.Records.{count_of, records_in, is_right, entry_of};
ghost use Rattle.items_writing.specs.Pieces.{form_for, piece, AllRight, TurnSaid, TakenSaid};

use crate::quoting::{lone_length, put_lone, put_shown, shown_length};
use crate::records::{body_of, text_of, words_at};
use crate::word::{reads_bare, reads_pair};
use crate::{Taken, WriteTurn, WriteWords};
use items::{Quotes, RECORD_WORDS, kinds};

// The form of an item of a kind, whose word is made of t.
fn form_for(k: u32, t: &[u8], first: bool, last: bool) -> Option<Quotes>
    requires { first_bad t.now ≡ None }
    ensures { result ≡ form_for k first last t.now }
{
    match k {
        kinds::IDENTIFIER if reads_bare(t, first, last) => None,
        kinds::IDENTIFIER => Some(Quotes::Lines),
        kinds::STRING_LITERAL => Some(Quotes::Double),
        _ => None,
    }
}

// Whether two items in a row are written as one word.
fn joins<'a>(source: &'a [u8], text: &'a [u8], e: WriteWords, f: WriteWords) -> bool
    requires { (is_right source.now text.now e ≡ true) × (is_right source.now text.now f ≡ true) }
    ensures { result ≡ joined (entry_of source.now text.now e) (entry_of source.now text.now f) }
{
    e.kind == kinds::IDENTIFIER
        && f.kind == kinds::IDENTIFIER
        && e.start == f.start
        && e.end == f.end
        && byte_runs::equal(text_of(source, text, e), b"+")
        && reads_pair(text_of(source, text, f))
}

// The turn at a place of records that are not refused.
fn turn_at<'a>(
    records: &[u32],
    source: &'a [u8],
    text: &'a [u8],
    p: usize,
    first: bool,
) -> WriteTurn
    requires { (p < count_of records.now) × AllRight source.now text.now (records_in records.now) }
    ensures { TurnSaid records.now source.now text.now first p result }
{
    let count = records.len() / RECORD_WORDS;
    let e = words_at(records, p);
    let next = p + 1;
    if next < count {
        if joins(source, text, e, words_at(records, next)) {
            return WriteTurn {
                last: next,
                pair: true,
                form: None,
            };
        }
        return WriteTurn {
            last: p,
            pair: false,
            form: form_for(e.kind, body_of(source, text, e), first, false),
        };
    }
    WriteTurn {
        last: p,
        pair: false,
        form: form_for(e.kind, body_of(source, text, e), first, true),
    }
}

// The same, with the bytes of its word.
pub fn taken<'a>(
    records: &[u32],
    source: &'a [u8],
    text: &'a [u8],
    p: usize,
    first: bool,
) -> Taken<'a>
    requires { (p < count_of records.now) × AllRight source.now text.now (records_in records.now) }
    ensures { TakenSaid records.now source.now text.now first p result.turn result.body.now }
{
    let turn = turn_at(records, source, text, p, first);
    let w = words_at(records, turn.last);
    Taken {
        turn,
        body: body_of(source, text, w),
    }
}

// How many bytes a piece has.
pub fn piece_length(t: &[u8], turn: WriteTurn, first: bool) -> usize
    requires { length t.now ≤ refusal.limit }
    ensures { result ≡ length (piece first turn.pair turn.form t.now) }
{
    let form = turn.form;
    lone_length(!first, b' ') + lone_length(turn.pair, b'+') + shown_length(t, form)
}

// A piece, from the memory's start on.
pub fn put_piece(t: &[u8], turn: WriteTurn, first: bool, out: &mut [u8]) -> usize
    requires { length (piece first turn.pair turn.form t.now) ≤ length out.old }
    ensures { (result ≡ length (piece first turn.pair turn.form t.now)) × (out.new ≡ written (piece first turn.pair turn.form t.now) out.old) }
{
    let form = turn.form;
    let gap = put_lone(!first, b' ', out);
    let plus = gap + put_lone(turn.pair, b'+', &mut out[gap..]);
    plus + put_shown(t, form, &mut out[plus..])
}
