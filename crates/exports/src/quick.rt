// What the quick path tells, written where it belongs: of a state's words those of the spot alone, since the others are as they were.
ghost use Rattle.std.specs.Prelude.{◌≡◌, List, ℕ, ◌≤◌, length};
ghost use Rattle.laws.specs.Lent.{written};
ghost use Rattle.items.specs.Items.{record_words};
ghost use Rattle.exports.specs.Piece.{listed, words_in, state_words};
ghost use Rattle.exports.specs.Spotted.{placed, Tells};
ghost use Rattle.pieces_last.specs.Ends.{with_end};
ghost use Rattle.exports.specs.Ended.{end_placed, TellsEnd};

use exports_values::put_values;
use items::Record;
use meaning::records::put;
use pieces::Got;
use pieces_lent::codes::{IDLE, YES};
use pieces_quick::QuickItem;
use pieces_spots::PieceSpot;
use refusal::{FINISHED, ITEM, MORE};

// Writes a spot and how many brackets are open into a state's words.
pub fn put_spot(words: &mut [u64], s: PieceSpot, depth: u64)
    requires { length words.old ≡ state_words }
    ensures { words.new ≡ written (listed (placed (words_in words.old) s depth)) words.old }
{
    words[3] = s.stage;
    words[4] = s.start;
    words[5] = s.which;
    words[6] = s.detail;
    words[9] = s.at;
    words[17] = s.len as u64;
    words[18] = depth;
}

// Tells that all bytes were taken, at a spot.
pub fn tell_more(s: PieceSpot, depth: u64, words: &mut [u64], values: &mut [u64]) -> u32
    requires { length words.old ≡ state_words }
    ensures { (item : List ℕ) → Tells s depth Got.More words.old words.new item item values.old values.new result }
{
    put_spot(words, s, depth);
    put_values(values, 0, s.i as u64);
    MORE
}

// Tells an item by its record, and the spot past it.
pub fn tell_item(told: QuickItem, words: &mut [u64], item: &mut [u32], values: &mut [u64]) -> u32
    requires { (length words.old ≡ state_words) × (record_words ≤ length item.old) }
    ensures { Tells told.spot told.depth (Got.Item told.item) words.old words.new item.old item.new values.old values.new result }
{
    put_spot(words, told.spot, told.depth);
    put(item, told.item);
    put_values(values, 0, told.spot.i as u64);
    ITEM
}

// Writes into a state's words that the end was declared.
fn put_end(words: &mut [u64])
    requires { length words.old ≡ state_words }
    ensures { words.new ≡ written (listed (with_end (words_in words.old) 1)) words.old }
{
    words[2] = YES;
}

// Tells that all items were given.
pub fn tell_finished(words: &mut [u64], values: &mut [u64]) -> u32
    requires { length words.old ≡ state_words }
    ensures { (item : List ℕ) → TellsEnd (with_end (words_in words.old) 1) Got.Finished words.old words.new item item values.old values.new result }
{
    put_end(words);
    put_values(values, 0, 0);
    FINISHED
}

// Writes into a state's words that the last item was given, with so many brackets open.
fn put_last(words: &mut [u64], depth: u64)
    requires { length words.old ≡ state_words }
    ensures { words.new ≡ written (listed (end_placed (words_in words.old) depth)) words.old }
{
    words[2] = YES;
    words[3] = IDLE;
    words[4] = 0;
    words[5] = 0;
    words[6] = 0;
    words[17] = 0;
    words[18] = depth;
}

// Tells the last item by its record.
pub fn tell_last(
    depth: u64,
    given: Record,
    words: &mut [u64],
    item: &mut [u32],
    values: &mut [u64],
) -> u32
    requires { (length words.old ≡ state_words) × (record_words ≤ length item.old) }
    ensures { TellsEnd (end_placed (words_in words.old) depth) (Got.Item given) words.old words.new item.old item.new values.old values.new result }
{
    put_last(words, depth);
    put(item, given);
    put_values(values, 0, 0);
    ITEM
}
