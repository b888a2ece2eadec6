// The calls about lines for C and Rust, over slices and numbers alone, which is all that C passes on. An answer is a number, 0 or the
// refusal's, and two values in lent memory: the count, or line and column, or what the refusal comes with, and 0 where there is no second.
// Where there is no room for two values, they are left as they were. What the calls answer is the crate lines.
#![tactic(auto)]

ghost use Rattle.std.specs.Prelude.{◌≡◌, [], ◌∷◌, length};
ghost use Rattle.chars.specs.Encode.{lay};
ghost use Rattle.lines.specs.Starts.{told_of, build_of};
ghost use Rattle.lines.specs.Place.{where_of, locate_of};
ghost use Rattle.lines.specs.Many.{locate_all_of};
ghost use Rattle.lines.specs.Numbers.{answer_number, answer_value, located_number, located_first, located_second};
ghost use Rattle.lines.specs.Words.{contents, open_left, piece_left, end_for};

use exports_values::put_values;
use lines::{LineColumn, LinesError, LocateError};
use refusal::SERVED;

// An answer's number.
fn number(a: Result<usize, LinesError>) -> u32
    ensures { result ≡ answer_number (told_of a) }
{
    match a {
        Ok(_) => SERVED,
        Err(e) => e.number(),
    }
}

// What an answer comes with.
fn value(a: Result<usize, LinesError>) -> u64
    ensures { result ≡ answer_value (told_of a) }
{
    match a {
        Ok(n) => n as u64,
        Err(e) => e.value() as u64,
    }
}

// The number of a place's answer, and its two values.
fn located_number(r: Result<LineColumn, LocateError>) -> u32
    ensures { result ≡ located_number (where_of r) }
{
    match r {
        Ok(_) => SERVED,
        Err(e) => e.number(),
    }
}

fn located_first(r: Result<LineColumn, LocateError>) -> u64
    ensures { result ≡ located_first (where_of r) }
{
    match r {
        Ok(found) => found.line as u64,
        Err(e) => e.value() as u64,
    }
}

fn located_second(r: Result<LineColumn, LocateError>) -> u64
    ensures { result ≡ located_second (where_of r) }
{
    match r {
        Ok(found) => found.column as u64,
        Err(_) => 0,
    }
}

// An answer told: its value goes to the lent memory, and its number back.
fn tell(a: Result<usize, LinesError>, values: &mut [u64]) -> u32
    ensures { (result ≡ answer_number (told_of a)) × (values.new ≡ lay (answer_value (told_of a) ∷ 0 ∷ []) values.old) }
{
    put_values(values, value(a), 0);
    number(a)
}

// Builds the index of a whole text: 0 with the count of line starts, or 20, 21 or 33 (with the count that is needed), and then nothing
// is written to the index.
pub fn mihadrena_lines(text: &[u8], index: &mut [u32], values: &mut [u64]) -> u32
    ensures value { result ≡ answer_number (build_of text.now index.old).answer }
    ensures values_after { values.new ≡ lay (answer_value (build_of text.now index.old).answer ∷ 0 ∷ []) values.old }
    ensures index_after { index.new ≡ (build_of text.now index.old).memory }
{
    let a = lines_calls::build(text, index);
    tell(a, values)
}

// Line and column of a byte place, by the index of the text: 0 with both, or 48 (the index isn't that text's) or 34 (the place lies past
// the end or inside a character).
pub fn mihadrena_locate(text: &[u8], index: &[u32], place: usize, values: &mut [u64]) -> u32
    ensures value { result ≡ located_number (locate_of text.now index.now place) }
    ensures values_after { values.new
        ≡ lay (located_first (locate_of text.now index.now place) ∷ located_second (locate_of text.now index.now place) ∷ []) values.old }
{
    let r = lines_calls::locate(text, index, place);
    put_values(values, located_first(r), located_second(r));
    located_number(r)
}

// Line and column of many places, in any order: two numbers for each in `found`, line and column, or 0 and the refusal's number. 0 with
// the count of places, or 48, or 33 with the numbers that are needed.
pub fn mihadrena_locate_all(
    text: &[u8],
    index: &[u32],
    places: &[u32],
    found: &mut [usize],
    values: &mut [u64],
) -> u32
    ensures value { result ≡ answer_number (locate_all_of text.now index.now places.now found.old).answer }
    ensures values_after { values.new
        ≡ lay (answer_value (locate_all_of text.now index.now places.now found.old).answer ∷ 0 ∷ []) values.old }
    ensures found_after { found.new ≡ (locate_all_of text.now index.now places.now found.old).memory }
{
    let a = lines_calls::locate_all(text, index, places, found);
    tell(a, values)
}

// Opens an index from pieces, on a state of eight words.
pub fn mihadrena_lines_open(state: &mut [u32], index: &mut [u32])
    ensures { contents state.new index.new ≡ open_left state.old index.old }
{
    lines_calls::lent::open(state, index);
}

// A piece of the text. No piece is refused: every refusal comes with the declared end.
pub fn mihadrena_lines_piece(state: &mut [u32], piece: &[u8], index: &mut [u32])
    ensures { contents state.new index.new
        ≡ piece_left state.old piece.now index.old }
{
    lines_calls::lent::piece(state, piece, index);
}

// The declared end: 0 with the count of line starts, or 27, 20, 21 or 33.
pub fn mihadrena_lines_end(state: &[u32], index: &[u32], values: &mut [u64]) -> u32
    ensures value { result ≡ answer_number (end_for state.now (length index.now)) }
    ensures values_after { values.new ≡ lay (answer_value (end_for state.now (length index.now)) ∷ 0 ∷ []) values.old }
{
    let a = lines_calls::lent::end(state, index);
    tell(a, values)
}
