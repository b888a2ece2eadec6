// The calls about lines.
ghost use Rattle.std.specs.Prelude.{◌≡◌, [], ◌∷◌, length};
ghost use Rattle.chars.specs.Encode.{lay};
ghost use Rattle.lines.specs.Starts.{build_of};
ghost use Rattle.lines.specs.Place.{locate_of};
ghost use Rattle.lines.specs.Many.{locate_all_of};
ghost use Rattle.lines.specs.Numbers.{answer_number, answer_value, located_number, located_first, located_second};
ghost use Rattle.lines.specs.Words.{contents, open_left, piece_left, end_for};

// Builds the index of a whole text: 0 with the count of line starts, or 20, 21 or 33 (with the count that is needed), and then nothing
// is written to the index.
#[unsafe(no_mangle)]
pub extern "C" fn mihadrena_lines(text: &[u8], index: &mut [u32], values: &mut [u64]) -> u32
    ensures value { result ≡ answer_number (build_of text.now index.old).answer }
    ensures values_after { values.new ≡ lay (answer_value (build_of text.now index.old).answer ∷ 0 ∷ []) values.old }
    ensures index_after { index.new ≡ (build_of text.now index.old).memory }
{
    lines_exports::mihadrena_lines(text, index, values)
}

// Line and column of a byte place, by the index of the text: 0 with both, or 48 (the index isn't that text's) or 34 (the place lies past
// the end or inside a character).
#[unsafe(no_mangle)]
pub extern "C" fn mihadrena_locate(
    text: &[u8],
    index: &[u32],
    place: usize,
    values: &mut [u64],
) -> u32
    ensures value { result ≡ located_number (locate_of text.now index.now place) }
    ensures values_after { values.new
        ≡ lay (located_first (locate_of text.now index.now place) ∷ located_second (locate_of text.now index.now place) ∷ []) values.old }
{
    lines_exports::mihadrena_locate(text, index, place, values)
}

// Line and column of many places, in any order: two numbers for each in `found`, line and column, or 0 and the refusal's number. 0 with
// the count of places, or 48, or 33 with the numbers that are needed.
#[unsafe(no_mangle)]
pub extern "C" fn mihadrena_locate_all(
    text: &[u8],
    index: &[u32],
    places: &[u32],
    found: &mut [usize],
    values: &mut [u64],
) -> u32
    ensures value { result ≡ answer_number (locate_all_of text.now index.now places.now found.old).answer }
    ensures values_after { values.new
        ≡ lay (answer_value (locate_all_of text.now index.now places.now found.old).answer ∷ 0 ∷ []) values.old }
    ensures found_after { found.new ≡ (locate_all_of text.now index.now places.now found.old).memory }
{
    lines_exports::mihadrena_locate_all(text, index, places, found, values)
}

// Opens an index from pieces, on a state of eight words.
#[unsafe(no_mangle)]
pub extern "C" fn mihadrena_lines_open(state: &mut [u32], index: &mut [u32])
    ensures { contents state.new index.new ≡ open_left state.old index.old }
{
    lines_exports::mihadrena_lines_open(state, index);
}

// A piece of the text. No piece is refused: every refusal comes with the declared end.
#[unsafe(no_mangle)]
pub extern "C" fn mihadrena_lines_piece(state: &mut [u32], piece: &[u8], index: &mut [u32])
    ensures { contents state.new index.new
        ≡ piece_left state.old piece.now index.old }
{
    lines_exports::mihadrena_lines_piece(state, piece, index);
}

// The declared end: 0 with the count of line starts, or 27, 20, 21 or 33.
#[unsafe(no_mangle)]
pub extern "C" fn mihadrena_lines_end(state: &[u32], index: &[u32], values: &mut [u64]) -> u32
    ensures value { result ≡ answer_number (end_for state.now (length index.now)) }
    ensures values_after { values.new ≡ lay (answer_value (end_for state.now (length index.now)) ∷ 0 ∷ []) values.old }
{
    lines_exports::mihadrena_lines_end(state, index, values)
}
