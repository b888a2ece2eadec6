// The piece calls.
ghost use Rattle.std.specs.Prelude.{◌≡◌};
ghost use Rattle.exports.specs.Piece.{opened, open_left, left, memory, piece_left, end_left};

// Opens a state of 4,096 bytes and 19 words: 0, or document 01's refusals 25 (with a plain state) and 27 (slices of other lengths, left as
// they were).
#[unsafe(no_mangle)]
pub extern "C" fn mihadrena_open(mode: u32, skip: bool, buf: &mut [u8], words: &mut [u64]) -> u32
    ensures { opened result buf.new words.new ≡ open_left mode skip buf.old words.old }
{
    exports::mihadrena_open(mode, skip, buf, words)
}

// Reads on in a piece: 10 with an item, whose record goes to `item` and whose text to the front of `text`; 11 for "more"; or document 01's
// refusals 20 to 24, 26 and 27. `values` gets what the refusal comes with, or 0, and how many bytes were taken.
#[unsafe(no_mangle)]
pub extern "C" fn mihadrena_piece(
    buf: &mut [u8],
    words: &mut [u64],
    piece: &[u8],
    text: &mut [u8],
    item: &mut [u32],
    values: &mut [u64],
) -> u32
    ensures { left result (memory buf.new words.new text.new item.new values.new)
        ≡ piece_left (memory buf.old words.old text.old item.old values.old) piece.now }
{
    exports::mihadrena_piece(buf, words, piece, text, item, values)
}

// Declares the end of the text: 10 with the next item, 12 once all were given, or a refusal, as a piece call has it.
#[unsafe(no_mangle)]
pub extern "C" fn mihadrena_end(
    buf: &mut [u8],
    words: &mut [u64],
    text: &mut [u8],
    item: &mut [u32],
    values: &mut [u64],
) -> u32
    ensures { left result (memory buf.new words.new text.new item.new values.new)
        ≡ end_left (memory buf.old words.old text.old item.old values.old) }
{
    exports::mihadrena_end(buf, words, text, item, values)
}
