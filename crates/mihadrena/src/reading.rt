// The reader: one item a call.
ghost use Rattle.std.specs.Prelude.{◌≡◌};
ghost use Rattle.reader_exports.specs.Reader.{started, open_left, memory, left, next_left};

// Opens a source: 0, and `position` gets the words of its start; or document 01's refusals 25, 20 and 21, what they come with first in
// `values`, and before them 27 where `position` has not READER_WORDS words. Refused, `position` stays as it was. `values` gets two words,
// where there is room for both: 0 for what there is not.
#[unsafe(no_mangle)]
pub extern "C" fn mihadrena_reader_open(
    source: &[u8],
    mode: u32,
    skip: bool,
    position: &mut [u64],
    values: &mut [u64],
) -> u32
    ensures { started result position.new values.new ≡ open_left source.now mode skip position.old values.old }
{
    reader_exports::mihadrena_reader_open(source, mode, skip, position, values)
}

// The next item of a source: 10, its record in `item` and its decoded text at the front of `text`, and `position` moves on; 12 once all
// were given. Refused with 22, with 1 and the text bytes needed, or 20, the position stays. Before that 22 with 1 and 0 where `item` or
// `values` are too few, and 27 where the words are no position's: then nothing else is written.
#[unsafe(no_mangle)]
pub extern "C" fn mihadrena_reader_next(
    source: &[u8],
    position: &mut [u64],
    text: &mut [u8],
    item: &mut [u32],
    values: &mut [u64],
) -> u32
    ensures { left result (memory position.new text.new item.new values.new)
        ≡ next_left source.now (memory position.old text.old item.old values.old) }
{
    reader_exports::mihadrena_reader_next(source, position, text, item, values)
}
