// The whole-text call.
ghost use Rattle.std.specs.Prelude.{◌≡◌};
ghost use Rattle.chars.specs.Encode.{lay};
ghost use Rattle.items.specs.Whole.{read_of};
ghost use Rattle.exports.specs.Read.{read_number, read_values};

// Reads a whole text. `mode` is 0 for plain and 1 for report; `skip` leaves comments out. The items' records, ten words each, and
// their decoded texts are written from the front of `records` and `text` on. `values` gets how many items and how many bytes of text
// were written, or the two values of the refusal; where there is no room for both it is left as it was.
#[unsafe(no_mangle)]
pub extern "C" fn mihadrena_read(
    source: &[u8],
    mode: u32,
    skip: bool,
    records: &mut [u32],
    text: &mut [u8],
    values: &mut [u64],
) -> u32
    ensures value { result ≡ read_number (read_of source.now mode skip records.old text.old).answer }
    ensures values_after { values.new ≡ lay (read_values (read_of source.now mode skip records.old text.old).answer) values.old }
    ensures records_after { records.new ≡ (read_of source.now mode skip records.old text.old).records }
    ensures text_after { text.new ≡ (read_of source.now mode skip records.old text.old).text }
{
    exports::mihadrena_read(source, mode, skip, records, text, values)
}
