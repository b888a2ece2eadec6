// The call for many parts of a source.
ghost use Rattle.std.specs.Prelude.{◌≡◌};
ghost use Rattle.lexer_fields_exports.specs.Told.{left_behind, fields_left};

// Reads each part of a source as a text of its own: part i goes from the end before it, the first from 0, to `ends[i]`. `mode` is 0 for
// plain and 1 for report; `skip` leaves comments out. A row of four words for each part, the items' records and their decoded texts are
// written from the front of `rows`, `records` and `text` on. `values` gets how many items and how many bytes of text were written, or the
// two values of the refusal; where there is no room for both it is left as it was.
#[unsafe(no_mangle)]
pub extern "C" fn mihadrena_read_fields(
    source: &[u8],
    ends: &[u32],
    mode: u32,
    skip: bool,
    rows: &mut [u32],
    records: &mut [u32],
    text: &mut [u8],
    values: &mut [u64],
) -> u32
    ensures { left_behind result rows.new records.new text.new values.new
        ≡ fields_left source.now ends.now mode skip rows.old records.old text.old values.old }
{
    lexer_fields_exports::mihadrena_read_fields(
        source, ends, mode, skip, rows, records, text, values,
    )
}
