// The call that writes a text back.
ghost use Rattle.std.specs.Prelude.{◌≡◌};
ghost use Rattle.items_writing.specs.Call.{write_of};
ghost use Rattle.items_writing_exports.specs.Write.{sees, seen};

// Writes the text of records, from the front of `out` on; `text` is the text memory that they name. `values` gets how many bytes it has, or
// what the refusal comes with; where there is no room for it, it is left as it was.
#[unsafe(no_mangle)]
pub extern "C" fn mihadrena_write<'a>(
    records: &[u32],
    source: &'a [u8],
    text: &'a [u8],
    out: &mut [u8],
    values: &mut [u64],
) -> u32
    ensures { sees result values.new out.new ≡ seen (write_of records.now source.now text.now out.old) values.old }
{
    items_writing_exports::mihadrena_write(records, source, text, out, values)
}
