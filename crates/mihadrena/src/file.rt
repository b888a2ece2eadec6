// The calls for item files.
ghost use Rattle.std.specs.Prelude.{◌≡◌, [], ◌∷◌};
ghost use Rattle.chars.specs.Encode.{lay};
ghost use Rattle.items_files.specs.Write.{write_of};
ghost use Rattle.items_files.specs.Read.{read_of};
ghost use Rattle.items_files_exports.specs.Told.{number_of, value_of};

// Stores the records as an item file, from the front of `out` on. `values` gets how many bytes it has, or what the refusal comes with;
// where there is no room for it, it is left as it was.
#[unsafe(no_mangle)]
pub extern "C" fn mihadrena_items_write(records: &[u32], out: &mut [u8], values: &mut [u64]) -> u32
    ensures value { result ≡ number_of (write_of records.now out.old).answer }
    ensures values_after { values.new ≡ lay (value_of (write_of records.now out.old).answer ∷ []) values.old }
    ensures out_after { out.new ≡ (write_of records.now out.old).memory }
{
    items_files_exports::mihadrena_items_write(records, out, values)
}

// Reads an item file into records, from the front of `records` on. `values` gets how many items it has, or what the refusal comes with.
#[unsafe(no_mangle)]
pub extern "C" fn mihadrena_items_read(file: &[u8], records: &mut [u32], values: &mut [u64]) -> u32
    ensures value { result ≡ number_of (read_of file.now records.old).answer }
    ensures values_after { values.new ≡ lay (value_of (read_of file.now records.old).answer ∷ []) values.old }
    ensures records_after { records.new ≡ (read_of file.now records.old).memory }
{
    items_files_exports::mihadrena_items_read(file, records, values)
}
