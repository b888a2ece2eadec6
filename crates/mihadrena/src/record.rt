// Questions about records.
ghost use Rattle.std.specs.Prelude.{◌≡◌};
ghost use Rattle.items_exports.specs.Records.{opener_of, records_fit};

// The bracket in which a record lies, of a close the bracket that it closes: the number of its record, or how many records there are, where
// the record lies in none or there is no such record.
#[unsafe(no_mangle)]
pub extern "C" fn mihadrena_opener(records: &[u32], at: usize) -> usize
    ensures { result ≡ opener_of records.now at }
{
    items_exports::mihadrena_opener(records, at)
}

// Whether all records lie in a source and a text memory of these lengths: extent, place and text. Words past the last whole record are none.
#[unsafe(no_mangle)]
pub extern "C" fn mihadrena_records_fit(records: &[u32], source: usize, text: usize) -> bool
    ensures { result ≡ records_fit records.now source text }
{
    items_exports::mihadrena_records_fit(records, source, text)
}
