// The coordinate calls.
ghost use Rattle.std.specs.Prelude.{◌≡◌};
ghost use Rattle.coordinates.specs.Coordinate.{coordinate, record_coordinate};
ghost use Rattle.coordinates.specs.Values.{record_value};
ghost use Rattle.coordinates_exports.specs.Told.{number_of, value_or, place_or};

// The coordinate of a text: 0 and the value, or the refusal's number and what it comes with.
#[unsafe(no_mangle)]
pub extern "C" fn mihadrena_coordinate(text: &[u8], value: &mut f64, place: &mut u64) -> u32
    ensures { (result ≡ number_of (coordinate text.now)) × (value.new ≡ value_or value.old (coordinate text.now)) × (place.new ≡ place_or place.old (coordinate text.now)) }
{
    coordinates_exports::mihadrena_coordinate(text, value, place)
}

// The coordinate of a record's extent, by the record's kind and its extent's places, told in the same way.
#[unsafe(no_mangle)]
pub extern "C" fn mihadrena_record_coordinate(
    source: &[u8],
    kind: u32,
    start: u32,
    end: u32,
    value: &mut f64,
    place: &mut u64,
) -> u32
    ensures { (result ≡ number_of (record_coordinate source.now kind start end)) × (value.new ≡ value_or value.old (record_coordinate source.now kind start end)) × (place.new ≡ place_or place.old (record_coordinate source.now kind start end)) }
{
    coordinates_exports::mihadrena_record_coordinate(source, kind, start, end, value, place)
}

// The value of a record's extent that is a decimal or an integer, told in the same way.
#[unsafe(no_mangle)]
pub extern "C" fn mihadrena_record_value(
    source: &[u8],
    kind: u32,
    start: u32,
    end: u32,
    value: &mut f64,
    place: &mut u64,
) -> u32
    ensures { (result ≡ number_of (record_value source.now kind start end)) × (value.new ≡ value_or value.old (record_value source.now kind start end)) × (place.new ≡ place_or place.old (record_value source.now kind start end)) }
{
    coordinates_exports::mihadrena_record_value(source, kind, start, end, value, place)
}
