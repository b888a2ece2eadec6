// The calls of the name table.
ghost use Rattle.std.specs.Prelude.{◌≡◌};
ghost use Rattle.names.specs.Call.{opening, open_of, enter_of, mark_of, place_of};
ghost use Rattle.names.specs.Layout.{placed};
ghost use Rattle.names_exports.specs.Marks.{entered, entered_of};

// Opens a table: its words are cleared.
#[unsafe(no_mangle)]
pub extern "C" fn mihadrena_names_open(words: &mut [u32], bytes: &[u8]) -> u32
    ensures { opening result words.new ≡ open_of words.old bytes.now }
{
    names_exports::mihadrena_names_open(words, bytes)
}

// A party asks for a name's number.
#[unsafe(no_mangle)]
pub extern "C" fn mihadrena_names_enter(
    words: &mut [u32],
    bytes: &mut [u8],
    party: u32,
    name: &[u8],
    number: &mut u32,
) -> u32
    ensures { entered result number.new words.new bytes.new ≡ entered_of (enter_of words.old bytes.old party name.now) }
{
    names_exports::mihadrena_names_enter(words, bytes, party, name, number)
}

// Where a number's name lies in `bytes`.
#[unsafe(no_mangle)]
pub extern "C" fn mihadrena_names_place(
    words: &[u32],
    bytes: &[u8],
    number: u32,
    start: &mut usize,
    end: &mut usize,
) -> u32
    ensures { (result ≡ mark_of words.now bytes.now number) × (placed start.new end.new ≡ place_of words.now bytes.now number) }
{
    names_exports::mihadrena_names_place(words, bytes, number, start, end)
}
