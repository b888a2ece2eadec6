// The calls about UTF-8 and blanks.
ghost use Rattle.std.specs.Prelude.{◌≡◌, length, drop};
ghost use Rattle.chars.specs.Utf8.{placed, front, first_bad};
ghost use Rattle.chars.specs.Blank.{is_blank};
ghost use Rattle.chars.specs.Encode.{encode, lay, laid};
ghost use Rattle.exports.specs.Utf8.{good_bytes, code_or, next_or};

// How many bytes of a text are good UTF-8: all of them, or those before its first bad sequence.
#[unsafe(no_mangle)]
pub extern "C" fn mihadrena_good_bytes(text: &[u8]) -> usize
    ensures { result ≡ good_bytes (length text.now) (first_bad text.now) }
{
    exports::mihadrena_good_bytes(text)
}

// The code point of the character at a place, or that the bytes there are bad, cut by the end, or none.
#[unsafe(no_mangle)]
pub extern "C" fn mihadrena_code_at(text: &[u8], at: usize) -> u32
    ensures { result ≡ code_or (placed at (front (drop at text.now))) }
{
    exports::mihadrena_code_at(text, at)
}

// The place past the character at a place; that place itself where no character stands.
#[unsafe(no_mangle)]
pub extern "C" fn mihadrena_next_at(text: &[u8], at: usize) -> usize
    ensures { result ≡ next_or at (placed at (front (drop at text.now))) }
{
    exports::mihadrena_next_at(text, at)
}

// Whether a character is blank.
#[unsafe(no_mangle)]
pub extern "C" fn mihadrena_is_blank(code: u32) -> bool
    ensures { result ≡ is_blank code }
{
    exports::mihadrena_is_blank(code)
}

// Writes a character's bytes at the front of `text`; answers how many, 0 for no character or too little room.
#[unsafe(no_mangle)]
pub extern "C" fn mihadrena_put_char(code: u32, text: &mut [u8]) -> usize
    ensures { (result ≡ laid (encode code) text.old) × (text.new ≡ lay (encode code) text.old) }
{
    exports::mihadrena_put_char(code, text)
}
