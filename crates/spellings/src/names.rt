// The names of characters: R7RS 7.1.1, <character name>. "Keep the nine names as rows of one table, nine bytes each" (document 01).
ghost use Rattle.std.specs.Prelude.{◌≡◌, map, ◌<◌};
ghost use Rattle.laws.specs.Texts.{same};
ghost use Rattle.items.specs.Meaning.{lower, lookup, char_names, unnamed};
ghost use Rattle.spellings.specs.Names.{padded, name_of, code_of};

use byte_runs::find;

const NAME_ROWS: usize = 9;

// Nine rows of nine bytes; shorter names are padded.
const NAMES: [[u8; 9]; 9] = [
    *b"alarm\0\0\0\0",
    *b"backspace",
    *b"delete\0\0\0",
    *b"escape\0\0\0",
    *b"newline\0\0",
    *b"null\0\0\0\0\0",
    *b"return\0\0\0",
    *b"space\0\0\0\0",
    *b"tab\0\0\0\0\0\0",
];

const PADDING: u8 = b'\0';

// The characters that they name, row by row.
const CODES: [u32; 9] = [0x07, 0x08, 0x7F, 0x1B, 0x0A, 0x00, 0x0D, 0x20, 0x09];

// What no name stands for.
pub const UNNAMED: u32 = 0x80;

// What a letter of ASCII in upper case lacks to its lower case.
const TO_LOWER: u8 = 32;

// A row of the table.
fn name_row(k: usize) -> [u8; 9]
    requires { k < 9 }
    ensures { result ≡ padded (name_of k) }
{
    NAMES[k]
}

// The character that a row names.
fn row_code(k: usize) -> u32
    requires { k < 9 }
    ensures { result ≡ code_of k }
{
    CODES[k]
}

// ASCII's lower case.
fn lower_case(b: u8) -> u8
    ensures { result ≡ lower b }
{
    if b < b'A' {
        return b;
    }
    if b'Z' < b {
        return b;
    }
    b + TO_LOWER
}

// Whether a text is a name, which is in lower case, without regard to ASCII case.
fn equal_lower(t: &[u8], name: &[u8]) -> bool
    ensures { result ≡ same (map lower t.now) name.now }
{
    if t.len() != name.len() {
        return false;
    }
    for i in 0..t.len() {
        if lower_case(t[i]) != name[i] {
            return false;
        }
    }
    true
}

// Whether a text is the name of a row, of which its own length is compared. Of most rows the first letter tells that it is not.
fn is_name(t: &[u8], k: usize) -> bool
    requires { k < 9 }
    ensures { result ≡ same (map lower t.now) (name_of k) }
{
    let row = name_row(k);
    if 0 < t.len() && lower_case(t[0]) != row[0] {
        return false;
    }
    let length = find(&row, 0, PADDING);
    equal_lower(t, &row[..length])
}

// The character that a text names, or UNNAMED. A letter by itself is no name.
pub fn name_code(t: &[u8]) -> u32
    ensures { result ≡ lookup char_names (map lower t.now) unnamed }
{
    if t.len() <= 1 {
        return UNNAMED;
    }
    for k in 0..NAME_ROWS {
        if is_name(t, k) {
            return row_code(k);
        }
    }
    UNNAMED
}
