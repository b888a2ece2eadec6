// Document 01's blanks, Unicode's White_Space.
ghost use Rattle.std.specs.Prelude.{◌≡◌};
ghost use Rattle.chars.specs.Blank.{is_blank};

const BLANK_ROWS: usize = 25;

// White_Space as Unicode's PropList.txt lists it, in its order.
const BLANKS: [u32; BLANK_ROWS] = [
    0x0009, // tab
    0x000A, // line feed
    0x000B, // line tabulation
    0x000C, // form feed
    0x000D, // carriage return
    0x0020, // space
    0x0085, // next line
    0x00A0, // no-break space
    0x1680, // ogham space mark
    0x2000, // en quad
    0x2001, // em quad
    0x2002, // en space
    0x2003, // em space
    0x2004, // three-per-em space
    0x2005, // four-per-em space
    0x2006, // six-per-em space
    0x2007, // figure space
    0x2008, // punctuation space
    0x2009, // thin space
    0x200A, // hair space
    0x2028, // line separator
    0x2029, // paragraph separator
    0x202F, // narrow no-break space
    0x205F, // medium mathematical space
    0x3000, // ideographic space
];

// Whether a character is blank: whether the table has it.
pub fn is_blank(c: u32) -> bool
    ensures { result ≡ is_blank c }
{
    let table = BLANKS;
    for row in 0..BLANK_ROWS {
        if table[row] == c {
            return true;
        }
    }
    false
}
