// The kind of a word by its bytes (document 01, "An item"). Reads the bytes of a word whose extent
// is known, and answers what the `match` of the Rust's `read_word` does. Internal: used by the lexer and the pieces.
ghost use Rattle.std.specs.Prelude.{◌≡◌, if◌then◌else◌};
ghost use Rattle.laws.specs.Texts.{same};
ghost use Rattle.items.specs.Kinds as kinds;
ghost use Rattle.items.specs.Meaning.{word_kind};

use byte_runs::equal;
use items::kinds::{
    BEGIN, DEFINE, DEFINE_SYNTAX, DOT, ELLIPSES, IDENTIFIER, IF, LAMBDA, LET, QUOTE, REQUIRE,
    RETURN, SET, SYNTAX_RULES, TEST_LET,
};

// λ in UTF-8.
const LAMBDA_SIGN: [u8; 2] = [0xCE, 0xBB];

// The first byte of it.
const LAMBDA_FIRST: u8 = 0xCE;

// The kind of a word that is spelled as this row of the table is, else `other`.
fn row(raw: &[u8], word: &[u8], kind: u32, other: u32) -> u32
    ensures { result ≡ (if same raw.now word.now then kind else other) }
{
    if equal(raw, word) {
        return kind;
    }
    other
}

// The kind of a word that may be spelled as one row is.
fn only(raw: &[u8], word: &[u8], kind: u32) -> u32
    ensures { result ≡ (if same raw.now word.now then kind else kinds.Identifier) }
{
    row(raw, word, kind, IDENTIFIER)
}

// The kind of a word that may be spelled as one of two rows is.
fn either(raw: &[u8], word: &[u8], kind: u32, other: &[u8], its: u32) -> u32
    ensures { result ≡ (if same raw.now word.now then kind else if same raw.now other.now then its else kinds.Identifier) }
{
    row(raw, word, kind, only(raw, other, its))
}

// The kind of a word. A row of the table is tried only where the word begins as it does; what has no row is an identifier.
pub fn word_kind(raw: &[u8]) -> u32
    ensures { result ≡ word_kind raw.now }
{
    if raw.len() == 0 {
        return IDENTIFIER;
    }
    let first = raw[0];
    match first {
        b'.' => either(raw, b".", DOT, b"...", ELLIPSES),
        b'i' => only(raw, b"if", IF),
        b'l' => either(raw, b"let", LET, b"lambda", LAMBDA),
        b'd' => row(
            raw,
            b"define",
            DEFINE,
            either(raw, b"defn", DEFINE, b"define-syntax", DEFINE_SYNTAX),
        ),
        b'#' => either(raw, b"#%define", DEFINE, b"#%plain-lambda", LAMBDA),
        b'%' => only(raw, b"%plain-let", TEST_LET),
        b'r' => either(raw, b"return!", RETURN, b"require", REQUIRE),
        b'b' => only(raw, b"begin", BEGIN),
        b'f' => only(raw, b"fn", LAMBDA),
        LAMBDA_FIRST => only(raw, &LAMBDA_SIGN, LAMBDA),
        b'q' => only(raw, b"quote", QUOTE),
        b's' => either(raw, b"syntax-rules", SYNTAX_RULES, b"set!", SET),
        _ => IDENTIFIER,
    }
}
