// Words that start with `#`: `read_hash_value`.
ghost use Rattle.std.specs.Prelude.{◌≡◌, eqb, if◌then◌else◌};
ghost use Rattle.laws.specs.Quoted.{code};
ghost use Rattle.items.specs.Classes.{after_hash, ends_hash, in_hash};
ghost use Rattle.items.specs.Readers.{bool_kind, quote_kind, form_kind, or_else, hash_kind};
ghost use Rattle.items.specs.Machine.{hash_then, hash_last, on_hash, on_after_hash};

use crate::signs::*;
use crate::words::enter_word;
use byte_runs::{begins_with, equal};
use chars::is_blank;
use items::{CHARACTER_MARK, HashKind, Next, Outcome, Phase, kinds};

// A token of a kind, decided.
fn decided(kind: u32, detail: u32) -> HashKind
    ensures { result ≡ HashKind.Decided (Outcome.Token kind detail) }
{
    HashKind::Decided(Outcome::Token(kind, detail))
}

// Whether a word is a boolean.
fn bool_kind(raw: &[u8]) -> HashKind
    ensures { result ≡ bool_kind raw.now }
{
    if equal(raw, b"#true") {
        return decided(kinds::BOOLEAN_LITERAL, kinds::TRUE);
    }
    if equal(raw, b"#t") {
        return decided(kinds::BOOLEAN_LITERAL, kinds::TRUE);
    }
    if equal(raw, b"#false") {
        return decided(kinds::BOOLEAN_LITERAL, kinds::FALSE);
    }
    if equal(raw, b"#f") {
        return decided(kinds::BOOLEAN_LITERAL, kinds::FALSE);
    }
    HashKind::Undecided
}

// Whether a word is one of the marks that quote syntax.
fn quote_kind(raw: &[u8]) -> HashKind
    ensures { result ≡ quote_kind raw.now }
{
    if equal(raw, b"#'") {
        return decided(kinds::QUOTE_SYNTAX, kinds::NO_DETAIL);
    }
    if equal(raw, b"#`") {
        return decided(kinds::QUASI_QUOTE_SYNTAX, kinds::NO_DETAIL);
    }
    if equal(raw, b"#,") {
        return decided(kinds::UNQUOTE_SYNTAX, kinds::NO_DETAIL);
    }
    if equal(raw, b"#,@") {
        return decided(kinds::UNQUOTE_SPLICE_SYNTAX, kinds::NO_DETAIL);
    }
    HashKind::Undecided
}

// Whether a word is a keyword, a character or what stands before a bracket.
fn form_kind(raw: &[u8]) -> HashKind
    ensures { result ≡ form_kind raw.now }
{
    if begins_with(raw, b"#:") {
        return HashKind::Decided(Outcome::Keyword);
    }
    if begins_with(raw, b"#\\") {
        if raw.len() <= CHARACTER_MARK {
            return HashKind::Decided(Outcome::Error(kinds::INVALID_CHARACTER, kinds::NO_DETAIL));
        }
        return HashKind::Decided(Outcome::Character);
    }
    if equal(raw, b"#") {
        return HashKind::Bracket(kinds::VECTOR);
    }
    if equal(raw, b"#u8") {
        return HashKind::Bracket(kinds::BYTES);
    }
    HashKind::Undecided
}

// The first of two that is decided.
fn or_else(first: HashKind, second: HashKind) -> HashKind
    ensures { result ≡ or_else first second }
{
    match first {
        HashKind::Decided(o) => HashKind::Decided(o),
        HashKind::Bracket(d) => HashKind::Bracket(d),
        HashKind::Undecided => second,
    }
}

// What a word that starts with `#` is by its bytes.
pub(crate) fn hash_kind(raw: &[u8]) -> HashKind
    ensures { result ≡ hash_kind raw.now }
{
    or_else(bool_kind(raw), or_else(quote_kind(raw), form_kind(raw)))
}

// The character after such a word.
pub(crate) fn hash_then(kind: HashKind, c: u32) -> Next
    ensures { result ≡ hash_then kind c }
{
    match kind {
        HashKind::Decided(o) => Next::Stop(o),
        HashKind::Bracket(detail) => {
            if c == OPEN_ROUND {
                return Next::Eat(Phase::Done(Outcome::Token(kinds::OPEN_PAREN, detail)));
            }
            enter_word(c)
        }
        HashKind::Undecided => enter_word(c),
    }
}

// What such a word is where the text ends after it.
pub(crate) fn hash_last(kind: HashKind) -> Outcome
    ensures { result ≡ hash_last kind }
{
    match kind {
        HashKind::Decided(o) => o,
        HashKind::Bracket(_) => Outcome::Word,
        HashKind::Undecided => Outcome::Word,
    }
}

// Whether a character ends such a word.
fn ends_hash(c: u32) -> bool
    ensures { result ≡ ends_hash c }
{
    match c {
        OPEN_ROUND | OPEN_SQUARE => true,
        CLOSE_ROUND | CLOSE_SQUARE => true,
        _ => is_blank(c),
    }
}

// In a word that starts with `#`: `read_hash_value`.
pub(crate) fn read_hash_value(raw: &[u8], c: u32) -> Next
    ensures { result ≡ on_hash (in_hash c) raw.now c }
{
    match c {
        BACKSLASH => Next::Eat(Phase::HashEscape),
        TICK | BACKTICK => Next::Eat(Phase::HashTick),
        COMMA => Next::Eat(Phase::HashComma),
        _ => {
            if ends_hash(c) {
                return hash_then(hash_kind(raw), c);
            }
            Next::Eat(Phase::InHash)
        }
    }
}

// After `#`.
pub(crate) fn after_hash(raw: &[u8], c: u32) -> Next
    ensures { result ≡ on_after_hash (after_hash c) raw.now c }
{
    match c {
        LOWER_X | LOWER_D | LOWER_O | LOWER_B => Next::Eat(Phase::InRun),
        UPPER_X | UPPER_D | UPPER_O | UPPER_B => Next::Eat(Phase::InRun),
        VERTICAL => Next::Eat(Phase::Nest(1)),
        SEMICOLON => Next::Eat(Phase::Done(Outcome::Token(kinds::DATUM_COMMENT, kinds::NO_DETAIL))),
        HASH => Next::Eat(Phase::Done(Outcome::Error(kinds::UNEXPECTED_CHAR, c))),
        LESS => Next::Eat(Phase::AfterAngle),
        _ => read_hash_value(raw, c),
    }
}

// After a comma in a word that starts with `#`: an at sign belongs to it.
pub(crate) fn hash_comma(raw: &[u8], c: u32) -> Next
    ensures { result ≡ (if eqb c (code "@") then Next.Eat Phase.HashTick else hash_then (hash_kind raw.now) c) }
{
    if c == AT {
        return Next::Eat(Phase::HashTick);
    }
    hash_then(hash_kind(raw), c)
}
