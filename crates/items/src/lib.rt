// What the reader speaks of: what an item turned out to be, where in an item the machine stands, and what a character does there.
//
// The definition of the items of a text, which is what a reviewer must believe, stands in specs/: Kinds, Classes, Readers, Meaning, Items,
// Whole, with 01's examples in Examples. The machine, in specs/Machine and specs/Run, is a means of proof: of public contracts only those
// of the piece calls cite it, for states that no call made. proofs/ shows that it gives exactly the definition's items, however a text is
// cut. The code of its steps is in crate `steps`. `kinds` has the numbers of kinds, errors, details and text sources for all code, `modes`
// has the modes.
#![tactic(auto)]

pub mod kinds;
pub mod modes;

// How many words a record has.
pub const RECORD_WORDS: usize = 10;

// How many bytes what opens or closes quotes is.
pub const QUOTE_LENGTH: usize = 1;

// How many bytes a boolean of one letter is.
pub const BOOLEAN_LENGTH: usize = 2;

// How many bytes stand before a character or its name: #\
pub const CHARACTER_MARK: usize = 2;

// What stands between quotes.
#[derive(Clone, Copy)]
pub enum Quotes {
    // a string: "a"
    Double,
    // an identifier in vertical lines: |a|
    Lines,
}

// What an item turned out to be, once its extent is known. Kind, detail and text follow from this and the extent's bytes.
#[derive(Clone, Copy)]
pub enum Outcome {
    // a kind and its detail, with no text: (
    Token(u32, u32),
    // a string: "a"
    Str,
    // a here-string: #<<end
    HereStr,
    // a word: if, foo, +foo
    Word,
    // a number run, a word where it is no number: 14.7
    Run,
    // an identifier wholly in vertical lines: |a b|
    Lined,
    // #:name
    Keyword,
    // #\a
    Character,
    // an error's number and detail; it sets no range: |a
    Error(u32, u32),
    // the same, and the range that it sets: "\q"
    ErrorAt(u32, u32, usize, usize),
}

// Where in an item the machine stands.
#[derive(Clone, Copy)]
pub enum Phase {
    // in a comment to the end of the line: ;
    InLine,
    // after ,
    AfterComma,
    // after #
    AfterHash,
    // after #<
    AfterAngle,
    // in the delimiter of a here-string: #<<en
    HereDelim,
    // after the newline that ends the delimiter: the body starts here
    HereStart,
    // in the body, after a character of it
    HereBody,
    // in a word: fo
    InWord,
    // after a backslash in a word: fo\
    WordEscape,
    // in a number run: 14.
    InRun,
    // in a word that starts with #: #tr
    InHash,
    // after a backslash in one: #\
    HashEscape,
    // after a mark that ends one: #'
    HashTick,
    // after a comma in one: #,
    HashComma,
    // in a nested comment, this deep: #|
    Nest(usize),
    // after | in one
    NestBar(usize),
    // after # in one
    NestSharp(usize),
    // in quotes: "a
    Quoted(Quotes),
    // after the closing quote: "a"
    Closed(Quotes),
    // after a backslash in quotes and a blank: its newline is to come
    TrimBefore(Quotes),
    // after that newline, in the blanks of the next line
    TrimAfter(Quotes),
    // after the backslash at this place: "\
    Escape(Quotes, usize),
    // after \u: "\u
    Brace(Quotes, usize),
    // in the digits of a hex escape: what closes it, the place of its backslash, and how many bytes of the item stand before
    // the digits: "\x4
    Hex(Quotes, u32, usize, usize),
    // the item is whole, and ends before the next character
    Done(Outcome),
}

// What a character does in a phase: it belongs to the item, which is then in another phase; or the item ended before it. An item
// is known to be whole only when a character beyond it has been seen, or the end: the quote that closes a string is eaten into the
// phase `Closed`, which stops before the next character.
#[derive(Clone, Copy)]
pub enum Next {
    Eat(Phase),
    Stop(Outcome),
}

// What a word that starts with # is by its bytes.
#[derive(Clone, Copy)]
pub enum HashKind {
    // #t
    Decided(Outcome),
    // # and #u8, if a round bracket follows: the bracket's detail
    Bracket(u32),
    // #foo
    Undecided,
}

// Why some digits or a name stand for no character.
#[derive(Clone, Copy)]
pub enum CharError {
    // an error's number and detail
    Wrong(u32, u32),
    // the same, and how many bytes stand before the place where it fails
    WrongAt(u32, u32, usize),
}

// An item in nine words, as document 01 lays them out.
#[derive(Clone, Copy)]
pub struct Nine {
    // the kind, or 100 plus an error's number
    pub kind: u32,
    pub detail: u32,
    // the extent
    pub start: u32,
    pub end: u32,
    // the place: the extent, or for an error the last range set
    pub from: u32,
    pub to: u32,
    // where the text lies: 0 nowhere, 1 in the source, 2 in the text memory; and its places there
    pub source: u32,
    pub first: u32,
    pub past: u32,
}

// A record: those nine words, and how many brackets are open before the item.
#[derive(Clone, Copy)]
pub struct Record {
    pub nine: Nine,
    pub depth: u32,
}
