// What an item's bytes spell: the kind of a word, and the character that stands after `#\`. Both read the bytes of an item whose extent is
// known. Internal: used by the lexer and the pieces.
#![tactic(auto)]

pub mod characters;
pub mod failing;
mod names;
pub mod words;
