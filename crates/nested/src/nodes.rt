// The kinds of nodes, each with the smallest text that makes it.

// #t
pub const NODE_BOOLEAN: u32 = 0;

// 1
pub const NODE_NUMBER: u32 = 1;

// #\a
pub const NODE_CHARACTER: u32 = 2;

// ""
pub const NODE_STRING: u32 = 3;

// an identifier, a keyword or a word such as if: a
pub const NODE_SYMBOL: u32 = 4;

// ()
pub const NODE_LIST: u32 = 5;

// (a . a)
pub const NODE_DOTTED_LIST: u32 = 6;

// #()
pub const NODE_VECTOR: u32 = 7;

// #u8()
pub const NODE_BYTE_LIST: u32 = 8;

// a quoting mark with its datum; its item tells which of the eight: 'a
pub const NODE_MARK: u32 = 9;

// the whole text, and what is dropped, give no node
pub const NO_KIND: u32 = 0;

// How many words a node has: its kind, its item, how many nodes lie beneath it.
pub const NODE_WORDS: usize = 3;
