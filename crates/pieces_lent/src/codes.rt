// The numbers of the stages, and in an item of its phases. Each has its row in specs/Coding, in this order.

// between items, and before the first
pub const OPENING: u64 = 0;

pub const POUND: u64 = 1;

pub const FIRST_LINE: u64 = 2;

pub const IDLE: u64 = 3;

// after a pair of which one item was given, at the end of the text or at a character
pub const WAITING_END: u64 = 4;

pub const WAITING_CHAR: u64 = 5;

pub const STOPPED: u64 = 6;

// in an item, by its phase
pub const IN_LINE: u64 = 7;

pub const AFTER_COMMA: u64 = 8;

pub const AFTER_HASH: u64 = 9;

pub const AFTER_ANGLE: u64 = 10;

pub const HERE_DELIM: u64 = 11;

pub const HERE_START: u64 = 12;

pub const HERE_BODY: u64 = 13;

pub const IN_WORD: u64 = 14;

pub const WORD_ESCAPE: u64 = 15;

pub const IN_RUN: u64 = 16;

pub const IN_HASH: u64 = 17;

pub const HASH_ESCAPE: u64 = 18;

pub const HASH_TICK: u64 = 19;

pub const HASH_COMMA: u64 = 20;

pub const NEST: u64 = 21;

pub const NEST_BAR: u64 = 22;

pub const NEST_SHARP: u64 = 23;

pub const QUOTED: u64 = 24;

pub const CLOSED: u64 = 25;

pub const TRIM_BEFORE: u64 = 26;

pub const TRIM_AFTER: u64 = 27;

pub const ESCAPE: u64 = 28;

pub const BRACE: u64 = 29;

pub const HEX: u64 = 30;

// an item that is whole, by its outcome
pub const DONE_TOKEN: u64 = 31;

pub const DONE_STR: u64 = 32;

pub const DONE_HERE_STR: u64 = 33;

pub const DONE_WORD: u64 = 34;

pub const DONE_RUN: u64 = 35;

pub const DONE_LINED: u64 = 36;

pub const DONE_KEYWORD: u64 = 37;

pub const DONE_CHARACTER: u64 = 38;

pub const DONE_ERROR: u64 = 39;

pub const DONE_ERROR_AT: u64 = 40;

// how many there are
pub const STAGES: u64 = 41;

// The kinds of quotes.
pub const DOUBLE: u64 = 0;

pub const LINES: u64 = 1;

// The answers to a question.
pub const NO: u64 = 0;

pub const YES: u64 = 1;
