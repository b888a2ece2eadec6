// The numbers that calls answer, each once: what they give where they serve, and the refusals, in place of what was asked for.
// specs/Refusals has the same numbers for the definitions, include/mihadrena.h for C. It has no code.
#![tactic(auto)]

// ---- what a call answers that was not refused

// what was asked for is done
pub const SERVED: u32 = 0;

// an item is given
pub const ITEM: u32 = 10;

// the piece was taken, and no item is ready
pub const MORE: u32 = 11;

// all items were given
pub const FINISHED: u32 = 12;

// ---- the reader: document 01, "Refused calls"

// the text exceeds LIMIT bytes; comes with LIMIT
pub const TOO_LONG: u32 = 20;

// bytes aren't UTF-8; with the start of the first bad sequence
pub const NOT_UTF8: u32 = 21;

// records, words or text memory are too few; with what is needed
pub const TOO_FEW: u32 = 22;

// in pieces, an item grows too long; with its start
pub const LONG_ITEM: u32 = 23;

// in pieces, the text memory is too short
pub const LITTLE_TEXT: u32 = 24;

// the mode is neither plain nor report; with the mode
pub const NO_MODE: u32 = 25;

// a piece after the declared end
pub const AFTER_END: u32 = 26;

// a state, a position, a text, an extent or a table outside its bounds
pub const OUT_OF_BOUNDS: u32 = 27;

// How many bytes a text has at most.
pub const LIMIT: usize = 4294967295;

// The same as a value, which TOO_LONG comes with.
pub const LIMIT_VALUE: u64 = LIMIT as u64;

// ---- coordinates

// the text is not one decimal, or has too many digits or too large an exponent
pub const NO_COORDINATE: u32 = 28;

// ---- item files; the reader's with the number in the file, the writer's with the record

// a number, or the item, is cut short
pub const CUT_SHORT: u32 = 29;

// a number longer than needed, over 32 bits, or with a fifth group that goes on
pub const WRONG_NUMBER: u32 = 30;

// a start or an end over 32 bits
pub const OVER_SUM: u32 = 31;

// an item that starts before the one before it, or whose extent, place or text ends before it starts
pub const GOES_BACK: u32 = 32;

// ---- line and column

// the line starts, or the answers, don't fit; with the number needed
pub const LINES_NO_ROOM: u32 = 33;

// the place lies past the end or inside a character; with the place
pub const NO_PLACE: u32 = 34;

// ---- names

// the party is neither 0 nor 1
pub const NO_PARTY: u32 = 35;

// the name is absent, and the party's own half lacks the entry or the bytes
pub const NO_ROOM: u32 = 36;

// there is no name of this number
pub const NO_NAME: u32 = 37;

// ---- many fields in one call

// the ends go back or pass the source; with 0
pub const BAD_ENDS: u32 = 38;

// ---- the number call

// the choice of reader is none
pub const UNKNOWN_CHOICE: u32 = 39;

// ---- nested lists; each with its record

// the end with a bracket open: (
pub const BRACKET_OPEN: u32 = 40;

// a wrong or stray close: )
pub const WRONG_CLOSE: u32 = 41;

// a dot outside a round, square or curly list, a second one, or one without data on both sides: .
pub const MISPLACED_DOT: u32 = 42;

// a close, a dot or the end where a mark waits for its datum: '
pub const MARK_WAITS: u32 = 43;

// a level inside 64 others
pub const TOO_DEEP: u32 = 44;

// an error item: ##
pub const ERROR_ITEM: u32 = 45;

// the nodes do not fit; with 0
pub const FEW_NODES: u32 = 46;

// ---- writing a plan back

// an error or comment item, which is not written; with its record
pub const UNWRITTEN: u32 = 47;

// ---- what is lent is not what it should be

// a kind or a detail that no record has, an extent or a text that is not whole characters of what is lent; an index that is not the text's
pub const ALIEN: u32 = 48;
