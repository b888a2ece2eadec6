// The numbers of a finding.

// How many words a finding has.
pub const FINDING_WORDS: usize = 7;

// Severities.
pub const WARNING: u32 = 1;

pub const ERROR: u32 = 2;

// W01: 412,5
pub const COMMA_NUMBER: u32 = 1;

// W02: 14.7m
pub const NUMBER_NAME: u32 = 2;

// W03: “a”
pub const TYPOGRAPHIC_QUOTE: u32 = 3;

// W04: −5
pub const TYPOGRAPHIC_DASH: u32 = 4;

// W05: a byte order mark
pub const INVISIBLE: u32 = 5;

// W06: a text that passes a line's end before a `(`
pub const SWALLOWING: u32 = 6;

// W07: 14.7;gps
pub const MODES_DIFFER: u32 = 7;

// ---- details

// most findings have none
pub const NO_FINDING_DETAIL: u32 = 0;

// E41: nothing is open; another bracket is
pub const STRAY: u32 = 0;

pub const CLOSES_ANOTHER: u32 = 1;

// E42: the dot itself is refused; something behind a dot is
pub const AT_DOT: u32 = 0;

pub const BEHIND_DOT: u32 = 1;

// Both ends of a second place that is not there.
pub const NOWHERE: u32 = 0;
