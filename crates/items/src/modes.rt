// The modes in which a text is read; specs/Whole has them for the definitions.
pub const PLAIN: u32 = 0;

pub const REPORT: u32 = 1;
