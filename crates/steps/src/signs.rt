// The characters that mean something somewhere, by name.

pub const TAB: u32 = b'\t' as u32;

pub const NEWLINE: u32 = b'\n' as u32;

pub const CARRIAGE_RETURN: u32 = b'\r' as u32;

pub const SPACE: u32 = b' ' as u32;

pub const BANG: u32 = b'!' as u32;

pub const DOUBLE_QUOTE: u32 = b'"' as u32;

pub const HASH: u32 = b'#' as u32;

pub const TICK: u32 = b'\'' as u32;

pub const OPEN_ROUND: u32 = b'(' as u32;

pub const CLOSE_ROUND: u32 = b')' as u32;

pub const PLUS: u32 = b'+' as u32;

pub const COMMA: u32 = b',' as u32;

pub const MINUS: u32 = b'-' as u32;

pub const PERIOD: u32 = b'.' as u32;

pub const SLASH: u32 = b'/' as u32;

pub const ZERO: u32 = b'0' as u32;

pub const NINE: u32 = b'9' as u32;

pub const SEMICOLON: u32 = b';' as u32;

pub const LESS: u32 = b'<' as u32;

pub const AT: u32 = b'@' as u32;

pub const UPPER_A: u32 = b'A' as u32;

pub const UPPER_B: u32 = b'B' as u32;

pub const UPPER_C: u32 = b'C' as u32;

pub const UPPER_D: u32 = b'D' as u32;

pub const UPPER_E: u32 = b'E' as u32;

pub const UPPER_F: u32 = b'F' as u32;

pub const UPPER_O: u32 = b'O' as u32;

pub const UPPER_X: u32 = b'X' as u32;

pub const OPEN_SQUARE: u32 = b'[' as u32;

pub const BACKSLASH: u32 = b'\\' as u32;

pub const CLOSE_SQUARE: u32 = b']' as u32;

pub const BACKTICK: u32 = b'`' as u32;

pub const LOWER_A: u32 = b'a' as u32;

pub const LOWER_B: u32 = b'b' as u32;

pub const LOWER_C: u32 = b'c' as u32;

pub const LOWER_D: u32 = b'd' as u32;

pub const LOWER_E: u32 = b'e' as u32;

pub const LOWER_F: u32 = b'f' as u32;

pub const LOWER_I: u32 = b'i' as u32;

pub const LOWER_N: u32 = b'n' as u32;

pub const LOWER_O: u32 = b'o' as u32;

pub const LOWER_R: u32 = b'r' as u32;

pub const LOWER_T: u32 = b't' as u32;

pub const LOWER_U: u32 = b'u' as u32;

pub const LOWER_X: u32 = b'x' as u32;

pub const OPEN_CURLY: u32 = b'{' as u32;

pub const VERTICAL: u32 = b'|' as u32;

pub const CLOSE_CURLY: u32 = b'}' as u32;
