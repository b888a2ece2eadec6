// Lines as far as a list's shape on the page asks for them.
ghost use Rattle.std.specs.Prelude.{◌≡◌};
ghost use Rattle.findings.specs.Lines.{is_space, line_start, first_on_line};

use crate::rows;

// A space or a tab.
pub fn is_space(b: u8) -> bool
    ensures { result ≡ is_space b }
{
    matches!(b, b' ' | b'\t')
}

// Where the line of the place `to` starts, from where that of another place starts. Places rarely go back.
pub fn line_from(source: &[u8], from: usize, line: usize, to: usize) -> usize
    requires { line ≡ line_start source.now from }
    ensures { result ≡ line_start source.now to }
{
    let (first, mut start) = if to < from { (0, 0) } else { (from, line) };
    for i in first..to {
        if rows::byte_at(source, i) == b'\n' {
            start = i + 1;
        }
    }
    start
}

// Whether only spaces and tabs stand before a place in its line.
pub fn first_on_line(source: &[u8], a: usize) -> bool
    ensures { result ≡ first_on_line source.now a }
{
    for i in (0..a).rev() {
        let b = rows::byte_at(source, i);
        if b == b'\n' {
            return true;
        }
        if !is_space(b) {
            return false;
        }
    }
    true
}
