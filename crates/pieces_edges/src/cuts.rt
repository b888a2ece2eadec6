// A cut inside every character of several bytes, and bytes that are no text. A line of their files has a name and a text.
use crate::cases::{Job, cases};
use crate::files::{field, newlines, put};
use crate::show;
use pieces_cuttings::{Cutting, part};
use std::io;
use std::rt::Files;

// More bytes than a text here has.
const REST: usize = 100;

// A byte from the first of these up to the second continues a character.
const CONTINUES: u8 = 0x80;

const STARTS: u8 = 0xC0;

// Whether a byte continues a character.
fn continues(byte: u8) -> bool {
    CONTINUES <= byte && byte < STARTS
}

// Reads a text in two pieces, cut at a place.
fn cut_at(rt: &impl Print, text: &[u8], at: usize) -> io::Result<()> {
    show::print(rt, b"cut at ")?;
    show::number(rt, at as u64)?;
    show::end_line(rt)?;
    let cutting = Cutting {
        first: at,
        low: REST,
        high: REST,
    };
    show::reading(rt, text, cutting, false)
}

// The same at each place inside a character.
fn each_cut(rt: &impl Print, text: &[u8]) -> io::Result<()> {
    for at in 0..text.len() {
        if continues(text[at]) {
            cut_at(rt, text, at)?;
        }
    }
    Ok(())
}

// The text of a line, cut at each such place.
pub(crate) fn cut_case(rt: &impl Print, line: &[u8]) -> io::Result<()> {
    let mut source = [0u8; REST];
    show::print(rt, field(line, 0))?;
    show::end_line(rt)?;
    let all = put(&mut source, 0, field(line, 1));
    newlines(&mut source);
    each_cut(rt, part(&source, 0, all))
}

// Beyond a string, as a word, in a string, in a comment, as a character; in a first line; blanks (U+0085, U+3000); in vertical lines, in a
// delimiter, in a nested comment, after a backslash.
pub(crate) fn characters(rt: &(impl Files + Print)) -> io::Result<()> {
    cases(rt, Job::Cut, "cut_inside")
}

// The text of a line, under a cutting.
pub(crate) fn read_case(rt: &impl Print, cutting: Cutting, line: &[u8]) -> io::Result<()> {
    show::print(rt, field(line, 0))?;
    show::end_line(rt)?;
    show::reading(rt, field(line, 1), cutting, false)
}

// Bytes after a bracket and a word that has not ended: the bracket is given, and the stop comes at the byte that shows it, a byte after
// which no valid text can follow.
pub(crate) fn not_utf8(rt: &(impl Files + Print), cutting: Cutting) -> io::Result<()> {
    cases(rt, Job::Read(cutting), "not_utf8")
}

// The same with a character that the end cuts, at each place.
pub(crate) fn cut_by_end(rt: &(impl Files + Print), cutting: Cutting) -> io::Result<()> {
    cases(rt, Job::Read(cutting), "cut_by_end")
}
