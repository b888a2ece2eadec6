// The cases lie in files, a line for each: fields between tabs, the first of them the case's name, and `$` for a newline in a text.
ghost use Rattle.std.specs.Prelude.{◌≡◌, ◌+◌, ◌%◌, ◌^◌, map, drop, slice_index};
ghost use Rattle.laws.specs.Quoted.{code};
ghost use Rattle.laws.specs.Texts.{before};
ghost use Rattle.std.specs.Io.{ReadsAtMost};
ghost use Rattle.pieces_cuttings.specs.Parts.{part_of};
ghost use Rattle.pieces_edges.specs.Fields.{still_of, past_tabs, field_of, real_of, put_at, past_put};

use byte_runs::find;
use inputs::read_full;
use pieces_cuttings::{copy, part};
use std::rt::Files;
use std::{fs, io};

// What stands for a newline in a text.
const FOR_NEWLINE: u8 = b'$';

// More bytes than a file has.
pub const FILE_ROOM: usize = 2048;

// More lines than a file has.
pub const MOST_LINES: u32 = 1000;

// Reads a file to the front of a memory; how many bytes it has.
pub fn load(rt: &impl Files, name: &str, file: &mut [u8]) -> io::Result<usize>
    ensures { ReadsAtMost result file.new }
{
    let mut from = fs::open(rt, name)?;
    read_full(&mut from, file)
}

// The line that starts at a place.
pub fn line(file: &[u8], at: usize) -> &[u8]
    ensures { result.now ≡ part_of file.now at (at + before (code "\n") (drop at file.now)) }
{
    part(file, at, find(file, at, b'\n'))
}

// The place past a line.
pub fn past_line(file: &[u8], at: usize) -> usize
    ensures { result ≡ (at + before (code "\n") (drop at file.now) + 1) % 2 ^ 64 }
{
    std::num::wrapping_add_usize(find(file, at, b'\n'), 1)
}

// How many of so many tabs are left to pass after a byte.
fn still(tabs: u32, byte: u8) -> u32
    ensures { result ≡ still_of tabs byte }
{
    if byte == b'\t' {
        tabs.saturating_sub(1)
    } else {
        tabs
    }
}

// The place in a line past so many tabs.
fn past_tabs(line: &[u8], tabs: u32) -> usize
    ensures { result ≡ past_tabs tabs line.now }
{
    let mut left = tabs;
    for i in 0..line.len() {
        if left == 0 {
            return i;
        }
        left = still(left, line[i]);
    }
    line.len()
}

// The field of a line after so many tabs.
pub fn field(line: &[u8], tabs: u32) -> &[u8]
    ensures { result.now ≡ field_of line.now tabs }
{
    let from = past_tabs(line, tabs);
    part(line, from, find(line, from, b'\t'))
}

// The first byte of a field.
pub fn first(field: &[u8]) -> u8
    ensures { result ≡ slice_index field.now 0 }
{
    field.first().copied().unwrap_or(0)
}

// Writes bytes from a place on, as far as there is room; the place past them.
pub fn put(source: &mut [u8], at: usize, bytes: &[u8]) -> usize
    ensures { (result ≡ past_put source.old at bytes.now)
        × (source.new ≡ put_at source.old at bytes.now) }
{
    if source.len() < at {
        return at;
    }
    copy(bytes, &mut source[at..]);
    std::num::wrapping_add_usize(at, bytes.len())
}

// What a byte stands for.
fn real(byte: u8) -> u8
    ensures { result ≡ real_of byte }
{
    if byte == FOR_NEWLINE { b'\n' } else { byte }
}

// Puts the newlines in.
pub fn newlines(source: &mut [u8])
    ensures { source.new ≡ map real_of source.old }
{
    for i in 0..source.len() {
        let byte = real(source[i]);
        source[i] = byte;
    }
}
