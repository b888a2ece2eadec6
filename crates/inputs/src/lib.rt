// Reads an input until a memory is full or the input ends: an aid of the programs that run the calls on files, and no part of the reader.
#![tactic(auto)]

ghost use Rattle.std.specs.Io.{ReadsAtMost};

use std::io;
use std::io::Read;

// Reads until a memory is full or the input ends; how many bytes were read to its front.
pub fn read_full<R: Read>(from: &mut R, memory: &mut [u8]) -> io::Result<usize>
    ensures { ReadsAtMost result memory.new }
{
    let mut done = 0;
    while done < memory.len() {
        let n = from.read(&mut memory[done..])?;
        if n == 0 {
            break;
        }
        done += n;
    }
    Ok(done)
}
