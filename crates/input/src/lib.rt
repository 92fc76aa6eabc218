// Reads all of an input into a buffer of the caller's, in however small pieces it arrives.
#![tactic(auto)]

ghost use Rattle.std.specs.Prelude.{length, IfOk};
ghost use Rattle.std.specs.Io.{ReadsAtMost};
ghost use Rattle.input.specs.Inputs.{Inside};

use std::io;
use std::io::{ErrorKind, Read};

#[derive(Clone, Copy, Debug, PartialEq, Eq)]
pub enum Input {
    // All of it, so many bytes at the front of the buffer.
    Whole(usize),
    // More than the buffer holds.
    Longer,
}

// How often a read that a signal has interrupted is tried again. Nothing says that signals end.
const TRIES: usize = 1000;

// One read, again where a signal has interrupted it: no byte at the end of the input.
fn read_some<R: Read>(reader: &mut R, part: &mut [u8]) -> io::Result<usize>
    ensures { ReadsAtMost result part.new }
{
    for _ in 0..TRIES {
        match reader.read(part) {
            Err(e) if e.kind() == ErrorKind::Interrupted => {}
            got => return got,
        }
    }
    reader.read(part)
}

// Reads until the buffer is full or the input ends, and answers how many bytes stand at the front of the buffer.
pub fn read_full<R: Read>(reader: &mut R, buffer: &mut [u8]) -> io::Result<usize>
    ensures { ReadsAtMost result buffer.new }
{
    let mut done = 0;
    while done < buffer.len() {
        let count = read_some(reader, &mut buffer[done..])?;
        if count == 0 {
            return Ok(done);
        }
        done += count;
    }
    Ok(done)
}

// What comes behind a full buffer.
fn behind_full<R: Read>(reader: &mut R, length: usize) -> io::Result<Input>
    ensures { IfOk result (Inside length) }
{
    match read_some(reader, &mut [0u8; 1])? {
        0 => Ok(Input::Whole(length)),
        _ => Ok(Input::Longer),
    }
}

// Reads an input until its end.
pub fn read_input<R: Read>(reader: &mut R, buffer: &mut [u8]) -> io::Result<Input>
    ensures { IfOk result (Inside (length buffer.new)) }
{
    let done = read_full(reader, buffer)?;
    if done < buffer.len() {
        return Ok(Input::Whole(done));
    }
    behind_full(reader, buffer.len())
}
