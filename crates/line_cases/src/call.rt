// The form of a single call.
use lines::{Cursor, LogicalLine};
use listing::{print, show};
use std::io;

// One call at a cursor, with the first `size` bytes of a buffer of dots.
pub fn call(
    rt: &impl Print,
    name: &str,
    file: &[u8],
    cursor: Cursor,
    size: usize,
) -> io::Result<()> {
    let mut buffer = [b'.'; 5000];
    match buffer.get_mut(..size) {
        Some(part) => {
            println!(rt; "{name}")?;
            call_with(rt, file, cursor, part)
        }
        None => Ok(()),
    }
}

// Prints the answer, and the first 8 bytes of the buffer.
fn call_with(rt: &impl Print, file: &[u8], cursor: Cursor, buffer: &mut [u8]) -> io::Result<()> {
    match lines::next_line(file, cursor, buffer) {
        Ok(
            Some(
                LogicalLine {
                    length,
                    first,
                    next,
                },
            ),
        ) => println!(rt; "{first} {length}, then {} {}", next.offset, next.line)?,
        Ok(None) => println!(rt; "end")?,
        Err(e) => println!(rt; "{e}")?,
    }
    print(rt, show::front(buffer, 8))?;
    println!(rt)
}
