// Prints answers, what the check of a file and its reading line by line give, and the texts of test cases; and reads
// cases that stand in standard input.
#![tactic(auto)]

mod files;
pub mod notation;
pub mod show;
mod stdin;
pub mod tables;
pub mod text_cases;
mod texts;

pub use files::{cases, long_case, start_cases};
use lines::{Cursor, LogicalLine};
use std::io;
pub use stdin::{each_case, with_file};
pub use texts::lay_apart;

pub fn print(rt: &impl Print, text: &[u8]) -> io::Result<()> {
    rt.write_all(text)
}

// A line: its number, its length and its bytes, or the first 20 where it has more than `most`.
fn print_line(rt: &impl Print, line: LogicalLine, buffer: &[u8], most: usize) -> io::Result<()> {
    print!(rt; "{} {}:", line.first, line.length)?;
    if line.length <= most {
        print(rt, show::front(buffer, line.length))?;
    } else {
        print(rt, show::front(buffer, 20))?;
        print!(rt; "..")?;
    }
    println!(rt)
}

// Prints the logical lines, up to one that is refused.
fn list_lines(rt: &impl Print, file: &[u8], buffer: &mut [u8], most: usize) -> io::Result<()> {
    let mut cursor = Cursor::first();
    loop {
        match lines::next_line(file, cursor, buffer) {
            Ok(Some(line)) => {
                print_line(rt, line, buffer, most)?;
                cursor = line.next;
            }
            Ok(None) => return Ok(()),
            Err(e) => return println!(rt; "{e}"),
        }
    }
}

// Prints the refusal of a file, or its logical lines.
pub fn list(rt: &impl Print, file: &[u8], most: usize) -> io::Result<()> {
    match lines::check_file(file) {
        Ok(()) => list_lines(rt, file, &mut [0u8; 4096], most),
        Err(e) => println!(rt; "{e}"),
    }
}
