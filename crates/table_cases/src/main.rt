// Cases of tables, one to a line of standard input. Each prints its line and what comes of it.
// tests/expected_table.py writes the lines and has the rules. A line is
//     read TEXT SECTIONS ENTRIES [FILE]    a file to read, into buffers of so many bytes and numbers
#![tactic(auto)]

mod reading;

use listing::{notation, show};
use std::io;

// The buffer takes the file of one case, a million and a few bytes at most.
fn main(rt: HostRuntime) -> io::Result<()> {
    let mut buffer = [0u8; 1000064];
    listing::each_case(&rt, &mut [0u8; 262144], |line| case(&rt, line, &mut buffer))
}

fn case(rt: &impl Print, line: &[u8], buffer: &mut [u8]) -> io::Result<()> {
    show::print_case(rt, line)?;
    if notation::byte_at(line, 0) == b'r' {
        reading::case(rt, notation::behind(line, 5), buffer)
    } else {
        show::bad_case(rt)
    }
}
