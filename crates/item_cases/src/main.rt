// Cases of items, one to a line of standard input. Each prints its line and what comes of it.
// tests/expected_items.py writes the lines and has the rules. A line is
//     split SIZE COUNT [TEXT]      a text to split, into buffers of so many bytes and ends
//     write SIZE [BYTES] END ..    items to write, into a buffer of so many bytes
#![tactic(auto)]

mod splitting;
mod writing;

use listing::{notation, show};
use std::io;

// The buffer takes the bytes of one case, a million and a few at most.
fn main(rt: HostRuntime) -> io::Result<()> {
    let mut buffer = [0u8; 1000064];
    listing::each_case(&rt, &mut [0u8; 131072], |line| case(&rt, line, &mut buffer))
}

fn case(rt: &impl Print, line: &[u8], buffer: &mut [u8]) -> io::Result<()> {
    let rest = notation::behind(line, 6);
    show::print_case(rt, line)?;
    match notation::byte_at(line, 0) {
        b's' => splitting::case(rt, rest, buffer),
        b'w' => writing::case(rt, rest, buffer),
        _ => show::bad_case(rt),
    }
}
