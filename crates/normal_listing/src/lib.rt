// Cases of the normal text, one to a line of standard input. Each prints its line and what comes of it. A line is
//     normal [FILE] TEXT SECTIONS ENTRIES OUT    a file, and the lengths of the four buffers
#![tactic(auto)]

mod calling;

use listing::{notation, show};
use std::io;

// The longest file of a case.
const FILE: usize = 100000;

pub fn run(rt: &(impl Input + Print)) -> io::Result<()> {
    let mut buffer = [0u8; FILE];
    listing::each_case(rt, &mut [0u8; 262144], |line| case(rt, line, &mut buffer))
}

fn case(rt: &impl Print, line: &[u8], buffer: &mut [u8]) -> io::Result<()> {
    show::print_case(rt, line)?;
    let mut sizes = [0; 4];
    let bracket = notation::behind(line, 7);
    let Some(file) = notation::lay_bytes(bracket, buffer) else {
        return show::bad_case(rt);
    };
    let Some(4) = notation::lay_numbers(notation::behind(bracket, file.taken), &mut sizes) else {
        return show::bad_case(rt);
    };
    calling::call(rt, show::front(buffer, file.length), sizes)
}
