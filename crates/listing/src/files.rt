// Cases of files: each prints its name, and what reading its file gives.
use crate::texts::lay;
use crate::{list, show};
use std::io;

// Lines of more than 200 bytes are cut.
const MOST: usize = 200;

// A whole file.
fn case(rt: &impl Print, name: &str, file: &[u8]) -> io::Result<()> {
    println!(rt; "{name}")?;
    list(rt, file, MOST)
}

// Several whole files.
pub fn cases(rt: &impl Print, files: &[(&str, &[u8])]) -> io::Result<()> {
    for (name, file) in files {
        case(rt, name, file)?;
    }
    Ok(())
}

// The same, with the length of the longest well-formed start first.
pub fn start_cases(rt: &impl Print, files: &[(&str, &[u8])]) -> io::Result<()> {
    for (name, file) in files {
        println!(rt; "{name}\nstart {}", lines::well_formed_length(file))?;
        list(rt, file, MOST)?;
    }
    Ok(())
}

// A file of a head, one byte up to the index `end`, and a tail.
pub fn long_case(
    rt: &impl Print,
    name: &str,
    head: &[u8],
    byte: u8,
    end: usize,
    tail: &[u8],
) -> io::Result<()> {
    let mut file = [byte; 65536];
    let length = lay(&mut file, head, end, tail);
    case(rt, name, show::front(&file, length))
}
