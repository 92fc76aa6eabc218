// The value of a setting. `get SECTION KEY < FILE` prints the value of the last entry with this section name and key, or
// `refused N at P`.
#![tactic(auto)]

use listing::{print, show};
use lookup::{Lent, Which};
use std::env::{Env, FillError};
use std::io;

fn main(rt: HostRuntime) -> io::Result<()> {
    let mut section = [0u8; 65536];
    let mut key = [0u8; 65536];
    let mut third = [0u8; 1];
    let s = argument(&rt, 1, &mut section);
    let k = argument(&rt, 2, &mut key);
    let more = argument(&rt, 3, &mut third);
    match (s, k, more) {
        (Some(s), Some(k), None) => listing::with_file(&rt, "get", |file| {
            answer(&rt, show::front(&section, s), show::front(&key, k), file)
        }),
        _ => eprintln!(rt; "usage: get SECTION KEY < FILE"),
    }
}

// Lays an argument at the front of a buffer, and answers its length, or nothing where it is missing. One that is too
// long fills the buffer: of 65,536 bytes, no name and no key of a file has so many.
fn argument(rt: &impl Env, i: usize, buffer: &mut [u8]) -> Option<usize> {
    match rt.arg(i, buffer) {
        Ok(length) => Some(length),
        Err(FillError::TooLong) => Some(buffer.len()),
        Err(FillError::NotPresent) => None,
    }
}

// Reads the table, and prints the value or the refusal.
fn answer(rt: &impl Print, section: &[u8], key: &[u8], file: &[u8]) -> io::Result<()> {
    let mut text = [0u8; 65535];
    let mut sections = [0usize; 128];
    let mut entries = [0usize; 2560];
    match table::read(file, &mut text, &mut sections, &mut entries) {
        Ok(counts) => {
            let lent = Lent {
                text: &text,
                sections: &sections,
                section_count: counts.sections,
                entries: &entries,
                entry_count: counts.entries,
            };
            print_value(rt, lent, section, key)
        }
        Err(e) => println!(rt; "{e}"),
    }
}

fn print_value(rt: &impl Print, lent: Lent, section: &[u8], key: &[u8]) -> io::Result<()> {
    match lent.find(section, key, Which::Last) {
        Ok(index) => {
            print(rt, lent.value(index))?;
            println!(rt)
        }
        Err(e) => println!(rt; "{e}"),
    }
}
