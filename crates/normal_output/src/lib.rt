// The normal text of the file that standard input has.
#![tactic(auto)]

use listing::{print, show};
use std::io;

// Writes the normal text to standard output, or `refused N at P`.
pub fn run(rt: &(impl Input + Print + Eprint)) -> io::Result<()> {
    listing::with_file(rt, "normal", |file| write(rt, file))
}

fn write(rt: &impl Print, file: &[u8]) -> io::Result<()> {
    let mut text = [0u8; 65535];
    let mut sections = [0usize; 128];
    let mut entries = [0usize; 2560];
    let mut out = [0u8; 65535];
    match normal_text::normal_text(file, &mut text, &mut sections, &mut entries, &mut out) {
        Ok(sizes) => print(rt, show::front(&out, sizes.length)),
        Err(e) => println!(rt; "{e}"),
    }
}
