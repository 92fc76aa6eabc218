// Prints the logical lines of standard input, or `refused N at P`.
#![tactic(auto)]

use std::io;

fn main(rt: HostRuntime) -> io::Result<()> {
    let mut input = [0u8; 65536];
    let got = input::read_full(&mut rt.reader(), &mut input)?;
    listing::list(&rt, &input[..got], 4096)
}
