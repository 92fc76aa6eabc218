// Cases of the normal text at the limits of lines, sections, entries and files. tests/expected_normal.py writes them
// and has the rules; normal_listing says what they are.
#![tactic(auto)]

use std::io;

fn main(rt: HostRuntime) -> io::Result<()> {
    normal_listing::run(&rt)
}
