// The same as `normal`, with an input that is longer than the buffer: its first 65,535 bytes alone would be accepted.
#![tactic(auto)]

use std::io;

fn main(rt: HostRuntime) -> io::Result<()> {
    normal_output::run(&rt)
}
