// `normal < FILE` writes the normal text of a file, or `refused N at P`.
#![tactic(auto)]

use std::io;

fn main(rt: HostRuntime) -> io::Result<()> {
    normal_output::run(&rt)
}
