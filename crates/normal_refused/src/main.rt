// The same as `normal`, with a file that is refused: nothing of its normal text is written.
#![tactic(auto)]

use std::io;

fn main(rt: HostRuntime) -> io::Result<()> {
    normal_output::run(&rt)
}
