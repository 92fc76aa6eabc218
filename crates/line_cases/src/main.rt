// Cases of lines: each prints its name and what the joiner gives. tests/expected.py has the same list.
#![tactic(auto)]

mod call;
mod calls;
mod files;

use std::io;

fn main(rt: HostRuntime) -> io::Result<()> {
    files::bench(&rt)?;
    files::comments(&rt)?;
    files::joining(&rt)?;
    files::backslashes(&rt)?;
    files::lengths(&rt)?;
    calls::cursors(&rt)?;
    calls::buffers(&rt)?;
    calls::long_lines(&rt)
}
