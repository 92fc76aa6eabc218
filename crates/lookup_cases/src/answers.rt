// Asks, and prints what comes of it.
use listing::show;
use lookup::{Lent, Which};
use std::io;

// The index of an entry, and what more is asked of it then.
pub(crate) fn find<P: Print, F: Fn(&P, Lent, usize) -> io::Result<()>>(
    rt: &P,
    lent: Lent,
    which: Which,
    section: &[u8],
    key: &[u8],
    more: F,
) -> io::Result<()>
    requires { F.IsAlwaysCallable more }
{
    match lent.find(section, key, which) {
        Ok(index) => {
            print!(rt; "entry {index}")?;
            more(rt, lent, index)
        }
        Err(e) => println!(rt; "{e}"),
    }
}

// The part of the text that is handed back, and where it stands or why there is none.
pub(crate) fn value(rt: &impl Print, lent: Lent, index: usize) -> io::Result<()> {
    let part = lent.value(index);
    print!(rt; "{} bytes ", part.len())?;
    show::print_bytes(rt, part)?;
    match lent.value_check(index) {
        Ok(part) => println!(rt; ", start {} length {}", part.start, part.length),
        Err(e) => println!(rt; ", {e}"),
    }
}
