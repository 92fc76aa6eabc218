// Questions to the table of a file.
use crate::answers;
use listing::{notation, show};
use lookup::{Lent, Which};
use std::io;

// The longest file.
const FILE: usize = 65600;

// What stands behind the key in a line.
pub(crate) fn case(
    rt: &impl Print,
    which: Which,
    section: &[u8],
    key: &[u8],
    bracket: &[u8],
) -> io::Result<()> {
    let mut file = [0u8; FILE];
    let Some(laid) = notation::lay_bytes(bracket, &mut file) else {
        return show::bad_case(rt);
    };
    if laid.taken != bracket.len() {
        return show::bad_case(rt);
    }
    read(rt, which, section, key, show::front(&file, laid.length))
}

// Reads the file, and asks with the counts of the answer.
fn read(rt: &impl Print, which: Which, section: &[u8], key: &[u8], file: &[u8]) -> io::Result<()> {
    let mut text = [show::BYTE; 65535];
    let mut sections = [show::NUMBER; 128];
    let mut entries = [show::NUMBER; 2560];
    match table::read(file, &mut text, &mut sections, &mut entries) {
        Ok(counts) => {
            let lent = Lent {
                text: &text,
                sections: &sections,
                section_count: counts.sections,
                entries: &entries,
                entry_count: counts.entries,
            };
            answers::find(rt, lent, which, section, key, |rt, lent, index| {
                print!(rt; ", ")?;
                answers::value(rt, lent, index)
            })
        }
        Err(e) => println!(rt; "not read, {e}"),
    }
}
