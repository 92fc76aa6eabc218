// A file is read.
use listing::tables::Buffers;
use listing::{notation, show, tables};
use std::io;

// The longest buffers.
const TEXT: usize = 65600;

const SECTIONS: usize = 140;

const ENTRIES: usize = 2600;

// The lengths of the three buffers.
#[derive(Clone, Copy)]
struct Sizes {
    text: usize,
    sections: usize,
    entries: usize,
}

// What stands behind `read ` in a line.
pub(crate) fn case(rt: &impl Print, line: &[u8], buffer: &mut [u8]) -> io::Result<()> {
    let text = notation::read_number(line);
    let behind_text = notation::behind(line, text.taken + 1);
    let sections = notation::read_number(behind_text);
    let behind_sections = notation::behind(behind_text, sections.taken + 1);
    let entries = notation::read_number(behind_sections);
    let bracket = notation::behind(behind_sections, entries.taken + 1);
    let Some(file) = notation::lay_bytes(bracket, buffer) else {
        return show::bad_case(rt);
    };
    if file.taken != bracket.len() {
        return show::bad_case(rt);
    }
    let sizes = Sizes {
        text: text.value,
        sections: sections.value,
        entries: entries.value,
    };
    read(rt, show::front(buffer, file.length), sizes)
}

// Reads the file into buffers of these lengths.
fn read(rt: &impl Print, file: &[u8], sizes: Sizes) -> io::Result<()> {
    let t = sizes.text;
    let s = sizes.sections;
    let e = sizes.entries;
    let mut text = [show::BYTE; TEXT];
    let mut sections = [show::NUMBER; SECTIONS];
    let mut entries = [show::NUMBER; ENTRIES];
    if TEXT < t || SECTIONS < s || ENTRIES < e {
        return show::bad_case(rt);
    }
    read_into(
        rt,
        file,
        &mut text[0..t],
        &mut sections[0..s],
        &mut entries[0..e],
    )
}

// Reads the file and prints what comes of it.
fn read_into(
    rt: &impl Print,
    file: &[u8],
    text: &mut [u8],
    sections: &mut [usize],
    entries: &mut [usize],
) -> io::Result<()> {
    let answer = table::read(file, text, sections, entries);
    let buffers = Buffers {
        text,
        sections,
        entries,
    };
    match answer {
        Ok(counts) => {
            tables::print_counts(rt, counts)?;
            buffers.print(rt, counts)
        }
        Err(e) => println!(rt; "all {}, {e}", show::kept_word(buffers.all_kept())),
    }
}
