// Items are written, and their text is split again.
use listing::{notation, show};
use std::io;

// What stands behind `write ` in a line.
pub(crate) fn case(rt: &impl Print, line: &[u8], buffer: &mut [u8]) -> io::Result<()> {
    let size = notation::read_number(line);
    let rest = notation::behind(notation::behind(line, size.taken), 1);
    let Some(bytes) = notation::lay_bytes(rest, buffer) else {
        return show::bad_case(rt);
    };
    let numbers = notation::behind(rest, bytes.taken);
    write(rt, show::front(buffer, bytes.length), numbers, size.value)
}

fn write(rt: &impl Print, bytes: &[u8], numbers: &[u8], size: usize) -> io::Result<()> {
    let mut ends = [0usize; 300];
    let mut out = [show::BYTE; 5000];
    let Some(count) = notation::lay_numbers(numbers, &mut ends) else {
        return show::bad_case(rt);
    };
    if 5000 < size {
        return show::bad_case(rt);
    }
    write_into(rt, bytes, show::front(&ends, count), &mut out[0..size])
}

fn write_into(rt: &impl Print, bytes: &[u8], ends: &[usize], out: &mut [u8]) -> io::Result<()> {
    match item_writer::write(bytes, ends, out) {
        Ok(length) => {
            let kept = show::kept_word(show::is_kept(out, length));
            print!(rt; "rest {kept}, {length} bytes: ")?;
            let text = show::front(out, length);
            show::print_bytes(rt, text)?;
            split_again(rt, text, bytes, ends)
        }
        Err(e) => println!(rt; "all {}, {e}", show::kept_word(show::is_kept(out, 0))),
    }
}

fn split_again(rt: &impl Print, text: &[u8], bytes: &[u8], ends: &[usize]) -> io::Result<()> {
    let mut found = [0u8; 4096];
    let mut found_ends = [0usize; 256];
    if are_same(text, bytes, ends, &mut found, &mut found_ends) {
        println!(rt; ", split again the same")
    } else {
        println!(rt; ", split again not the same")
    }
}

// Whether splitting the text into the buffers gives these items.
fn are_same(
    text: &[u8],
    bytes: &[u8],
    ends: &[usize],
    found: &mut [u8],
    found_ends: &mut [usize],
) -> bool {
    let Ok(counts) = items::split(text, found, found_ends) else {
        return false;
    };
    let used = ends.last().copied().unwrap_or(0);
    show::front(found_ends, counts.items) == ends
        && show::front(found, counts.bytes) == show::front(bytes, used)
}
