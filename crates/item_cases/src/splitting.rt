// A text is split.
use items::Counts;
use listing::{notation, show};
use std::io;

// What stands behind `split ` in a line.
pub(crate) fn case(rt: &impl Print, line: &[u8], buffer: &mut [u8]) -> io::Result<()> {
    let size = notation::read_number(line);
    let rest = notation::behind(line, size.taken);
    let count = notation::read_number(notation::behind(rest, 1));
    let bracket = notation::behind(notation::behind(rest, count.taken), 2);
    let Some(text) = notation::lay_bytes(bracket, buffer) else {
        return show::bad_case(rt);
    };
    if text.taken != bracket.len() {
        return show::bad_case(rt);
    }
    split(
        rt,
        show::front(buffer, text.length),
        size.value,
        count.value,
    )
}

fn split(rt: &impl Print, text: &[u8], size: usize, count: usize) -> io::Result<()> {
    let mut bytes = [show::BYTE; 5000];
    let mut ends = [show::NUMBER; 300];
    if 5000 < size || 300 < count {
        return show::bad_case(rt);
    }
    split_into(rt, text, &mut bytes[0..size], &mut ends[0..count])
}

fn split_into(
    rt: &impl Print,
    text: &[u8],
    bytes: &mut [u8],
    ends: &mut [usize],
) -> io::Result<()> {
    match items::split(text, bytes, ends) {
        Ok(counts) => print_items(rt, bytes, ends, counts),
        Err(e) => {
            let kept = show::is_kept(bytes, 0) && show::is_kept(ends, 0);
            println!(rt; "all {}, {e}", show::kept_word(kept))
        }
    }
}

fn print_items(rt: &impl Print, bytes: &[u8], ends: &[usize], counts: Counts) -> io::Result<()> {
    let kept = show::is_kept(bytes, counts.bytes) && show::is_kept(ends, counts.items);
    print!(rt;
        "rest {}, {} items, {} bytes: ",
        show::kept_word(kept),
        counts.items,
        counts.bytes
    )?;
    show::print_numbers(rt, show::front(ends, counts.items))?;
    show::print_bytes(rt, show::front(bytes, counts.bytes))?;
    println!(rt)
}
