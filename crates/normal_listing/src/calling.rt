// A call for the normal text.
use listing::tables::Buffers;
use listing::{show, tables};
use std::io;

// The longest buffers.
const BYTES: usize = 65600;

const SECTIONS: usize = 140;

const ENTRIES: usize = 2600;

// Calls with buffers of these lengths: for the text, the sections, the entries and the normal text.
pub(crate) fn call(rt: &impl Print, file: &[u8], sizes: [usize; 4]) -> io::Result<()> {
    let [t, s, e, o] = sizes;
    let mut text = [show::BYTE; BYTES];
    let mut sections = [show::NUMBER; SECTIONS];
    let mut entries = [show::NUMBER; ENTRIES];
    let mut out = [show::BYTE; BYTES];
    let (Some(text), Some(sections), Some(entries), Some(out)) = (
        text.get_mut(..t),
        sections.get_mut(..s),
        entries.get_mut(..e),
        out.get_mut(..o),
    ) else {
        return show::bad_case(rt);
    };
    call_with(rt, file, text, sections, entries, out)
}

// Calls, and prints the answer and what the buffers hold.
fn call_with(
    rt: &impl Print,
    file: &[u8],
    text: &mut [u8],
    sections: &mut [usize],
    entries: &mut [usize],
    out: &mut [u8],
) -> io::Result<()> {
    let answer = normal_text::normal_text(file, text, sections, entries, out);
    let buffers = Buffers {
        text,
        sections,
        entries,
    };
    match answer {
        Ok(sizes) => {
            print!(rt; "{} bytes, ", sizes.length)?;
            tables::print_counts(rt, sizes.table)?;
            tables::print_part(rt, "normal", out, sizes.length)?;
            buffers.print(rt, sizes.table)
        }
        Err(e) => {
            let kept = show::is_kept(out, 0) && buffers.all_kept();
            println!(rt; "all {}, {e}", show::kept_word(kept))
        }
    }
}
