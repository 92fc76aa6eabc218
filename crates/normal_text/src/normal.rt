// The normal text of a whole file.
ghost use Rattle.normal_text.specs.Answers.{Normalizes};

use crate::links::Links;
use crate::writer::put_sections;
use lookup::Lent;
use table::{Counts, Error};

// How long a normal text is, and how much the table has.
#[derive(Clone, Copy, Debug, PartialEq, Eq)]
pub struct Sizes {
    pub length: usize,
    pub table: Counts,
}

// The least size of the output buffer.
const OUT_BYTES: usize = 65535;

// Writes the normal text of a file into `out`, which has at least 65,535 bytes. The buffers `text`, `sections` and `entries`
// are those of `table::read`, and hold the file's table afterwards. The rest of all four stays, and a refused call changes
// none.
pub fn normal_text(
    file: &[u8],
    text: &mut [u8],
    sections: &mut [usize],
    entries: &mut [usize],
    out: &mut [u8],
) -> Result<Sizes, Error>
    ensures { Normalizes file.now text.old sections.old entries.old out.old result text.new sections.new entries.new out.new }
{
    if out.len() < OUT_BYTES {
        return Err(Error::File(lines::Error::ShortBuffer));
    }
    let counts = table::read(file, text, sections, entries)?;
    let table = Lent {
        text,
        sections,
        section_count: counts.sections,
        entries,
        entry_count: counts.entries,
    };
    let length = put_sections(table, &Links::of(table), out);
    Ok(Sizes {
        length,
        table: counts,
    })
}
