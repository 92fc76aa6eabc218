// The table of a whole file.
ghost use Rattle.std.specs.Prelude.{◌≡◌, ◌≤◌, length};
ghost use Rattle.lines.specs.Lines.{logical};
ghost use Rattle.table.specs.Tables.{empty_table, run};
ghost use Rattle.table.specs.Answers.{ReadLeaves, Reads};
ghost use Rattle.table.specs.Steps.{state_of, ReadsLine, ReadInto};

use crate::builder::{Builder, ENTRY_NUMBERS, SECTION_NUMBERS, TEXT_BYTES};
use crate::error::Error;
use crate::order::Order;
use crate::state::{Counts, State};
use lines::Cursor;

impl Builder {
    // The next logical line goes into the table, where one is left. The line buffer has at least 4,096 bytes. The answer is
    // where reading goes on.
    fn read_line(
        &mut self,
        file: &[u8],
        cursor: Cursor,
        line: &mut [u8],
    ) -> Result<Option<Cursor>, Error>
        requires { (4096 ≤ length line.old) × (self.old.state.text ≤ cursor.offset) × (length file.now ≤ 65535) }
        ensures { ReadsLine file.now cursor self.old result self.new }
    {
        let Some(found) = lines::next_line(file, cursor, line)? else {
            return Ok(None);
        };
        self.add_line(&line[..found.length], found.first)?;
        Ok(Some(found.next))
    }

    // All lines of a file, into an empty table.
    fn read_lines(&mut self, file: &[u8]) -> Result<(), Error>
        requires { (length file.now ≤ 65535) × (self.old.state ≡ state_of empty_table) }
        ensures { ReadInto (run empty_table (logical file.now)) self.old result self.new }
    {
        let mut line = [0u8; 4096];
        let mut cursor = Cursor::first();
        while let Some(next) = self.read_line(file, cursor, &mut line)? {
            cursor = next;
        }
        Ok(())
    }
}

// The table of a file by way of buffers of its own, so that a late fault leaves the lent ones as they were.
fn read_apart(
    file: &[u8],
    text: &mut [u8],
    sections: &mut [usize],
    entries: &mut [usize],
) -> Result<Counts, Error>
    requires { (length file.now ≤ 65535) × (65535 ≤ length text.old) × (128 ≤ length sections.old) × (2560 ≤ length entries.old) }
    ensures { ReadLeaves (run empty_table (logical file.now)) text.old sections.old entries.old result text.new sections.new entries.new }
{
    let mut table = Builder {
        text: [0; TEXT_BYTES],
        sections: [0; SECTION_NUMBERS],
        entries: [0; ENTRY_NUMBERS],
        order: Order::new(),
        state: State::new(),
    };
    table.read_lines(file)?;
    let counts = table.state.counts();
    lines::copy_into(&table.text[..counts.text], text, 0);
    lines::copy_into(&table.sections[..2 * counts.sections], sections, 0);
    lines::copy_into(&table.entries[..5 * counts.entries], entries, 0);
    Ok(counts)
}

// Reads a file: its table in `text`, `sections` and `entries`, which have at least 65,535 bytes, 128 and 2,560
// numbers. The rest of them stays, and a refused call changes none.
pub fn read(
    file: &[u8],
    text: &mut [u8],
    sections: &mut [usize],
    entries: &mut [usize],
) -> Result<Counts, Error>
    ensures { Reads file.now text.old sections.old entries.old result text.new sections.new entries.new }
{
    if text.len() < TEXT_BYTES
        || sections.len() < SECTION_NUMBERS
        || entries.len() < ENTRY_NUMBERS
    {
        return Err(Error::File(lines::Error::ShortBuffer));
    }
    lines::check_file(file)?;
    read_apart(file, text, sections, entries)
}
