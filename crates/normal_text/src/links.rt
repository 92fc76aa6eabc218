// Which entry of a section comes next.
ghost use Rattle.std.specs.Prelude.{◌≤◌};
ghost use Rattle.lookup.specs.Decoding.{lent_of};
ghost use Rattle.lookup.specs.Laws.{Sound};
ghost use Rattle.normal_text.specs.Steps.{AreLinks};

use lookup::Lent;

// The most sections and entries of a table.
const MOST_SECTIONS: usize = 64;

const MOST_ENTRIES: usize = 512;

// For each section the index of its first entry, and for each entry that of the next one of its section.
#[derive(Drop)]
pub(crate) struct Links {
    pub firsts: [Option<usize>; MOST_SECTIONS],
    pub nexts: [Option<usize>; MOST_ENTRIES],
}

impl Links {
    // Links the entries of a table, from the last to the first.
    pub(crate) fn of(table: Lent) -> Links
        requires sound { Sound (lent_of table) }
        requires few_sections { table.section_count ≤ 64 }
        requires few_entries { table.entry_count ≤ 512 }
        ensures { AreLinks (lent_of table.entry) result }
    {
        let mut firsts = [None; MOST_SECTIONS];
        let mut nexts = [None; MOST_ENTRIES];
        for i in (0..table.entry_count).rev() {
            let section = table.entries[5 * i];
            nexts[i] = firsts[section];
            firsts[section] = Some(i);
        }
        Links { firsts, nexts }
    }
}
