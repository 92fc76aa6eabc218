// The records of sections and entries, and which are faulty.
ghost use Rattle.std.specs.Prelude.{◌≡◌, ℕ, true, ◌+◌, ◌*◌, ◌<◌, ◌≤◌, length};
ghost use Rattle.lookup.specs.Decoding.{inside, lent_of, table_in};
ghost use Rattle.lookup.specs.Steps.{there, good_section, good_record, SectionsGood, EntriesGood};

use crate::lent::Lent;

impl Lent<'_, '_> {
    // Whether a part is inside the text.
    fn is_inside(self, start: usize, size: usize) -> bool
        ensures { result ≡ inside self.entry.text.now start size }
    {
        start <= self.text.len() && size <= self.text.len() - start
    }

    // Whether a section's record, which is there, is not faulty.
    #[tactic(auto, unfolding(crate::specs::Steps::good_section))]
    fn section_good(self, index: usize) -> bool
        requires { 2 * index + 2 ≤ length self.sections.now }
        ensures { result ≡ good_section (lent_of self.entry) index }
    {
        let at = 2 * index;
        self.is_inside(self.sections[at], self.sections[at + 1])
    }

    // The same of an entry's record.
    #[tactic(auto, unfolding(crate::specs::Steps::good_record))]
    fn entry_good(self, index: usize) -> bool
        requires { 5 * index + 5 ≤ length self.entries.now }
        ensures { result ≡ good_record (lent_of self.entry) index }
    {
        let at = 5 * index;
        self.entries[at] < self.section_count
            && self.is_inside(self.entries[at + 1], self.entries[at + 2])
            && self.is_inside(self.entries[at + 3], self.entries[at + 4])
    }

    // Whether the records of all sections are there, and none is faulty.
    fn sections_good(self) -> bool
        ensures fits { result ≡ true → 2 * self.entry.section_count ≤ length self.entry.sections.now }
        ensures each { result ≡ true → (j : ℕ) → j < self.entry.section_count → good_section (lent_of self.entry) j ≡ true }
        ensures full { SectionsGood (lent_of self.entry) → result ≡ true }
    {
        self.section_count <= self.sections.len() / 2
            && (0..self.section_count).all(|index| self.section_good(index))
    }

    // The same of all entries.
    fn entries_good(self) -> bool
        ensures fits { result ≡ true → 5 * self.entry.entry_count ≤ length self.entry.entries.now }
        ensures each { result ≡ true → (i : ℕ) → i < self.entry.entry_count → good_record (lent_of self.entry) i ≡ true }
        ensures full { EntriesGood (lent_of self.entry) → result ≡ true }
    {
        self.entry_count <= self.entries.len() / 5
            && (0..self.entry_count).all(|index| self.entry_good(index))
    }

    // Whether the buffers hold a table.
    pub(crate) fn holds_table(self) -> bool
        ensures { result ≡ there (table_in (lent_of self.entry)) }
    {
        self.sections_good() && self.entries_good()
    }
}
