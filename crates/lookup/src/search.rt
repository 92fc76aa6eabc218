// The index of an entry, by the name of its section and by its key.
ghost use Rattle.std.specs.Prelude.{◌≡◌, true, ◌+◌, ◌*◌, ◌<◌, ◌≤◌, length};
ghost use Rattle.lines.specs.Bytes.{equal};
ghost use Rattle.lookup.specs.Decoding.{part, lent_of, table_in};
ghost use Rattle.lookup.specs.Questions.{index_in};
ghost use Rattle.lookup.specs.Answers.{find_means};
ghost use Rattle.lookup.specs.Steps.{there, matches_at, matches, EntryInside, IsFirst, IsLast, IsAsked};

use crate::error::Error;
use crate::lent::Lent;

// Which of several entries is asked for.
#[derive(Clone, Copy, Debug, PartialEq, Eq)]
pub enum Which {
    First,
    Last,
}

impl Lent<'_, '_> {
    // Whether a part that is inside the text is these bytes. This test and the next two are compiled in where they are made, so
    // that what is lent is not copied for each entry.
    #[inline(always)]
    fn is_part(self, bytes: &[u8], start: usize, size: usize) -> bool
        requires { start + size ≤ length self.text.now }
        ensures { result ≡ equal bytes.now (part self.entry.text.now start size) }
    {
        lines::same(bytes, &self.text[start..start + size])
    }

    // Whether the record from an index on is that of an entry with this section name and key. It is there, and so is its
    // section's; their parts are inside the text.
    #[inline(always)]
    fn is_record(self, section: &[u8], key: &[u8], at: usize) -> bool
        requires { EntryInside self.text.now self.sections.now self.entries.now at }
        ensures { result ≡ matches_at section.now key.now self.entry.text.now self.entry.sections.now self.entry.entries.now at }
    {
        let name_at = 2 * self.entries[at];
        self.is_part(key, self.entries[at + 1], self.entries[at + 2])
            && self.is_part(section, self.sections[name_at], self.sections[name_at + 1])
    }

    // Whether an entry of a table has this section name and key.
    #[inline(always)]
    #[tactic(auto, unfolding(crate::specs::Steps::matches))]
    fn is_entry(self, section: &[u8], key: &[u8], index: usize) -> bool
        requires table { there (table_in (lent_of self)) ≡ true }
        requires index { index < self.entry_count }
        ensures { result ≡ matches (lent_of self.entry) section.now key.now index }
    {
        self.is_record(section, key, 5 * index)
    }

    // The index of the first such entry of a table, if there is one.
    fn first_entry(self, section: &[u8], key: &[u8]) -> Option<usize>
        requires { there (table_in (lent_of self)) ≡ true }
        ensures { IsFirst self.entry.entry_count (matches (lent_of self.entry) section.now key.now) result }
    {
        (0..self.entry_count).find(|index| self.is_entry(section, key, *index))
    }

    // The same for the last.
    fn last_entry(self, section: &[u8], key: &[u8]) -> Option<usize>
        requires { there (table_in (lent_of self)) ≡ true }
        ensures { IsLast self.entry.entry_count (matches (lent_of self.entry) section.now key.now) result }
    {
        (0..self.entry_count)
            .rev()
            .find(|index| self.is_entry(section, key, *index))
    }

    // The first or the last one, as asked.
    fn find_entry(self, section: &[u8], key: &[u8], which: Which) -> Option<usize>
        requires { there (table_in (lent_of self)) ≡ true }
        ensures { IsAsked which self.entry.entry_count (matches (lent_of self.entry) section.now key.now) result }
    {
        match which {
            Which::First => self.first_entry(section, key),
            Which::Last => self.last_entry(section, key),
        }
    }

    // Looks an entry up in the table that the buffers hold, as the counts say: the index of the first
    // or the last entry with this section name and key. The buffers may have any size and hold any numbers: 41 where a record
    // among the counts is faulty or a count passes its buffer, then 40 where there is no such entry.
    pub fn find(self, section: &[u8], key: &[u8], which: Which) -> Result<usize, Error>
        ensures { find_means result ≡ index_in (lent_of self.entry) which section.now key.now }
    {
        if !self.holds_table() {
            return Err(Error::FaultyRecord);
        }
        self.find_entry(section, key, which).ok_or(Error::NoEntry)
    }
}
