// The value (the rules' joined text) of an entry, by its index.
ghost use Rattle.std.specs.Prelude.{◌≡◌, ◌+◌, ◌*◌, ◌≤◌, length};
ghost use Rattle.lookup.specs.Decoding.{lent_of};
ghost use Rattle.lookup.specs.Questions.{value_part, part_in};
ghost use Rattle.lookup.specs.Answers.{part_means, value_means, HandsBack};

use crate::error::Error;
use crate::lent::Lent;

// Where a value stands in the text.
#[derive(Clone, Copy, Debug, PartialEq, Eq)]
pub struct Part {
    pub start: usize,
    pub length: usize,
}

impl<'t, 'n> Lent<'t, 'n> {
    // The part that the value of the entry with this index is, by its record.
    fn value_part(self, index: usize) -> Part
        requires { 5 * index + 5 ≤ length self.entries.now }
        ensures { part_means result ≡ value_part index self.entry.entries.now }
    {
        let at = 5 * index;
        Part {
            start: self.entries[at + 3],
            length: self.entries[at + 4],
        }
    }

    // Where the value of the entry with this index stands in the text: 41 where a record among the counts is faulty or a
    // count passes its buffer, then 40 where the index is not below the count.
    pub fn value_check(self, index: usize) -> Result<Part, Error>
        ensures { value_means result ≡ part_in (lent_of self.entry) index }
    {
        if !self.holds_table() {
            return Err(Error::FaultyRecord);
        }
        if self.entry_count <= index {
            return Err(Error::NoEntry);
        }
        Ok(self.value_part(index))
    }

    // The value itself, a part of the lent text; the empty part at its start where `value_check` refuses.
    pub fn value(self, index: usize) -> &'t [u8]
        ensures { HandsBack (lent_of self.entry) index self.entry.text.ref_ptr result.ref_ptr result.now }
    {
        match self.value_check(index) {
            Ok(part) => &self.text[part.start..part.start + part.length],
            Err(_) => &self.text[..0],
        }
    }
}
