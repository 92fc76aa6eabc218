// The sections that a table has so far.
ghost use Rattle.std.specs.Prelude.{◌≡◌, ◌+◌, ◌<◌, ◌≤◌, length};
ghost use Rattle.table.specs.LineKinds.{header};
ghost use Rattle.table.specs.Steps.{is_named, section_named, SectionFound, SectionPut, TakesLine};

use crate::builder::Builder;
use crate::error::Error;
use crate::state::State;

// Whether a part of the text is this name. One that is not inside the text is no name.
fn is_named(name: &[u8], text: &[u8], start: usize, length: usize) -> bool
    ensures { result ≡ is_named name.now text.now start length }
{
    start <= text.len()
        && length <= text.len() - start
        && lines::same(name, &text[start..start + length])
}

impl Builder {
    // Whether the section with this index has this name.
    fn section_is(&self, index: usize, name: &[u8]) -> bool
        requires { index < self.now.state.sections }
        ensures { result ≡ section_named name.now self.now.text self.now.sections index }
    {
        is_named(
            name,
            &self.text,
            self.sections[2 * index],
            self.sections[2 * index + 1],
        )
    }

    // The index of a section with this name. All of them are looked at, one after another.
    fn search_section(&self, name: &[u8]) -> Option<usize>
        ensures { SectionFound name.now self.now.text self.now.state.sections self.now.sections result }
    {
        (0..self.state.sections).find(|i| self.section_is(*i, name))
    }

    // The same, where a guess comes first. It may be any number; one that is right saves the search.
    fn find_section(&self, name: &[u8]) -> Option<usize>
        ensures { SectionFound name.now self.now.text self.now.state.sections self.now.sections result }
    {
        match self.order.guess(name, &self.text, &self.sections) {
            Some(guess) if guess < self.state.sections && self.section_is(guess, name) => {
                Some(guess)
            }
            _ => self.search_section(name),
        }
    }

    // A new section behind the others, which is open then.
    fn put_section(&mut self, name: &[u8])
        requires fits { self.old.state.text + length name.now ≤ 65535 }
        requires room { self.old.state.sections < 64 }
        ensures { SectionPut name.now self.old self.new }
    {
        let start = self.state.text;
        let count = self.state.sections;
        lines::copy_into(name, &mut self.text, start);
        lines::copy_into(&[start, name.len()], &mut self.sections, 2 * count);
        self.state = State {
            text: start + name.len(),
            sections: count + 1,
            entries: self.state.entries,
            current: Some(count),
        };
    }

    // A header with this name: an earlier section goes on, or a new one opens.
    pub(crate) fn open_section(&mut self, name: &[u8], number: usize) -> Result<(), Error>
        requires { self.old.state.text + length name.now ≤ 65535 }
        ensures { TakesLine (header name.now) number self.old result self.new }
    {
        if let Some(index) = self.find_section(name) {
            self.state.current = Some(index);
            return Ok(());
        }
        if 64 <= self.state.sections {
            return Err(Error::TooMany(number));
        }
        self.order.put(name, &self.text, &self.sections);
        self.put_section(name);
        Ok(())
    }
}
