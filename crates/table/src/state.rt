// What reading keeps of a table, and what it answers.
ghost use Rattle.std.specs.Prelude.{◌≡◌};
ghost use Rattle.table.specs.Tables.{empty_table};
ghost use Rattle.table.specs.Steps.{state_of, counts_in};

// How many text bytes, sections and entries there are.
#[derive(Clone, Copy, Debug, PartialEq, Eq)]
pub struct Counts {
    pub text: usize,
    pub sections: usize,
    pub entries: usize,
}

// How much of the buffers is used: text bytes, sections and entries; and the index of the section that is open, none
// before any header.
#[derive(Clone, Copy)]
pub(crate) struct State {
    pub text: usize,
    pub sections: usize,
    pub entries: usize,
    pub current: Option<usize>,
}

impl State {
    // Before the first line.
    pub(crate) fn new() -> State
        ensures { result ≡ state_of empty_table }
    {
        State {
            text: 0,
            sections: 0,
            entries: 0,
            current: None,
        }
    }

    // The counts of a table that is complete.
    pub(crate) fn counts(self) -> Counts
        ensures { result ≡ counts_in self }
    {
        Counts {
            text: self.text,
            sections: self.sections,
            entries: self.entries,
        }
    }
}
