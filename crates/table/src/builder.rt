// A table as it is read.
ghost use Rattle.std.specs.Prelude.{◌≤◌};

use crate::order::Order;
use crate::state::State;

// The least sizes of the lent buffers, and the sizes of the own ones.
pub(crate) const TEXT_BYTES: usize = 65535;

pub(crate) const SECTION_NUMBERS: usize = 128;

pub(crate) const ENTRY_NUMBERS: usize = 2560;

// What the lines so far have brought: the text, the numbers of sections and of entries, the order of the sections' names,
// and how much is used.
#[derive(Drop)]
pub(crate) struct Builder {
    pub(crate) text: [u8; TEXT_BYTES],
    pub(crate) sections: [usize; SECTION_NUMBERS],
    pub(crate) entries: [usize; ENTRY_NUMBERS],
    pub(crate) order: Order,
    pub(crate) state: State,
    ghost few: { state.sections ≤ 64 },
}
