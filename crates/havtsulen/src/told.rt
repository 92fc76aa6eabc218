// What each call tells of what it has accepted.
ghost use Rattle.havtsulen.specs.Answers.{nothing_told, number_told, truth_told, counts_told, place_told, sizes_told, items_told};

use crate::report::Told;
use lookup::Part;
use normal_text::Sizes;

// Nothing.
impl Told for () {
    ghost told = { nothing_told };

    fn numbers(self) -> [usize; 4] {
        [0; 4]
    }
}

// A length or an index.
impl Told for usize {
    ghost told = { number_told };

    fn numbers(self) -> [usize; 4] {
        [self, 0, 0, 0]
    }
}

// Microseconds. A usize has 64 bits, so that every number of them fits.
impl Told for u64 {
    ghost told = { number_told };

    fn numbers(self) -> [usize; 4] {
        [self as usize, 0, 0, 0]
    }
}

// 1 for true, 0 for false.
impl Told for bool {
    ghost told = { truth_told };

    fn numbers(self) -> [usize; 4] {
        [usize::from(self), 0, 0, 0]
    }
}

// A part of the text: start and length.
impl Told for Part {
    ghost told = { place_told };

    fn numbers(self) -> [usize; 4] {
        [self.start, self.length, 0, 0]
    }
}

// Text bytes, sections, entries.
impl Told for table::Counts {
    ghost told = { counts_told };

    fn numbers(self) -> [usize; 4] {
        [self.text, self.sections, self.entries, 0]
    }
}

// The length of the normal text, and the three counts.
impl Told for Sizes {
    ghost told = { sizes_told };

    fn numbers(self) -> [usize; 4] {
        let table = self.table;
        [self.length, table.text, table.sections, table.entries]
    }
}

// Items, and their bytes together.
impl Told for items::Counts {
    ghost told = { items_told };

    fn numbers(self) -> [usize; 4] {
        [self.items, self.bytes, 0, 0]
    }
}
