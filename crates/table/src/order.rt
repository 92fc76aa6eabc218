// The sections in the order of their names, so that the section of a name is found with few comparisons: first by a
// number made of the first four and the last four bytes of a name and of its length, then by one made of the eight bytes
// behind the first four, then by its length, then byte for byte.
// It is only a guess where to look: nothing is promised of what the order has, and any numbers may stand in it. Whoever
// takes the guess looks whether the name stands there.
ghost use Rattle.std.specs.Prelude.{◌≡◌, ◌^◌, ◌<◌, ◌≤◌, length, if◌then◌else◌, nat_lt};

use std::cmp::Ordering;
use std::mem;

const MOST_SECTIONS: usize = 64;

// ---- names

// Up to eight bytes of a name as one number. A byte of a name has seven bits.
fn joined(bytes: &[u8]) -> usize {
    bytes
        .iter()
        .fold(0, |number, b| (number << 7) | usize::from(*b))
}

// The number of a name: 56 bits of its first four and its last four bytes, and seven of its length. Names of up to eight
// bytes with the same number are the same.
fn number_of(name: &[u8]) -> usize {
    let ends = if name.len() < 4 {
        joined(name)
    } else {
        (joined(&name[..4]) << 28) | joined(&name[name.len() - 4..])
    };
    (ends << 7) | name.len() % 128
}

// 1 where a is below b, else 0: the sign of their difference, for numbers below 2^63, as those of names are. Of others it
// is 1 or 0.
fn is_below(a: usize, b: usize) -> usize
    ensures bit { result ≤ 1 }
    ensures sign { a < 2 ^ 63 → b < 2 ^ 63 → result ≡ (if nat_lt a b then 1 else 0) }
{
    std::num::wrapping_sub_usize(a, b) / 0x8000000000000000
}

// ---- the order

// Two numbers of a section's name, and the section's index.
#[derive(Clone, Copy)]
struct Place {
    number: usize,
    front: usize,
    section: usize,
}

impl Place {
    // Whether it stands before a name with these numbers, among the places whose number is not below it. The name itself is
    // looked at only where both numbers are the same.
    fn is_before(
        self,
        number: usize,
        front: usize,
        name: &[u8],
        text: &[u8],
        sections: &[usize],
    ) -> bool {
        self.number == number
            && (self.front < front
                || self.front == front
                    && name_at(self.section, text, sections).is_some_and(|other| by_length(
                        other, name,
                    ).is_lt()))
    }
}

// What stands between the first four and the last four bytes of a name.
fn middle(name: &[u8]) -> &[u8] {
    name.get(4..name.len().saturating_sub(4)).unwrap_or(&[])
}

// Its first eight bytes as one number, or what there is of them.
fn front_of(name: &[u8]) -> usize {
    let middle = middle(name);
    joined(&middle[..middle.len().min(8)])
}

// The order of names with the same numbers: by their lengths, and then by their middles, byte for byte. Their ends are the
// same.
fn by_length(a: &[u8], b: &[u8]) -> Ordering {
    a.len().cmp(&b.len()).then_with(|| middle(a).cmp(middle(b)))
}

// The name of the section with an index, if its two numbers are there and the name is inside the text.
fn name_at<'a>(index: usize, text: &'a [u8], sections: &[usize]) -> Option<&'a [u8]> {
    let [start, length] = *sections.as_chunks::<2>().0.get(index)?;
    text.get(start..)?.get(..length)
}

// The places in rising order, and how many sections there are.
#[derive(Drop)]
pub(crate) struct Order {
    places: [Place; MOST_SECTIONS],
    count: usize,
    ghost few: { count ≤ 64 },
}

impl Order {
    // No section yet.
    pub(crate) fn new() -> Order {
        Order {
            places: [Place {
                number: 0,
                front: 0,
                section: 0,
            }; MOST_SECTIONS],
            count: 0,
        }
    }

    // The first place whose number is not below this one. Half of what is left is passed over or not at each turn, by a
    // product and no branch: so names that come in any order cost no more than others. (The library's `partition_point` has
    // a branch there, and names of one byte took half as long again with it.)
    fn first_not_below(&self, number: usize) -> usize
        ensures { result ≤ self.now.count }
    {
        let mut first = 0;
        let mut left = self.count;
        while 0 < left {
            let half = left - left / 2;
            first += half * is_below(self.places[first + half - 1].number, number);
            left /= 2;
        }
        first
    }

    // Where a name stands, or belongs, among the places from `first` on, whose numbers are not below its own.
    fn place_among(
        &self,
        first: usize,
        number: usize,
        name: &[u8],
        text: &[u8],
        sections: &[usize],
    ) -> usize
        requires { first ≤ self.now.count }
        ensures { result ≤ self.now.count }
    {
        let front = front_of(name);
        let places = &self.places[first..self.count];
        first + places.partition_point(|p| p.is_before(number, front, name, text, sections))
    }

    // The index of the section that has a name, if one has it. Where no more than one section has the name's number, that
    // one is meant.
    pub(crate) fn guess(&self, name: &[u8], text: &[u8], sections: &[usize]) -> Option<usize> {
        let number = number_of(name);
        let first = self.first_not_below(number);
        let place = match &self.places[first..self.count] {
            [_, next, ..] if next.number == number => {
                self.place_among(first, number, name, text, sections)
            }
            _ => first,
        };
        self.places[..self.count].get(place).map(|p| p.section)
    }

    // A new section, whose index is the number of those before it, comes to its place.
    pub(crate) fn put(&mut self, name: &[u8], text: &[u8], sections: &[usize]) {
        if self.count == MOST_SECTIONS {
            return;
        }
        let number = number_of(name);
        let first = self.first_not_below(number);
        let place = self.place_among(first, number, name, text, sections);
        // Each place from here on takes what the one before it had.
        let mut moved = Place {
            number,
            front: front_of(name),
            section: self.count,
        };
        for other in &mut self.places[place..=self.count] {
            moved = mem::replace(other, moved);
        }
        self.count += 1;
    }
}
