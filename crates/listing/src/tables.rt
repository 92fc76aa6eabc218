// Prints what a call left in the buffers of a table, or in one like them.
use crate::show;
use crate::show::Filler;
use std::io;
use table::Counts;

pub fn print_counts(rt: &impl Print, counts: Counts) -> io::Result<()> {
    println!(rt;
        "{} text bytes, {} sections, {} entries",
        counts.text, counts.sections, counts.entries
    )
}

// The three buffers, as a call left them.
#[derive(Clone, Copy)]
pub struct Buffers<'a> {
    pub text: &'a [u8],
    pub sections: &'a [usize],
    pub entries: &'a [usize],
}

impl Buffers<'_> {
    // Whether they are as they were.
    pub fn all_kept(self) -> bool {
        show::is_kept(self.text, 0)
            && show::is_kept(self.sections, 0)
            && show::is_kept(self.entries, 0)
    }

    // A section takes two numbers, an entry five.
    pub fn print(self, rt: &impl Print, counts: Counts) -> io::Result<()> {
        print_part(rt, "text", self.text, counts.text)?;
        print_part(
            rt,
            "sections",
            self.sections,
            counts.sections.saturating_mul(2),
        )?;
        print_part(
            rt,
            "entries",
            self.entries,
            counts.entries.saturating_mul(5),
        )
    }
}

// The used front of a buffer, what stands behind it, and whether the rest is as it was.
pub fn print_part<T: Filler>(
    rt: &impl Print,
    name: &str,
    buffer: &[T],
    used: usize,
) -> io::Result<()> {
    print!(rt; "  {name} ")?;
    T::print_list(rt, show::front(buffer, used))?;
    print!(rt; "then ")?;
    match buffer.get(used) {
        Some(next) => next.print_one(rt)?,
        None => print!(rt; "none")?,
    }
    println!(rt; ", rest {}", show::kept_word(show::is_kept(buffer, used)))
}
