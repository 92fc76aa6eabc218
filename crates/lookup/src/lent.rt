// The table that stands in buffers.

// What a question is asked of: the text, the numbers of sections and of entries, and how many of each there are. The
// buffers may have any size and hold any numbers, and the counts may be any. A value borrows the text alone.
#[derive(Clone, Copy, Debug)]
pub struct Lent<'t, 'n> {
    pub text: &'t [u8],
    pub sections: &'n [usize],
    pub section_count: usize,
    pub entries: &'n [usize],
    pub entry_count: usize,
}
