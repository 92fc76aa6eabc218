// Cases of look-up, one to a line of standard input. Each prints its line and what comes of it.
// tests/expected_lookup.py writes the lines and has the rules. A line is
//     find WHICH [SECTION] [KEY] [TEXT] M K: SECTIONS: ENTRIES    an entry to find, in buffers with these bytes and
//                                                                 numbers, and with the counts M and K
//     value INDEX [TEXT] M K: SECTIONS: ENTRIES                   the value of an entry there
//     read WHICH [SECTION] [KEY] [FILE]                           an entry to find in the table of a file, and its value
// WHICH is first or last. SECTIONS and ENTRIES are numbers, each behind a space.
#![tactic(auto)]

mod answers;
mod buffers;
mod files;

use listing::{notation, show};
use lookup::Which;
use std::io;

// The longest section name and the longest key that are asked for.
const NAME: usize = 65600;

fn main(rt: HostRuntime) -> io::Result<()> {
    listing::each_case(&rt, &mut [0u8; 262144], |line| case(&rt, line))
}

fn case(rt: &impl Print, line: &[u8]) -> io::Result<()> {
    show::print_case(rt, line)?;
    match notation::byte_at(line, 0) {
        b'v' => buffers::value_case(rt, notation::behind(line, 6)),
        b'f' | b'r' => case_of(rt, line, which(line)),
        _ => show::bad_case(rt),
    }
}

// What stands behind `find ` or `read `.
fn which(line: &[u8]) -> Which {
    if notation::byte_at(line, 5) == b'f' {
        return Which::First;
    }
    Which::Last
}

// How many bytes stand before the section name.
fn start(which: Which) -> usize {
    match which {
        Which::First => 11,
        Which::Last => 10,
    }
}

// A case of a section name and a key.
fn case_of(rt: &impl Print, line: &[u8], which: Which) -> io::Result<()> {
    let mut section = [0u8; NAME];
    let mut key = [0u8; NAME];
    let names = notation::behind(line, start(which));
    let Some(s) = notation::lay_bytes(names, &mut section) else {
        return show::bad_case(rt);
    };
    let behind_section = notation::behind(names, s.taken + 1);
    let Some(k) = notation::lay_bytes(behind_section, &mut key) else {
        return show::bad_case(rt);
    };
    let rest = notation::behind(behind_section, k.taken + 1);
    named_case(
        rt,
        line,
        which,
        show::front(&section, s.length),
        show::front(&key, k.length),
        rest,
    )
}

fn named_case(
    rt: &impl Print,
    line: &[u8],
    which: Which,
    section: &[u8],
    key: &[u8],
    rest: &[u8],
) -> io::Result<()> {
    if notation::byte_at(line, 0) == b'f' {
        buffers::find_case(rt, which, section, key, rest)
    } else {
        files::case(rt, which, section, key, rest)
    }
}
