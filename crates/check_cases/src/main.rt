// Cases of the check of a whole file, refusals 2, 3 and 4: each prints its name and what reading gives.
// tests/expected.py has the same list.
#![tactic(auto)]

use listing::{cases, long_case, start_cases};
use std::io;

// Files of 65,535 bytes and one more or less.
fn sizes(rt: &impl Print) -> io::Result<()> {
    long_case(rt, "65534 bytes without LF", b"", b'#', 65530, b"\nK=1")?;
    long_case(rt, "65535 bytes without LF", b"", b'#', 65531, b"\nK=1")?;
    long_case(rt, "65535 bytes with LF", b"", b'#', 65530, b"\nK=1\n")?;
    long_case(rt, "65536 bytes with LF", b"", b'#', 65531, b"\nK=1\n")
}

// Control bytes, and bytes that are none.
fn control_bytes(rt: &impl Print) -> io::Result<()> {
    cases(
        rt,
        &[
            ("control 00", b"a\n\x00\n"),
            ("control 0B", b"a\nb\x0B\n"),
            ("control 0D", b"a\nb\x0D\n"),
            ("control 1F", b"a\n\x1Fb\n"),
            ("control 7F", b"a\nb\x7F"),
            ("tab and LF are none", b"a\t \n~"),
            ("control in a comment", b"a\n#\x01\n"),
            ("the first of two control bytes", b"a\n\x02\n\x03"),
            ("control in line 1, not UTF-8 in line 3", b"\x01\nb\n\xFF\n"),
        ],
    )
}

// Texts that are not UTF-8.
fn not_utf8(rt: &impl Print) -> io::Result<()> {
    start_cases(
        rt,
        &[
            ("C0 80", b"a\n\xC0\x80\n"),
            ("C1 BF", b"\xC1\xBF\n"),
            ("E0 80 80", b"a\n\xE0\x80\x80\n"),
            ("E0 9F BF", b"\xE0\x9F\xBF\n"),
            ("F0 80 80 80", b"a\n\xF0\x80\x80\x80\n"),
            ("F0 8F BF BF", b"\xF0\x8F\xBF\xBF\n"),
            ("ED A0 80", b"a\nb\n\xED\xA0\x80\n"),
            ("ED BF BF", b"\xED\xBF\xBF\n"),
            ("F5", b"a\n\xF5\x80\x80\x80\n"),
            ("F4 90 80 80", b"a\n\xF4\x90\x80\x80\n"),
            ("lone 80", b"a\n\x80\n"),
            ("lone BF", b"\xBF\n"),
            ("FF", b"a\nb\xFF\n"),
            ("cut off C3", b"a\n\xC3"),
            ("cut off E2 82", b"a\n\xE2\x82"),
            ("cut off F0 9F 98", b"a\n\xF0\x9F\x98"),
            ("broken by LF", b"a\n\xE2\x82\nb\n"),
            ("broken by a letter", b"\xC3a\n"),
            ("bad byte in a comment", b"a\n#\xFF\nb\n"),
        ],
    )
}

// The first and last characters of each length.
fn well_formed(rt: &impl Print) -> io::Result<()> {
    start_cases(
        rt,
        &[
            ("U+0080", b"\xC2\x80\n"),
            ("U+07FF", b"\xDF\xBF\n"),
            ("U+0800", b"\xE0\xA0\x80\n"),
            ("U+D7FF", b"\xED\x9F\xBF\n"),
            ("U+E000", b"\xEE\x80\x80\n"),
            ("U+FFFF", b"\xEF\xBF\xBF\n"),
            ("U+10000", b"\xF0\x90\x80\x80\n"),
            ("U+10FFFF", b"\xF4\x8F\xBF\xBF\n"),
            ("EF BB BF", b"\xEF\xBB\xBF#x\n"),
        ],
    )
}

fn main(rt: HostRuntime) -> io::Result<()> {
    sizes(&rt)?;
    control_bytes(&rt)?;
    not_utf8(&rt)?;
    well_formed(&rt)
}
