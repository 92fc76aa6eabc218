// Long runs of one byte.
use crate::Cases;
use std::io;

const MILLION: usize = 1000000;

pub fn digits(cases: &Cases<impl Print>) -> io::Result<()> {
    let none: &[u8] = b"";
    cases.long_case(none, b'0', 5000, b"7s")?;
    cases.long_case(none, b'0', MILLION, b"7s")?;
    cases.long_case(none, b'0', MILLION, none)?;
    cases.long_case(b"1s ", b'0', MILLION, b"1us")?;
    cases.long_case(b"7s", b'0', MILLION, none)?;
    cases.long_case(none, b'9', MILLION, none)?;
    cases.long_case(none, b'9', MILLION, b"w")?;
    cases.long_case(none, b'9', MILLION, b" 1")?;
    cases.long_case(none, b'9', MILLION, b"x")
}

pub fn blanks_and_letters(cases: &Cases<impl Print>) -> io::Result<()> {
    let none: &[u8] = b"";
    cases.long_case(none, b' ', MILLION, none)?;
    cases.long_case(none, b' ', MILLION, b"7s")?;
    cases.long_case(b"7s", b' ', MILLION, none)?;
    cases.long_case(b"7", b' ', MILLION, b"s")?;
    cases.long_case(b"1s", b'\t', MILLION, b"1s")?;
    cases.long_case(b"5", b' ', MILLION, b"20")?;
    cases.long_case(b"7", b's', MILLION, none)
}
