// Texts that are far from the eight words.
use crate::Cases;
use std::io;

const MILLION: usize = 1000000;

pub fn texts(cases: &Cases<impl Print>) -> io::Result<()> {
    cases.case(b"enabled")?;
    cases.case(b"disabled")?;
    cases.case(b"Y")?;
    cases.case(b"N")?;
    cases.case(b"yesno")?;
    cases.case(b"yes no")?;
    cases.case(b"\"yes\"")?;
    cases.case(b"-1")?;
    cases.case(b"+1")?;
    cases.case(b"1.0")?;
    cases.case(b"0x1")?;
    cases.case(b"1s")
}

// Bytes that do not print, and characters that look like the words.
pub fn characters(cases: &Cases<impl Print>) -> io::Result<()> {
    let none: &[u8] = b"";
    cases.byte_case(none, 0x00, none)?;
    cases.byte_case(none, b' ', none)?;
    cases.byte_case(none, 0xB1, none)?;
    cases.byte_case(none, 0xFF, none)?;
    cases.byte_case(none, 0xF9, b"es")?;
    cases.byte_case(b"n", 0xEF, none)?;
    cases.byte_case(b"of", 0x00, b"f")?;
    cases.case(b"\xEF\xBC\x91")?;
    cases.case(b"\xEF\xBD\x8F\xEF\xBD\x8E")?;
    cases.case(b"o\xEF\xAC\x80")?;
    cases.named_case("a byte order mark before on", b"\xEF\xBB\xBFon")
}

// Runs of a million bytes.
pub fn long_texts(cases: &Cases<impl Print>) -> io::Result<()> {
    let none: &[u8] = b"";
    cases.long_case(none, b'1', MILLION, none)?;
    cases.long_case(none, b'0', MILLION, none)?;
    cases.long_case(b"yes", b' ', MILLION, none)?;
    cases.long_case(none, b' ', MILLION, b"yes")?;
    cases.long_case(b"fals", b'e', MILLION, none)
}
