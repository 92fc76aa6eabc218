// One byte in each place of a span.
use crate::Cases;
use std::io;

fn everywhere(cases: &Cases<impl Print>, byte: u8) -> io::Result<()> {
    let none: &[u8] = b"";
    let one: &[u8] = b"1";
    let second: &[u8] = b"1s";
    cases.byte_case(none, byte, none)?;
    cases.byte_case(none, byte, one)?;
    cases.byte_case(one, byte, none)?;
    cases.byte_case(one, byte, b"2")?;
    cases.byte_case(none, byte, second)?;
    cases.byte_case(one, byte, b"s")?;
    cases.byte_case(b"1m", byte, b"s")?;
    cases.byte_case(second, byte, b"2s")?;
    cases.byte_case(second, byte, none)
}

pub fn blanks_and_digits(cases: &Cases<impl Print>) -> io::Result<()> {
    everywhere(cases, b' ')?;
    everywhere(cases, b'\t')?;
    everywhere(cases, b'0')?;
    everywhere(cases, b'9')
}

pub fn letters(cases: &Cases<impl Print>) -> io::Result<()> {
    everywhere(cases, b's')?;
    everywhere(cases, b'h')?;
    everywhere(cases, b'd')?;
    everywhere(cases, b'w')?;
    everywhere(cases, b'm')?;
    everywhere(cases, b'u')?;
    everywhere(cases, b'A')?;
    everywhere(cases, b'Z')?;
    everywhere(cases, b'a')?;
    everywhere(cases, b'z')
}

pub fn control_bytes(cases: &Cases<impl Print>) -> io::Result<()> {
    everywhere(cases, 0x00)?;
    everywhere(cases, 0x08)?;
    everywhere(cases, b'\n')?;
    everywhere(cases, 0x0B)?;
    everywhere(cases, 0x0C)?;
    everywhere(cases, b'\r')?;
    everywhere(cases, 0x1F)?;
    everywhere(cases, 0x7F)
}

pub fn signs(cases: &Cases<impl Print>) -> io::Result<()> {
    everywhere(cases, b'!')?;
    everywhere(cases, b'"')?;
    everywhere(cases, b'+')?;
    everywhere(cases, b',')?;
    everywhere(cases, b'-')?;
    everywhere(cases, b'.')?;
    everywhere(cases, b'/')?;
    everywhere(cases, b':')?;
    everywhere(cases, b';')?;
    everywhere(cases, b'@')?;
    everywhere(cases, b'[')?;
    everywhere(cases, b'_')?;
    everywhere(cases, b'`')?;
    everywhere(cases, b'{')
}

pub fn high_bytes(cases: &Cases<impl Print>) -> io::Result<()> {
    everywhere(cases, 0x80)?;
    everywhere(cases, 0xA0)?;
    everywhere(cases, 0xB1)?;
    everywhere(cases, 0xB5)?;
    everywhere(cases, 0xC2)?;
    everywhere(cases, 0xF3)?;
    everywhere(cases, 0xFF)
}
