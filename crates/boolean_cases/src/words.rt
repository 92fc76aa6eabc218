// The eight words, and texts that are close to them.
use crate::Cases;
use std::io;

pub fn accepted(cases: &Cases<impl Print>) -> io::Result<()> {
    cases.case(b"1")?;
    cases.case(b"yes")?;
    cases.case(b"true")?;
    cases.case(b"on")?;
    cases.case(b"0")?;
    cases.case(b"no")?;
    cases.case(b"false")?;
    cases.case(b"off")
}

pub fn upper_case_true(cases: &Cases<impl Print>) -> io::Result<()> {
    cases.case(b"Yes")?;
    cases.case(b"yEs")?;
    cases.case(b"yeS")?;
    cases.case(b"YES")?;
    cases.case(b"True")?;
    cases.case(b"tRue")?;
    cases.case(b"trUe")?;
    cases.case(b"truE")?;
    cases.case(b"TRUE")?;
    cases.case(b"On")?;
    cases.case(b"oN")?;
    cases.case(b"ON")
}

pub fn upper_case_false(cases: &Cases<impl Print>) -> io::Result<()> {
    cases.case(b"No")?;
    cases.case(b"nO")?;
    cases.case(b"NO")?;
    cases.case(b"False")?;
    cases.case(b"fAlse")?;
    cases.case(b"faLse")?;
    cases.case(b"falSe")?;
    cases.case(b"falsE")?;
    cases.case(b"FALSE")?;
    cases.case(b"Off")?;
    cases.case(b"oFf")?;
    cases.case(b"ofF")?;
    cases.case(b"OFF")
}

pub fn with_more_bytes(cases: &Cases<impl Print>) -> io::Result<()> {
    around(cases, b"1")?;
    around(cases, b"yes")?;
    around(cases, b"true")?;
    around(cases, b"on")?;
    around(cases, b"0")?;
    around(cases, b"no")?;
    around(cases, b"false")?;
    around(cases, b"off")
}

// One byte before a word, and one behind it.
fn around(cases: &Cases<impl Print>, word: &[u8]) -> io::Result<()> {
    let none: &[u8] = b"";
    cases.byte_case(none, b' ', word)?;
    cases.byte_case(none, b'\t', word)?;
    cases.byte_case(none, b'\n', word)?;
    cases.byte_case(word, b' ', none)?;
    cases.byte_case(word, b'\t', none)?;
    cases.byte_case(word, b'\n', none)?;
    cases.byte_case(word, b'\r', none)?;
    cases.byte_case(word, 0x00, none)?;
    cases.byte_case(word, 0xFF, none)
}

pub fn between_blanks(cases: &Cases<impl Print>) -> io::Result<()> {
    cases.case(b" 1 ")?;
    cases.case(b" yes ")?;
    cases.case(b" true ")?;
    cases.case(b" on ")?;
    cases.case(b" 0 ")?;
    cases.case(b" no ")?;
    cases.case(b" false ")?;
    cases.case(b" off ")
}

// Starts and ends of words.
pub fn pieces(cases: &Cases<impl Print>) -> io::Result<()> {
    cases.case(b"")?;
    cases.case(b"y")?;
    cases.case(b"ye")?;
    cases.case(b"t")?;
    cases.case(b"tr")?;
    cases.case(b"tru")?;
    cases.case(b"o")?;
    cases.case(b"n")?;
    cases.case(b"f")?;
    cases.case(b"fa")?;
    cases.case(b"fal")?;
    cases.case(b"fals")?;
    cases.case(b"of")?;
    cases.case(b"es")?;
    cases.case(b"s")?;
    cases.case(b"rue")?;
    cases.case(b"e")?;
    cases.case(b"alse")?;
    cases.case(b"ff")
}

pub fn longer(cases: &Cases<impl Print>) -> io::Result<()> {
    cases.case(b"11")?;
    cases.case(b"10")?;
    cases.case(b"01")?;
    cases.case(b"00")?;
    cases.case(b"yess")?;
    cases.case(b"truee")?;
    cases.case(b"one")?;
    cases.case(b"onn")?;
    cases.case(b"noo")?;
    cases.case(b"not")?;
    cases.case(b"falsee")?;
    cases.case(b"offf")
}

// The first or the last byte replaced by a neighbour in ASCII.
pub fn changed(cases: &Cases<impl Print>) -> io::Result<()> {
    cases.case(b"/")?;
    cases.case(b"2")?;
    cases.case(b"xes")?;
    cases.case(b"yer")?;
    cases.case(b"urue")?;
    cases.case(b"trud")?;
    cases.case(b"nn")?;
    cases.case(b"om")?;
    cases.case(b"mo")?;
    cases.case(b"np")?;
    cases.case(b"ealse")?;
    cases.case(b"falsd")?;
    cases.case(b"pff")?;
    cases.case(b"ofe")
}
