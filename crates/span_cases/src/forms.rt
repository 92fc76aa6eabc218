// Texts that do not have the form.
use crate::Cases;
use crate::units::unit_cases;
use std::io;

// Names that are no unit.
pub fn short_names(cases: &Cases<impl Print>) -> io::Result<()> {
    unit_cases(cases, b"m")?;
    unit_cases(cases, b"mi")?;
    unit_cases(cases, b"u")?;
    unit_cases(cases, b"M")?;
    unit_cases(cases, b"S")?;
    unit_cases(cases, b"US")?;
    unit_cases(cases, b"mS")?;
    unit_cases(cases, b"Min")?;
    unit_cases(cases, b"H")?;
    unit_cases(cases, b"D")?;
    unit_cases(cases, b"W")
}

// Longer runs of letters.
pub fn long_names(cases: &Cases<impl Print>) -> io::Result<()> {
    unit_cases(cases, b"mins")?;
    unit_cases(cases, b"smin")?;
    unit_cases(cases, b"minus")?;
    unit_cases(cases, b"ss")?;
    unit_cases(cases, b"dw")?;
    unit_cases(cases, b"sec")?;
    unit_cases(cases, b"ns")
}

pub fn no_text(cases: &Cases<impl Print>) -> io::Result<()> {
    cases.case(b"")?;
    cases.case(b"   ")
}

// Numbers without a unit.
pub fn bare_numbers(cases: &Cases<impl Print>) -> io::Result<()> {
    cases.case(b"1s 5")?;
    cases.case(b"1s5")?;
    cases.case(b"5 1s")?;
    cases.case(b"1 0s")?;
    cases.case(b"1h30")?;
    cases.case(b"1 2 3s")?;
    cases.case(b"0 0")
}

// Units without a number, or in pieces.
pub fn bare_units(cases: &Cases<impl Print>) -> io::Result<()> {
    cases.case(b"min 1")?;
    cases.case(b"s1")?;
    cases.case(b"1s min")?;
    cases.case(b"1 s min")?;
    cases.case(b"1m in")?;
    cases.case(b"1u s")
}

// Signs, and other ways to write a number.
pub fn notations(cases: &Cases<impl Print>) -> io::Result<()> {
    cases.case(b"-1")?;
    cases.case(b"+1")?;
    cases.case(b"-1s")?;
    cases.case(b"1s -1s")?;
    cases.case(b"1.5s")?;
    cases.case(b".5s")?;
    cases.case(b"1,5s")?;
    cases.case(b"1_000")?;
    cases.case(b"0x10")?;
    cases.case(b"1e3")?;
    cases.case(b"infinity")?;
    cases.case(b"yes")
}

// Form is judged before size.
pub fn large_numbers(cases: &Cases<impl Print>) -> io::Result<()> {
    cases.case(b"18446744073709551616us 1")?;
    cases.case(b"18446744073709551616us 1x")?;
    cases.case(b"99999999999999999999 x")?;
    cases.case(b"99999999999999999999 1")?;
    cases.case(b"x 99999999999999999999")?;
    cases.case(b"18446744073709551615us 1us 1")
}

// Characters that look like those of a span.
pub fn characters(cases: &Cases<impl Print>) -> io::Result<()> {
    cases.case(b"1\xC2\xB5s")?;
    cases.case(b"\xD9\xA1s")?;
    cases.case(b"\xEF\xBC\x91s")?;
    cases.case(b"1\xC5\xBF")?;
    cases.named_case("a no-break space between parts", b"1s\xC2\xA02s")
}
