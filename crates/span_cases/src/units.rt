// Units behind numbers.
use crate::Cases;
use listing::lay_apart;
use std::io;

// A unit, or what is none, alone and behind numbers.
pub fn unit_cases(cases: &Cases<impl Print>, unit: &[u8]) -> io::Result<()> {
    cases.case(unit)?;
    number_case(cases, b"0", unit)?;
    number_case(cases, b"1", unit)?;
    number_case(cases, b"25", unit)?;
    number_case(cases, b"3 ", unit)
}

fn number_case(cases: &Cases<impl Print>, number: &[u8], unit: &[u8]) -> io::Result<()> {
    let mut buffer = [0u8; 64];
    let length = lay_apart(&mut buffer, number, 0, unit);
    cases.case(&buffer[..length])
}
