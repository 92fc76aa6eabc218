// Spans, and what stands in them.
use crate::Cases;
use crate::units::unit_cases;
use std::io;

// The bench cases, and the man page's bare number.
pub fn bench(cases: &Cases<impl Print>) -> io::Result<()> {
    cases.case(b"2min 200ms")?;
    cases.case(b"18446744073710")?;
    cases.case(b"18446744073709")?;
    cases.case(b"5 20")?;
    cases.case(b"50")
}

pub fn units(cases: &Cases<impl Print>) -> io::Result<()> {
    unit_cases(cases, b"us")?;
    unit_cases(cases, b"ms")?;
    unit_cases(cases, b"s")?;
    unit_cases(cases, b"min")?;
    unit_cases(cases, b"h")?;
    unit_cases(cases, b"d")?;
    unit_cases(cases, b"w")
}

// Several parts, in any order.
pub fn parts(cases: &Cases<impl Print>) -> io::Result<()> {
    cases.case(b"1w 2d 3h 4min 5s 6ms 7us")?;
    cases.case(b"1w2d3h4min5s6ms7us")?;
    cases.case(b"7us 6ms 5s 4min 3h 2d 1w")?;
    cases.case(b"7us6ms5s4min3h2d1w")?;
    cases.case(b"1s 1s")?;
    cases.case(b"1s1s")?;
    cases.case(b"1us1w")?;
    cases.case(b"1min1ms")?;
    cases.case(b"1ms1min1us")?;
    cases.case(b"1h 30min")?;
    cases.case(b"1d 24h 1440min")?;
    cases.case(b"1s1s1s1s1s1s1s1s1s1s1s1s1s1s1s1s1s1s1s1s1s1s1s1s1s1s1s1s1s1s1s1s")
}

pub fn numbers(cases: &Cases<impl Print>) -> io::Result<()> {
    cases.case(b"0")?;
    cases.case(b"00")?;
    cases.case(b"0w 0d 0h 0min 0s 0ms 0us")?;
    cases.case(b"7")?;
    cases.case(b"007")?;
    cases.case(b"86400")?;
    cases.case(b"1234567890")?;
    cases.case(b"000000000000000000000000000001s")?;
    cases.case(b"00000000000000000000018446744073709551615us")?;
    cases.case(b"00000000000000000000018446744073709551616us")
}

pub fn blanks(cases: &Cases<impl Print>) -> io::Result<()> {
    cases.case(b"   5   ")?;
    cases.case(b"5   s")?;
    cases.case(b"1s   2s")?;
    cases.case(b"1 s2 s")?;
    cases.case(b"  1  s  2  min  ")?;
    cases.named_case("a tab and a blank on both sides of 5", b"\t 5 \t")?;
    cases.named_case("tabs and blanks in each place", b" \t1\t \tmin \t 2 \ts\t ")
}
