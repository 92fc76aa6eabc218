// The largest span, 18446744073709551615 microseconds, and larger ones.
use crate::Cases;
use std::io;

// The largest number in each unit, and one more.
pub fn units(cases: &Cases<impl Print>) -> io::Result<()> {
    cases.case(b"18446744073709551615us")?;
    cases.case(b"18446744073709551616us")?;
    cases.case(b"18446744073709551ms")?;
    cases.case(b"18446744073709552ms")?;
    cases.case(b"18446744073709s")?;
    cases.case(b"18446744073710s")?;
    cases.case(b"307445734561min")?;
    cases.case(b"307445734562min")?;
    cases.case(b"5124095576h")?;
    cases.case(b"5124095577h")?;
    cases.case(b"213503982d")?;
    cases.case(b"213503983d")?;
    cases.case(b"30500568w")?;
    cases.case(b"30500569w")
}

// Numbers of 19 and 20 digits.
pub fn digits(cases: &Cases<impl Print>) -> io::Result<()> {
    cases.case(b"9999999999999999999us")?;
    cases.case(b"10000000000000000000us")?;
    cases.case(b"18446744073709551609us")?;
    cases.case(b"18446744073709551619us")?;
    cases.case(b"18446744073709551620us")?;
    cases.case(b"99999999999999999999us")?;
    cases.case(b"99999999999999999999")
}

// In microseconds they are multiples of 2 to the 64.
pub fn multiples(cases: &Cases<impl Print>) -> io::Result<()> {
    cases.case(b"36893488147419103232us")?;
    cases.case(b"184467440737095516160us")?;
    cases.case(b"2305843009213693952ms")?;
    cases.case(b"288230376151711744")?;
    cases.case(b"72057594037927936min")?;
    cases.case(b"18014398509481984h")?;
    cases.case(b"2251799813685248d")?;
    cases.case(b"2251799813685248w")
}

pub fn sums(cases: &Cases<impl Print>) -> io::Result<()> {
    cases.case(b"18446744073709551614us 1us")?;
    cases.case(b"18446744073709551615us 1us")?;
    cases.case(b"1us 18446744073709551615us")?;
    cases.case(b"18446744073709551615us 0w")?;
    cases.case(b"18446744073709551615us 0us 1us")?;
    cases.case(b"18446744073709s 551615us")?;
    cases.case(b"18446744073709s 551616us")?;
    cases.case(b"30500568w 6d 8h 1min 49s 551ms 615us")?;
    cases.case(b"30500568w 6d 8h 1min 49s 551ms 616us")?;
    cases.case(b"615us551ms49s1min8h6d30500568w")?;
    cases.case(b"616us551ms49s1min8h6d30500568w")?;
    cases.case(b"9223372036854775807us 9223372036854775808us")?;
    cases.case(b"9223372036854775808us 9223372036854775808us")?;
    cases.case(b"15250284w 15250284w")?;
    cases.case(b"15250284w 15250285w")
}

// Too large a number beside others.
pub fn too_large(cases: &Cases<impl Print>) -> io::Result<()> {
    cases.case(b"18446744073709551616us 1us")?;
    cases.case(b"1us 18446744073709551616us")?;
    cases.case(b"18446744073709551616us 0us")?;
    cases.case(b"18446744073709551616us 18446744073709551616us")?;
    cases.case(b"30500569w 30500569w")?;
    cases.case(b"99999999999999999999s 99999999999999999999w")
}
