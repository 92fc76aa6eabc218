// Booleans and time spans.
ghost use Rattle.havtsulen.specs.Answers.{ReportsBoolean, ReportsSpan};

use crate::report::{REPORT_NUMBERS, SHORT_REPORT, tell};

// The truth that a text states.
pub fn havtsulen_boolean(text: &[u8], report: &mut [usize]) -> usize
    ensures { ReportsBoolean text.now report.old result report.new }
{
    if report.len() < REPORT_NUMBERS {
        return SHORT_REPORT;
    }
    tell(values::boolean(text), report)
}

// How many microseconds a text states. A usize has 64 bits, so that every number of them fits.
pub fn havtsulen_span(text: &[u8], report: &mut [usize]) -> usize
    ensures { ReportsSpan text.now report.old result report.new }
{
    if report.len() < REPORT_NUMBERS {
        return SHORT_REPORT;
    }
    tell(values::span(text), report)
}
