// Lists of items.
ghost use Rattle.havtsulen.specs.Answers.{ReportsSplit, ReportsWrite};

use crate::report::{REPORT_NUMBERS, SHORT_REPORT, tell};

// The items of a text.
pub fn havtsulen_split(
    text: &[u8],
    bytes: &mut [u8],
    ends: &mut [usize],
    report: &mut [usize],
) -> usize
    ensures { ReportsSplit text.now bytes.old ends.old report.old result bytes.new ends.new report.new }
{
    if report.len() < REPORT_NUMBERS {
        return SHORT_REPORT;
    }
    tell(items::split(text, bytes, ends), report)
}

// The text of items.
pub fn havtsulen_write(bytes: &[u8], ends: &[usize], out: &mut [u8], report: &mut [usize]) -> usize
    ensures { ReportsWrite bytes.now ends.now out.old report.old result out.new report.new }
{
    if report.len() < REPORT_NUMBERS {
        return SHORT_REPORT;
    }
    tell(item_writer::write(bytes, ends, out), report)
}
