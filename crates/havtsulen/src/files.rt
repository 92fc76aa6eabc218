// Calls on a whole file.
ghost use Rattle.havtsulen.specs.Answers.{ReportsWellFormedLength, ReportsCheckFile, ReportsRead, ReportsNormalText};

use crate::report::{REPORT_NUMBERS, SHORT_REPORT, tell};

// The length of the longest well-formed start of a text.
pub fn havtsulen_well_formed_length(text: &[u8], report: &mut [usize]) -> usize
    ensures { ReportsWellFormedLength text.now report.old result report.new }
{
    if report.len() < REPORT_NUMBERS {
        return SHORT_REPORT;
    }
    tell(
        Ok::<usize, lines::Error>(lines::well_formed_length(text)),
        report,
    )
}

// What is judged of a whole file: its size, UTF-8, control bytes.
pub fn havtsulen_check_file(file: &[u8], report: &mut [usize]) -> usize
    ensures { ReportsCheckFile file.now report.old result report.new }
{
    if report.len() < REPORT_NUMBERS {
        return SHORT_REPORT;
    }
    tell(lines::check_file(file), report)
}

// The table of a file.
pub fn havtsulen_read(
    file: &[u8],
    text: &mut [u8],
    sections: &mut [usize],
    entries: &mut [usize],
    report: &mut [usize],
) -> usize
    ensures { ReportsRead file.now text.old sections.old entries.old report.old result text.new sections.new entries.new report.new }
{
    if report.len() < REPORT_NUMBERS {
        return SHORT_REPORT;
    }
    tell(table::read(file, text, sections, entries), report)
}

// The normal text of a file.
pub fn havtsulen_normal_text(
    file: &[u8],
    text: &mut [u8],
    sections: &mut [usize],
    entries: &mut [usize],
    out: &mut [u8],
    report: &mut [usize],
) -> usize
    ensures { ReportsNormalText file.now text.old sections.old entries.old out.old report.old result text.new sections.new entries.new out.new report.new }
{
    if report.len() < REPORT_NUMBERS {
        return SHORT_REPORT;
    }
    tell(
        normal_text::normal_text(file, text, sections, entries, out),
        report,
    )
}
