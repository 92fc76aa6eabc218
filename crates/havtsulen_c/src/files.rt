// Calls on a whole file.
ghost use Rattle.havtsulen.specs.Answers.{ReportsWellFormedLength, ReportsCheckFile, ReportsRead, ReportsNormalText};

// The length of the longest well-formed start of a text.
#[unsafe(no_mangle)]
pub extern "C" fn havtsulen_well_formed_length(text: &[u8], report: &mut [usize]) -> usize
    ensures { ReportsWellFormedLength text.now report.old result report.new }
{
    havtsulen::havtsulen_well_formed_length(text, report)
}

// What is judged of a whole file: its size, UTF-8, control bytes.
#[unsafe(no_mangle)]
pub extern "C" fn havtsulen_check_file(file: &[u8], report: &mut [usize]) -> usize
    ensures { ReportsCheckFile file.now report.old result report.new }
{
    havtsulen::havtsulen_check_file(file, report)
}

// The table of a file.
#[unsafe(no_mangle)]
pub extern "C" fn havtsulen_read(
    file: &[u8],
    text: &mut [u8],
    sections: &mut [usize],
    entries: &mut [usize],
    report: &mut [usize],
) -> usize
    ensures { ReportsRead file.now text.old sections.old entries.old report.old
        result text.new sections.new entries.new report.new }
{
    havtsulen::havtsulen_read(file, text, sections, entries, report)
}

// The normal text of a file.
#[unsafe(no_mangle)]
pub extern "C" fn havtsulen_normal_text(
    file: &[u8],
    text: &mut [u8],
    sections: &mut [usize],
    entries: &mut [usize],
    out: &mut [u8],
    report: &mut [usize],
) -> usize
    ensures { ReportsNormalText file.now text.old sections.old entries.old out.old report.old
        result text.new sections.new entries.new out.new report.new }
{
    havtsulen::havtsulen_normal_text(file, text, sections, entries, out, report)
}
