// Lists of items.
ghost use Rattle.havtsulen.specs.Answers.{ReportsSplit, ReportsWrite};

// The items of a text.
#[unsafe(no_mangle)]
pub extern "C" fn havtsulen_split(
    text: &[u8],
    bytes: &mut [u8],
    ends: &mut [usize],
    report: &mut [usize],
) -> usize
    ensures { ReportsSplit text.now bytes.old ends.old report.old result bytes.new ends.new report.new }
{
    havtsulen::havtsulen_split(text, bytes, ends, report)
}

// The text of items.
#[unsafe(no_mangle)]
pub extern "C" fn havtsulen_write(
    bytes: &[u8],
    ends: &[usize],
    out: &mut [u8],
    report: &mut [usize],
) -> usize
    ensures { ReportsWrite bytes.now ends.now out.old report.old result out.new report.new }
{
    havtsulen::havtsulen_write(bytes, ends, out, report)
}
