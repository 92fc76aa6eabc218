// Booleans and time spans.
ghost use Rattle.havtsulen.specs.Answers.{ReportsBoolean, ReportsSpan};

// The truth that a text states.
#[unsafe(no_mangle)]
pub extern "C" fn havtsulen_boolean(text: &[u8], report: &mut [usize]) -> usize
    ensures { ReportsBoolean text.now report.old result report.new }
{
    havtsulen::havtsulen_boolean(text, report)
}

// How many microseconds a text states. A usize has 64 bits, so that every number of them fits.
#[unsafe(no_mangle)]
pub extern "C" fn havtsulen_span(text: &[u8], report: &mut [usize]) -> usize
    ensures { ReportsSpan text.now report.old result report.new }
{
    havtsulen::havtsulen_span(text, report)
}
