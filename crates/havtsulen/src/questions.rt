// Questions to the table that stands in buffers.
ghost use Rattle.std.specs.Prelude.{◌≡◌};
ghost use Rattle.lookup.specs.Decoding.{lent};
ghost use Rattle.havtsulen.specs.Answers.{which_of, ReportsFind, ReportsValueCheck, ReportsValue};

use crate::report::{REPORT_NUMBERS, SHORT_REPORT, tell};
use lookup::{Lent, Part, Which};

// Which entry a number asks for: 0 the first, any other the last.
fn which_of(which: usize) -> Which
    ensures { result ≡ which_of which }
{
    if which == 0 {
        return Which::First;
    }
    Which::Last
}

// The index of the first or the last entry with this section name and key.
pub fn havtsulen_find(
    section: &[u8],
    key: &[u8],
    which: usize,
    text: &[u8],
    sections: &[usize],
    section_count: usize,
    entries: &[usize],
    entry_count: usize,
    report: &mut [usize],
) -> usize
    ensures { ReportsFind (lent text.now sections.now section_count entries.now entry_count) which section.now key.now report.old result report.new }
{
    if report.len() < REPORT_NUMBERS {
        return SHORT_REPORT;
    }
    let lent = Lent {
        text,
        sections,
        section_count,
        entries,
        entry_count,
    };
    tell(lent.find(section, key, which_of(which)), report)
}

// Where the value of the entry with this index stands in the text, or why there is none.
pub fn havtsulen_value_check(
    index: usize,
    text: &[u8],
    sections: &[usize],
    section_count: usize,
    entries: &[usize],
    entry_count: usize,
    report: &mut [usize],
) -> usize
    ensures { ReportsValueCheck (lent text.now sections.now section_count entries.now entry_count) index report.old result report.new }
{
    if report.len() < REPORT_NUMBERS {
        return SHORT_REPORT;
    }
    let lent = Lent {
        text,
        sections,
        section_count,
        entries,
        entry_count,
    };
    tell(lent.value_check(index), report)
}

// The value: start and length of a part of the text; the empty part at its start where `havtsulen_value_check` refuses.
pub fn havtsulen_value(
    index: usize,
    text: &[u8],
    sections: &[usize],
    section_count: usize,
    entries: &[usize],
    entry_count: usize,
    report: &mut [usize],
) -> usize
    ensures { ReportsValue (lent text.now sections.now section_count entries.now entry_count) index report.old result report.new }
{
    if report.len() < REPORT_NUMBERS {
        return SHORT_REPORT;
    }
    let lent = Lent {
        text,
        sections,
        section_count,
        entries,
        entry_count,
    };
    let empty = Part {
        start: 0,
        length: 0,
    };
    tell(
        lent.value_check(index).or(Ok::<Part, lookup::Error>(empty)),
        report,
    )
}
