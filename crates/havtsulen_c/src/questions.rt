// Questions to the table that stands in buffers.
ghost use Rattle.lookup.specs.Decoding.{lent};
ghost use Rattle.havtsulen.specs.Answers.{ReportsFind, ReportsValueCheck, ReportsValue};

// The index of the first or the last entry with this section name and key.
#[unsafe(no_mangle)]
pub extern "C" fn havtsulen_find(
    section: &[u8],
    key: &[u8],
    which: usize,
    text: &[u8],
    sections: &[usize],
    section_count: usize,
    entries: &[usize],
    entry_count: usize,
    report: &mut [usize],
) -> usize
    ensures { ReportsFind (lent text.now sections.now section_count entries.now entry_count)
        which section.now key.now report.old result report.new }
{
    havtsulen::havtsulen_find(
        section,
        key,
        which,
        text,
        sections,
        section_count,
        entries,
        entry_count,
        report,
    )
}

// Where the value of the entry with this index stands in the text, or why there is none.
#[unsafe(no_mangle)]
pub extern "C" fn havtsulen_value_check(
    index: usize,
    text: &[u8],
    sections: &[usize],
    section_count: usize,
    entries: &[usize],
    entry_count: usize,
    report: &mut [usize],
) -> usize
    ensures { ReportsValueCheck (lent text.now sections.now section_count entries.now entry_count)
        index report.old result report.new }
{
    havtsulen::havtsulen_value_check(
        index,
        text,
        sections,
        section_count,
        entries,
        entry_count,
        report,
    )
}

// The value: start and length of a part of the text; the empty part at its start where `havtsulen_value_check` refuses.
#[unsafe(no_mangle)]
pub extern "C" fn havtsulen_value(
    index: usize,
    text: &[u8],
    sections: &[usize],
    section_count: usize,
    entries: &[usize],
    entry_count: usize,
    report: &mut [usize],
) -> usize
    ensures { ReportsValue (lent text.now sections.now section_count entries.now entry_count)
        index report.old result report.new }
{
    havtsulen::havtsulen_value(
        index,
        text,
        sections,
        section_count,
        entries,
        entry_count,
        report,
    )
}
