// The lines of the normal text. Each function puts some of it into the output buffer from an index on, and answers the index
// behind it.
ghost use Rattle.std.specs.Prelude.{◌+◌, ◌≤◌, ◌<◌, length, get_or};
ghost use Rattle.lines.specs.Buffers.{Puts};
ghost use Rattle.lookup.specs.Decoding.{lent_of};
ghost use Rattle.lookup.specs.Laws.{Sound};
ghost use Rattle.lookup.specs.Steps.{entry_of};
ghost use Rattle.normal_text.specs.Sections.{pair_of};
ghost use Rattle.normal_text.specs.NormalText.{header_line, padded, entry_line, normal_text};
ghost use Rattle.normal_text.specs.Steps.{name_at, entries_said, sections_said, AreLinks, with_lf, entries_text, pair_with};

use crate::links::Links;
use lines::{copy_into, is_continued};
use lookup::Lent;

// A section's line.
fn put_header(name: &[u8], out: &mut [u8], at: usize) -> usize
    requires { at + (length name.now + 3) ≤ length out.old }
    ensures { Puts out.old at (with_lf (header_line name.now)) result out.new }
{
    out[at] = b'[';
    copy_into(name, out, at + 1);
    let end = at + 1 + name.len();
    out[end] = b']';
    out[end + 1] = b'\n';
    end + 2
}

// A value, and the space behind an odd run of backslashes.
fn put_value(value: &[u8], out: &mut [u8], at: usize) -> usize
    requires { at + length (padded value.now) ≤ length out.old }
    ensures { Puts out.old at (padded value.now) result out.new }
{
    copy_into(value, out, at);
    let end = at + value.len();
    if is_continued(value) {
        out[end] = b' ';
        return end + 1;
    }
    end
}

// An entry's line.
fn put_entry(key: &[u8], value: &[u8], out: &mut [u8], at: usize) -> usize
    requires { at + length (with_lf (entry_line (pair_with key.now value.now))) ≤ length out.old }
    ensures { Puts out.old at (with_lf (entry_line (pair_with key.now value.now))) result out.new }
{
    copy_into(key, out, at);
    let sign = at + key.len();
    out[sign] = b'=';
    let end = put_value(value, out, sign + 1);
    out[end] = b'\n';
    end + 1
}

// The line of the section whose record stands from an index on.
fn put_name(table: Lent, from: usize, out: &mut [u8], at: usize) -> usize
    requires { (from + 2 ≤ length table.sections.now) × (get_or table.sections.now from 0 + get_or table.sections.now (from + 1) 0 ≤ length table.text.now) × (at + length (with_lf (header_line (name_at table.text.now table.sections.now from))) ≤ length out.old) }
    ensures { Puts out.old at (with_lf (header_line (name_at table.entry.text.now table.entry.sections.now from))) result out.new }
{
    let start = table.sections[from];
    put_header(
        &table.text[start..start + table.sections[from + 1]],
        out,
        at,
    )
}

// The line of the entry whose record stands from an index on.
fn put_record(table: Lent, from: usize, out: &mut [u8], at: usize) -> usize
    requires { (from + 5 ≤ length table.entries.now) × (get_or table.entries.now (from + 1) 0 + get_or table.entries.now (from + 2) 0 ≤ length table.text.now) × (get_or table.entries.now (from + 3) 0 + get_or table.entries.now (from + 4) 0 ≤ length table.text.now) × (at + length (with_lf (entry_line (pair_of (entry_of table.text.now table.entries.now from)))) ≤ length out.old) }
    ensures { Puts out.old at (with_lf (entry_line (pair_of (entry_of table.entry.text.now table.entry.entries.now from)))) result out.new }
{
    let key = table.entries[from + 1];
    let value = table.entries[from + 3];
    put_entry(
        &table.text[key..key + table.entries[from + 2]],
        &table.text[value..value + table.entries[from + 4]],
        out,
        at,
    )
}

// The lines of the entries of a section.
fn put_entries(table: Lent, links: &Links, section: usize, out: &mut [u8], at: usize) -> usize
    requires sound { Sound (lent_of table) }
    requires few { table.entry_count ≤ 512 }
    requires linked { AreLinks (lent_of table) links.now }
    requires section { section < 64 }
    requires space { at + length (entries_text section (entries_said (lent_of table))) ≤ length out.old }
    ensures { Puts out.old at (entries_text section (entries_said (lent_of table.entry))) result out.new }
{
    let mut end = at;
    let mut next = links.firsts[section];
    while let Some(i) = next {
        end = put_record(table, 5 * i, out, end);
        next = links.nexts[i];
    }
    end
}

// The lines of all sections, from the start of the output buffer.
pub(crate) fn put_sections(table: Lent, links: &Links, out: &mut [u8]) -> usize
    requires sound { Sound (lent_of table) }
    requires few_sections { table.section_count ≤ 64 }
    requires few_entries { table.entry_count ≤ 512 }
    requires linked { AreLinks (lent_of table) links.now }
    requires space { length (normal_text (sections_said (lent_of table))) ≤ length out.old }
    ensures { Puts out.old 0 (normal_text (sections_said (lent_of table.entry))) result out.new }
{
    let mut end = 0;
    for j in 0..table.section_count {
        end = put_name(table, 2 * j, out, end);
        end = put_entries(table, links, j, out, end);
    }
    end
}
