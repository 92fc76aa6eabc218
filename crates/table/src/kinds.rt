// The parts of a trimmed line.
ghost use Rattle.std.specs.Prelude.{◌≡◌, ◌≤◌, length, MatchOption};
ghost use Rattle.lines.specs.Bytes.{key_byte, header_byte};
ghost use Rattle.table.specs.LineKinds.{header, fault, one_or_more, header_kind};
ghost use Rattle.table.specs.Steps.{OffsetFound};

use lines::{is_header_byte, is_key_byte};

// The offset of the first such byte.
pub(crate) fn offset_of(byte: u8, line: &[u8]) -> Option<usize>
    ensures { OffsetFound byte line.now result }
{
    line.iter().position(|b| *b == byte)
}

// One or more bytes that a key may have.
pub(crate) fn is_key(part: &[u8]) -> bool
    ensures { result ≡ one_or_more key_byte part.now }
{
    !part.is_empty() && part.iter().all(|b| is_key_byte(*b))
}

// One or more bytes that a section's name may have.
fn is_name(part: &[u8]) -> bool
    ensures { result ≡ one_or_more header_byte part.now }
{
    !part.is_empty() && part.iter().all(|b| is_header_byte(*b))
}

// The name of a header, from the bytes behind its leading [: what stands before a ] at the end.
pub(crate) fn header_name(rest: &[u8]) -> Option<&[u8]>
    ensures { MatchOption result (header_kind rest.now ≡ fault 6) (λ name. (header_kind rest.now ≡ header name.now) × (length name.now ≤ length rest.now)) }
{
    let (last, name) = rest.split_last()?;
    if *last == b']' && is_name(name) {
        Some(name)
    } else {
        None
    }
}
