// UTF-8, by the rows of RFC 3629, section 4.
ghost use Rattle.std.specs.Prelude.{◌≡◌, ◌≤◌, ◌<◌, length, take, true};
ghost use Rattle.lines.specs.Utf8.{utf8, longest_start};

use crate::bytes::is_between;
use simdutf8::is_utf8;
use std::str;

// The most bytes that are tested at once: behind a fault, no more than these are read.
const PART: usize = 1024;

// Fewer bytes than these are tested one after another: that is quicker.
const FEW: usize = 32;

// How many bytes at the start are tested at once: all of a short text. Of a longer one so many that they cut no
// character, unless more than three bytes in a row start none.
fn part_length(text: &[u8]) -> usize
    ensures inside { result ≤ length text.now }
    ensures some { 0 < length text.now → 0 < result }
{
    if text.len() <= PART {
        return text.len();
    }
    match text[PART - 3..=PART]
        .iter()
        .rposition(|b| !is_between(0x80, 0xBF, *b))
    {
        Some(at) => PART - 3 + at,
        None => PART,
    }
}

// How many bytes at the start lie in parts that are well-formed.
fn passed_parts(text: &[u8]) -> usize
    ensures inside { result ≤ length text.now }
    ensures passed { utf8 (take result text.now) ≡ true }
{
    let mut at = 0;
    while FEW <= text.len() - at {
        let end = at + part_length(&text[at..]);
        if !is_utf8(&text[at..end]) {
            return at;
        }
        at = end;
    }
    at
}

// The length of the longest well-formed start, as std finds it.
#[tactic(auto, using(crate::proofs::StdUtf8::length_of_std, crate::proofs::StdUtf8::valid_len_of_std))]
fn length_by_std(text: &[u8]) -> usize
    ensures inside { result ≤ length text.now }
    ensures longest { result ≡ longest_start text.now }
{
    match str::from_utf8(text) {
        Ok(_) => text.len(),
        Err(e) => e.valid_up_to(),
    }
}

// The length of the longest well-formed start: the parts, and what std finds behind them.
#[tactic(auto, using(crate::proofs::LongestStart::longest_start_from, crate::proofs::Slices::part_from))]
pub fn well_formed_length(text: &[u8]) -> usize
    ensures { result ≡ longest_start text.now }
{
    let at = passed_parts(text);
    at + length_by_std(&text[at..])
}
