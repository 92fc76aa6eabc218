// The splitter: a text into items.
ghost use Rattle.std.specs.Prelude.{◌≡◌, ◌+◌, ◌≤◌, length, position};
ghost use Rattle.lines.specs.Bytes.{any};
ghost use Rattle.lines.specs.Buffers.{put};
ghost use Rattle.items.specs.Pieces.{pieces};
ghost use Rattle.items.specs.Split.{forbidden, step, items_of};
ghost use Rattle.items.specs.Answers.{SplitLeaves, Splits};
ghost use Rattle.items.specs.Steps.{pieces_at, rest_of, BlanksFirst, StepTaken, ReadAll};

use crate::error::Error;
use crate::pieces::{Mode, Piece, is_quote, piece_at};
use lines::{copy_into, is_blank};

// How many items there are, and how many bytes they have together.
#[derive(Clone, Copy)]
pub struct Counts {
    pub items: usize,
    pub bytes: usize,
}

// Each reading step finds an item, the end, or one of the refusals.
#[derive(Clone, Copy)]
enum Step {
    // Where reading goes on, and how many bytes the buffer then holds.
    Item { next: usize, size: usize },
    End,
    Refused(Error),
}

// The least sizes of the buffers for items, and the longest text.
const BYTES: usize = 4096;

const ENDS: usize = 256;

const LONGEST: usize = 4096;

// ---- bytes that are refused

// A byte that a text to split may not have.
fn is_forbidden(b: u8) -> bool
    ensures { result ≡ forbidden b }
{
    b.is_ascii_control() && b != b'\t'
}

// Whether a text has such a byte. It does not stop at the first one: so the compiler can take many bytes at a time.
fn has_forbidden(text: &[u8]) -> bool
    ensures { result ≡ any forbidden text.now }
{
    text.iter().fold(false, |found, &b| found | is_forbidden(b))
}

// The offset of the first such byte.
#[tactic(auto, using(crate::proofs::Forbidden::no_position))]
fn first_forbidden(text: &[u8]) -> Option<usize>
    ensures { result ≡ position forbidden text.now }
{
    if !has_forbidden(text) {
        return None;
    }
    text.iter().position(|b| is_forbidden(*b))
}

// ---- an item

// Puts bytes into a buffer from an index on. An escape gives mostly one byte, and to call for a copy of one takes far longer
// than to store it.
fn store(part: &[u8], buffer: &mut [u8], at: usize)
    requires { at + length part.now ≤ length buffer.old }
    ensures { buffer.new ≡ put buffer.old at part.now }
{
    if let [b] = part {
        buffer[at] = *b;
    } else {
        copy_into(part, buffer, at);
    }
}

// The rest of an item, into a buffer from an index on.
fn read_item(text: &[u8], mode: Mode, start: usize, buffer: &mut [u8], used: usize) -> Step
    requires { (length text.now ≤ length buffer.old) × (start ≤ length text.now) × (used ≤ start) }
    ensures { StepTaken text.now (rest_of mode (pieces_at text.now start)) used buffer.old buffer.new result }
{
    let mut at = start;
    let mut size = used;
    loop {
        match piece_at(text, mode, at) {
            Ok(Piece::Plain(b)) => {
                buffer[size] = b;
                size += 1;
                at += 1;
            }
            Ok(Piece::Bytes { bytes, next }) => {
                let part = bytes.as_slice();
                store(part, buffer, size);
                size += part.len();
                at = next;
            }
            Ok(Piece::End { next }) => return Step::Item { next, size },
            Err(e) => return Step::Refused(e),
        }
    }
}

// ---- a reading step

// How many blanks a text begins with.
fn leading_blanks(text: &[u8]) -> usize
    ensures { BlanksFirst text.now result }
{
    text.iter().take_while(|b| is_blank(**b)).count()
}

// The next item, where `more` items may still come.
fn next_item(text: &[u8], more: usize, start: usize, buffer: &mut [u8], used: usize) -> Step
    requires { (length text.now ≤ length buffer.old) × (start ≤ length text.now) × (used ≤ start) }
    ensures { StepTaken text.now (step more (pieces_at text.now start)) used buffer.old buffer.new result }
{
    let at = start + leading_blanks(&text[start..]);
    if text.len() <= at {
        return Step::End;
    }
    if more == 0 {
        return Step::Refused(Error::TooManyItems(at));
    }
    let first = text[at];
    if is_quote(first) {
        let mode = Mode::Quoted {
            kind: first,
            opening: at,
        };
        return read_item(text, mode, at + 1, buffer, used);
    }
    read_item(text, Mode::Bare, at, buffer, used)
}

// ---- all items

// All items of a text, into buffers of the least sizes.
fn read_items(text: &[u8], bytes: &mut [u8], ends: &mut [usize]) -> Result<Counts, Error>
    requires { (length text.now ≤ 4096) × (length bytes.old ≡ 4096) × (length ends.old ≡ 256) }
    ensures { ReadAll (items_of 256 (pieces text.now)) bytes.old bytes.new ends.old ends.new result }
{
    let mut at = 0;
    let mut length = 0;
    let mut count = 0;
    loop {
        match next_item(text, ENDS - count, at, bytes, length) {
            Step::Item { next, size } => {
                ends[count] = size;
                count += 1;
                length = size;
                at = next;
            }
            Step::End => {
                return Ok(Counts {
                    items: count,
                    bytes: length,
                });
            }
            Step::Refused(e) => return Err(e),
        }
    }
}

// The items of a text by way of buffers of its own, so that a refusal leaves the lent ones as they were.
fn split_apart(text: &[u8], bytes: &mut [u8], ends: &mut [usize]) -> Result<Counts, Error>
    requires { (length text.now ≤ 4096) × (4096 ≤ length bytes.old) × (256 ≤ length ends.old) }
    ensures { SplitLeaves (items_of 256 (pieces text.now)) bytes.old ends.old result bytes.new ends.new }
{
    let mut scratch = [0u8; BYTES];
    let mut numbers = [0usize; ENDS];
    let counts = read_items(text, &mut scratch, &mut numbers)?;
    copy_into(&scratch[..counts.bytes], bytes, 0);
    copy_into(&numbers[..counts.items], ends, 0);
    Ok(counts)
}

// Splits a text into its items: their bytes one after another in `bytes`, which has at least 4,096, and the end
// of each in `ends`, which has at least 256. The rest of both stays, and a refused call changes neither.
pub fn split(text: &[u8], bytes: &mut [u8], ends: &mut [usize]) -> Result<Counts, Error>
    ensures { Splits text.now bytes.old ends.old result bytes.new ends.new }
{
    if bytes.len() < BYTES {
        return Err(Error::ShortBuffer);
    }
    if ends.len() < ENDS {
        return Err(Error::ShortBuffer);
    }
    if LONGEST < text.len() {
        return Err(Error::TextTooLong);
    }
    if let Some(at) = first_forbidden(text) {
        return Err(Error::ForbiddenByte(at));
    }
    split_apart(text, bytes, ends)
}
