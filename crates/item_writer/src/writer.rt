// The writer: items into a text.
ghost use Rattle.std.specs.Prelude.{◌≡◌, ◌+◌, ◌*◌, ◌≤◌, ◌<◌, true, ◌++◌, length};
ghost use Rattle.items.specs.Escapes.{control_letters, sign_letters};
ghost use Rattle.items.specs.Write.{bare_byte, is_bare, letter_of, hex_digit, written_byte, in_quotes, written_item, written, ends_fit, items_in, last_end};
ghost use Rattle.lines.specs.Buffers.{Puts};
ghost use Rattle.item_writer.specs.Steps.{following};
ghost use Rattle.item_writer.specs.Answers.{Writes};

use items::Error;
use lines::{copy_into, is_between, is_digit, is_letter};

// The longest text that may be written; a buffer for it has at least as many bytes.
const LONGEST: usize = 4096;

const MOST_ITEMS: usize = 256;

// Space for any items that are not refused before: a byte is written as four at most, and an item has two quotes
// and a space besides.
const SCRATCH: usize = 4 * LONGEST + 3 * MOST_ITEMS;

// ---- tests

// A byte that a bare item may have.
#[tactic(auto, unfolding(items::specs::Write::bare_byte, lines::specs::Bytes::any))]
fn is_bare_byte(b: u8) -> bool
    ensures { result ≡ bare_byte b }
{
    is_letter(b) || is_digit(b) || b"-_./:@%,+".contains(&b)
}

// An item that stands without quotes.
#[tactic(auto, using(crate::proofs::Bare::bare_none))]
fn is_bare(item: &[u8]) -> bool
    ensures { result ≡ is_bare item.now }
{
    match item {
        [] => false,
        _ => item.iter().all(|b| is_bare_byte(*b)),
    }
}

// No end lies below the one before it, nor past the bytes, of which there are `size`.
fn ends_fit(ends: &[usize], size: usize) -> bool
    ensures { result ≡ ends_fit 0 size ends.now }
{
    let mut last = 0;
    for end in ends {
        if *end < last || size < *end {
            return false;
        }
        last = *end;
    }
    true
}

// Where the last item ends; 0 where there is none.
fn last_end(ends: &[usize]) -> usize
    ensures { result ≡ last_end 0 ends.now }
{
    ends.last().copied().unwrap_or(0)
}

// ---- a byte inside quotes

// The letter of a control byte that has a letter escape. Each is written out, so that the compiler makes a table of them.
#[tactic(auto, unfolding(items::specs::Write::letter_of))]
fn control_letter(b: u8) -> Option<u8>
    ensures { result ≡ letter_of control_letters b }
{
    match b {
        0x07 => Some(b'a'),
        0x08 => Some(b'b'),
        0x0C => Some(b'f'),
        0x0A => Some(b'n'),
        0x0D => Some(b'r'),
        0x09 => Some(b't'),
        0x0B => Some(b'v'),
        _ => None,
    }
}

// The letter of any byte that has a letter escape, the two signs among them. Most bytes are 20 to 7E, and are told by
// comparisons alone.
#[tactic(auto, unfolding(items::specs::Write::letter_of))]
fn letter_of(b: u8) -> Option<u8>
    ensures { result ≡ letter_of (control_letters ++ sign_letters) b }
{
    match b {
        b'\\' | b'"' => Some(b),
        0x20..=0x7E => None,
        _ => control_letter(b),
    }
}

// A lower-case hex digit.
fn hex_digit(n: u8) -> u8
    requires { n < 16 }
    ensures { result ≡ hex_digit n }
{
    if n < 10 {
        return b'0' + n;
    }
    b'a' + n - 10
}

// ---- puts into a text from an index on; each answers the index behind what it has put

fn put_byte(b: u8, text: &mut [u8], at: usize) -> usize
    requires { at + 4 ≤ length text.old }
    ensures { Puts text.old at (written_byte b) result text.new }
{
    if let Some(letter) = letter_of(b) {
        copy_into(&[b'\\', letter], text, at);
        return at + 2;
    }
    if is_between(0x20, 0x7E, b) {
        text[at] = b;
        return at + 1;
    }
    copy_into(
        &[b'\\', b'x', hex_digit(b / 16), hex_digit(b % 16)],
        text,
        at,
    );
    at + 4
}

// The bytes of an item in quotes, without these.
fn put_quoted(item: &[u8], text: &mut [u8], at: usize) -> usize
    requires { at + 4 * length item.now ≤ length text.old }
    ensures { Puts text.old at (in_quotes item.now) result text.new }
{
    let mut end = at;
    for b in item {
        end = put_byte(*b, text, end);
    }
    end
}

fn put_item(item: &[u8], text: &mut [u8], at: usize) -> usize
    requires { at + (4 * length item.now + 2) ≤ length text.old }
    ensures { Puts text.old at (written_item item.now) result text.new }
{
    if is_bare(item) {
        copy_into(item, text, at);
        return at + item.len();
    }
    text[at] = b'"';
    let end = put_quoted(item, text, at + 1);
    text[end] = b'"';
    end + 1
}

// An item behind `count` others: a space parts it from them.
fn put_next(item: &[u8], count: usize, text: &mut [u8], at: usize) -> usize
    requires { at + (4 * length item.now + 3) ≤ length text.old }
    ensures { Puts text.old at (following count item.now) result text.new }
{
    if count == 0 {
        return put_item(item, text, at);
    }
    text[at] = b' ';
    put_item(item, text, at + 1)
}

// All items that fitting ends cut out of bytes, from the start of the text.
fn put_list(bytes: &[u8], ends: &[usize], text: &mut [u8]) -> usize
    requires { (ends_fit 0 (length bytes.now) ends.now ≡ true)
        × (4 * last_end 0 ends.now + 3 * length ends.now ≤ length text.old) }
    ensures { Puts text.old 0 (written (items_in bytes.now ends.now)) result text.new }
{
    let mut at = 0;
    let mut start = 0;
    for (i, end) in ends.iter().enumerate() {
        at = put_next(&bytes[start..*end], i, text, at);
        start = *end;
    }
    at
}

// ---- writing

// Writes the items that `ends` cut out of `bytes`; `out` has at least 4,096 bytes. The rest of it stays, and a
// refused call changes nothing.
pub fn write(bytes: &[u8], ends: &[usize], out: &mut [u8]) -> Result<usize, Error>
    ensures { Writes bytes.now ends.now out.old result out.new }
{
    if out.len() < LONGEST {
        return Err(Error::ShortBuffer);
    }
    if MOST_ITEMS < ends.len() {
        return Err(Error::TooManyItems(0));
    }
    if !ends_fit(ends, bytes.len()) {
        return Err(Error::BadEnds);
    }
    let used = last_end(ends);
    if bytes[..used].contains(&0x00) {
        return Err(Error::NulByte);
    }
    // No byte is written as less than one.
    if LONGEST < used {
        return Err(Error::TextTooLong);
    }
    let mut text = [0u8; SCRATCH];
    let length = put_list(bytes, ends, &mut text);
    if LONGEST < length {
        return Err(Error::TextTooLong);
    }
    copy_into(&text[..length], out, 0);
    Ok(length)
}
