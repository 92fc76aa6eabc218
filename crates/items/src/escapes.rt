// Escapes: a backslash and what stands behind it.
ghost use Rattle.std.specs.Prelude.{◌≡◌, ◌+◌, ◌≤◌, ◌<◌, length, drop, get_or};
ghost use Rattle.items.specs.Escapes.{letters, byte_of, number, code_point, byte_escape, point_escape, digit_escape, escape};
ghost use Rattle.items.specs.Steps.{digit_in, escape_means};

use crate::error::Error;
use crate::few::Few;

// What an escape gives, and how many bytes it takes behind its backslash.
#[derive(Clone, Copy)]
pub(crate) struct Escape {
    pub bytes: Few,
    pub taken: usize,
}

// ---- letters and digits

// The byte that a letter behind a backslash gives.
#[tactic(auto, unfolding(crate::specs::Escapes::byte_of))]
fn letter_byte(c: u8) -> Option<u8>
    ensures { result ≡ byte_of letters c }
{
    match c {
        b'a' => Some(0x07),
        b'b' => Some(0x08),
        b'f' => Some(0x0C),
        b'n' => Some(0x0A),
        b'r' => Some(0x0D),
        b't' => Some(0x09),
        b'v' => Some(0x0B),
        b's' => Some(b' '),
        b'\\' | b'"' | b'\'' => Some(c),
        _ => None,
    }
}

// What a digit of this base stands for, hex digits in either case.
fn digit(base: u64, c: u8) -> Option<u64>
    requires { base ≤ 16 }
    ensures { result ≡ digit_in base c }
{
    let d = match c {
        b'0'..=b'9' => c - b'0',
        b'a'..=b'f' => c - b'a' + 10,
        b'A'..=b'F' => c - b'A' + 10,
        _ => return None,
    };
    let d = u64::from(d);
    (d < base).then_some(d)
}

// The number that the first `count` bytes of a text write.
#[tactic(auto, unfolding(crate::specs::Escapes::number))]
fn read_number(text: &[u8], base: u64, count: usize) -> Option<u64>
    requires { (base ≤ 16) × (count ≤ 8) }
    ensures { result ≡ number base count text.now }
{
    if text.len() < count {
        return None;
    }
    let mut value = 0;
    for c in &text[..count] {
        let d = digit(base, *c)?;
        value = value * base + d;
    }
    Some(value)
}

// ---- escapes

// The escape of a number that gives one byte: its form is judged first.
#[tactic(auto, unfolding(crate::specs::Escapes::numeric))]
fn byte_escape(n: Option<u64>, at: usize, taken: usize) -> Result<Escape, Error>
    ensures { escape_means result ≡ byte_escape taken at n }
{
    let v = n.ok_or(Error::EscapeForm(at))?;
    if !matches!(v, 1..=0xFF) {
        return Err(Error::EscapeValue(at));
    }
    Ok(Escape {
        bytes: Few::one(v as u8),
        taken,
    })
}

// A code point that may be written: not 0, not above 10FFFF, no surrogate.
fn is_code_point(v: u64) -> bool
    ensures { result ≡ code_point v }
{
    matches!(v, 1..=0xD7FF | 0xE000..=0x10FFFF)
}

// The escape of a number that gives the UTF-8 of a code point.
#[tactic(auto, unfolding(crate::specs::Escapes::numeric))]
fn point_escape(n: Option<u64>, at: usize, taken: usize) -> Result<Escape, Error>
    ensures { escape_means result ≡ point_escape taken at n }
{
    let v = n.ok_or(Error::EscapeForm(at))?;
    if !is_code_point(v) {
        return Err(Error::EscapeValue(at));
    }
    Ok(Escape {
        bytes: Few::encode(v),
        taken,
    })
}

// The forms with digits, by the byte at the start of a text, which stands behind the backslash.
#[tactic(auto, unfolding(crate::specs::Escapes::digit_escape))]
fn digit_escape(text: &[u8], at: usize) -> Result<Escape, Error>
    requires { 0 < length text.now }
    ensures { escape_means result ≡ digit_escape at (get_or text.now 0 0) (drop 1 text.now) }
{
    let rest = &text[1..];
    match text[0] {
        b'x' => byte_escape(read_number(rest, 16, 2), at, 3),
        b'u' => point_escape(read_number(rest, 16, 4), at, 5),
        b'U' => point_escape(read_number(rest, 16, 8), at, 9),
        _ => byte_escape(read_number(text, 8, 3), at, 3),
    }
}

// The escape whose backslash stands at an offset of a text.
#[tactic(auto, unfolding(crate::specs::Escapes::escape, crate::specs::Escapes::letter_escape))]
pub(crate) fn read_escape(text: &[u8], at: usize) -> Result<Escape, Error>
    requires { at < length text.now }
    ensures { escape_means result ≡ escape at (drop (at + 1) text.now) }
{
    let behind = &text[at + 1..];
    if behind.is_empty() {
        return Err(Error::EscapeForm(at));
    }
    match letter_byte(behind[0]) {
        Some(b) => Ok(Escape {
            bytes: Few::one(b),
            taken: 1,
        }),
        None => digit_escape(behind, at),
    }
}
