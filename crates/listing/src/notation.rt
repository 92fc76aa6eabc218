// Reads the lines of cases, and what a line is made of: numbers, and bytes in square brackets.
ghost use Rattle.std.specs.Prelude.{◌≡◌, ◌+◌, ◌-◌, ◌≤◌, ◌<◌, ◌||◌, eqb, length, take, drop, get_or, IfSome};
ghost use Rattle.lines.specs.Bytes.{is_lf};
ghost use Rattle.lines.specs.LineSteps.{line_length};

use crate::show;
use std::io;

// ---- lines and their parts

// How many bytes stand before the first LF, all of them where there is none.
fn line_length(text: &[u8]) -> usize
    ensures { result ≡ line_length text.now }
{
    text.iter().position(|b| *b == b'\n').unwrap_or(text.len())
}

// The byte at an index, 0 behind the end.
pub fn byte_at(text: &[u8], i: usize) -> u8
    ensures { result ≡ get_or text.now i 0 }
{
    text.get(i).copied().unwrap_or(0)
}

// What stands behind the first `n` elements.
pub fn behind<T>(list: &[T], n: usize) -> &[T]
    ensures { result.now ≡ drop n list.now }
{
    list.get(n..).unwrap_or(&[])
}

// Whether a line starts at an index.
pub fn starts_line(text: &[u8], at: usize) -> bool
    ensures { result ≡ (eqb at 0 || is_lf (get_or text.now (at - 1) 0)) }
{
    at == 0 || byte_at(text, at - 1) == b'\n'
}

// The bytes from an index on, up to the first LF.
pub fn line_at(text: &[u8], at: usize) -> &[u8]
    ensures { result.now ≡ take (line_length (drop at text.now)) (drop at text.now) }
{
    let rest = behind(text, at);
    show::front(rest, line_length(rest))
}

// Goes through the lines of a text. What stands behind its last LF is one where it is not empty.
pub(crate) fn each_line<F: FnMut(&[u8]) -> io::Result<()>>(
    text: &[u8],
    mut visit: F,
) -> io::Result<()>
    requires { F.IsAlwaysCallable visit }
{
    for at in (0..text.len()).filter(|at| starts_line(text, *at)) {
        visit(line_at(text, at))?;
    }
    Ok(())
}

// ---- numbers

#[derive(Clone, Copy)]
pub struct Number {
    pub value: usize,
    // How many bytes it takes.
    pub taken: usize,
}

// What a hex digit stands for.
fn digit_value(b: u8) -> Option<u8>
    ensures { IfSome result (λ d. d < 16) }
{
    match b {
        b'0'..=b'9' => Some(b - b'0'),
        b'a'..=b'f' => Some(b - b'a' + 10),
        _ => None,
    }
}

const LARGEST: usize = 18446744073709551615;

// A number with one digit more. From 18446744073709551600 on all count as the largest.
fn longer(value: usize, digit: u8) -> usize
    requires { digit < 10 }
{
    if value < 1844674407370955160 {
        value * 10 + usize::from(digit)
    } else {
        LARGEST
    }
}

// The number that a text starts with, 0 where it starts with none.
pub fn read_number(text: &[u8]) -> Number
    ensures { result.taken ≤ length text.now }
{
    let mut value = 0;
    let mut taken = 0;
    for b in text {
        if !lines::is_digit(*b) {
            break;
        }
        value = longer(value, *b - b'0');
        taken += 1;
    }
    Number { value, taken }
}

// Numbers up to the end of a line, each behind a space. Answers how many; nothing where the line makes no sense or
// there are too many.
pub fn lay_numbers(line: &[u8], numbers: &mut [usize]) -> Option<usize> {
    let mut rest = line;
    let mut count = 0;
    while let Some((space, text)) = rest.split_first() {
        let n = read_number(text);
        if *space != b' ' || n.taken == 0 {
            return None;
        }
        *numbers.get_mut(count)? = n.value;
        count += 1;
        rest = behind(text, n.taken);
    }
    Some(count)
}

// ---- bytes

// A byte that stands once or more often, and how many bytes of the line say so.
#[derive(Clone, Copy)]
struct Piece {
    byte: u8,
    count: usize,
    taken: usize,
}

// A byte as it is, or `<hh>`, or `<hh x COUNT>`.
fn read_piece(text: &[u8]) -> Option<Piece>
    ensures { IfSome result (λ p. (0 < p.taken) × (p.taken ≤ length text.now)) }
{
    match text {
        [b'<', high, low, rest @ ..] => {
            let byte = digit_value(*high)? * 16 + digit_value(*low)?;
            read_run(byte, rest)
        }
        [b'<', ..] | [] => None,
        [byte, ..] => Some(Piece {
            byte: *byte,
            count: 1,
            taken: 1,
        }),
    }
}

// What stands behind `<hh`: `>`, or ` x COUNT>`.
fn read_run(byte: u8, text: &[u8]) -> Option<Piece>
    ensures { IfSome result (λ p. (0 < p.taken) × (p.taken ≤ 3 + length text.now)) }
{
    if byte_at(text, 0) == b'>' {
        return Some(Piece {
            byte,
            count: 1,
            taken: 4,
        });
    }
    let n = read_number(text.strip_prefix(b" x ")?);
    let end = 3 + n.taken;
    if byte_at(text, end) != b'>' {
        return None;
    }
    Some(Piece {
        byte,
        count: n.value,
        taken: 3 + end + 1,
    })
}

#[derive(Clone, Copy)]
pub struct Laid {
    pub length: usize,
    // How many bytes of the line it takes.
    pub taken: usize,
}

// Lays bytes in square brackets into a buffer. Answers nothing where they make no sense or the buffer is too small.
pub fn lay_bytes(line: &[u8], buffer: &mut [u8]) -> Option<Laid>
    ensures { IfSome result (λ l. (l.length ≤ length buffer.new) × (l.taken ≤ length line.now)) }
{
    if byte_at(line, 0) != b'[' {
        return None;
    }
    let mut length = 0;
    let mut at = 1;
    while byte_at(line, at) != b']' {
        let piece = read_piece(behind(line, at))?;
        buffer
            .get_mut(length..)?
            .get_mut(..piece.count)?
            .fill(piece.byte);
        length += piece.count;
        at += piece.taken;
    }
    Some(Laid {
        length,
        taken: at + 1,
    })
}
