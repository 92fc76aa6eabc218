// Prints bytes and numbers, and whether parts of the buffers of a case are as they were.
ghost use Rattle.std.specs.Prelude.{◌≡◌, ℕ, Bool, List, drop, take};
ghost use Rattle.std.specs.List.{list_all};
ghost use Rattle.listing.specs.Kept.{kept, kept_list_all};

use crate::notation::behind;
use crate::print;
use std::io;

// The buffers are full of these before a call.
pub const BYTE: u8 = 0xA5;

pub const NUMBER: usize = 99999;

// What a buffer of a case holds: bytes or numbers.
pub trait Filler: Copy + PartialEq {
    // The buffers are full of it before a call.
    const FILLER: Self;

    ghost FILLER: { Self };

    // Whether what stands from an index on is as it was.
    ghost kept: { List Self → ℕ → Bool };

    // Prints several, with a space behind.
    fn print_list(rt: &impl Print, list: &[Self]) -> io::Result<()>;

    // Prints one alone.
    fn print_one(self, rt: &impl Print) -> io::Result<()>;

    // Each of them equals what the buffer was full of.
    ghost kept_is: { (list : List Self) (from : ℕ) → kept list from ≡ list_all (λ x. Self.eq x FILLER) (drop from list) };
}

impl Filler for u8 {
    const FILLER: u8 = BYTE;

    ghost FILLER = { 0xA5 };

    ghost kept = { kept 0xA5 };

    ghost kept_is = { kept_list_all 0xA5 };

    fn print_list(rt: &impl Print, list: &[u8]) -> io::Result<()> {
        print_bytes(rt, list)?;
        print!(rt; " ")
    }

    fn print_one(self, rt: &impl Print) -> io::Result<()> {
        print!(rt; "{self:02x}")
    }
}

impl Filler for usize {
    const FILLER: usize = NUMBER;

    ghost FILLER = { 99999 };

    ghost kept = { kept 99999 };

    ghost kept_is = { kept_list_all 99999 };

    fn print_list(rt: &impl Print, list: &[usize]) -> io::Result<()> {
        print_numbers(rt, list)
    }

    fn print_one(self, rt: &impl Print) -> io::Result<()> {
        rt.print(self)
    }
}

// The line of a case. What comes of it stands below, two bytes further in.
pub fn print_case(rt: &impl Print, line: &[u8]) -> io::Result<()> {
    print(rt, line)?;
    print!(rt; "\n  ")
}

pub fn bad_case(rt: &impl Print) -> io::Result<()> {
    println!(rt; "bad case")
}

// The first elements of a buffer, all of them where it has fewer.
pub fn front<T>(buffer: &[T], count: usize) -> &[T]
    ensures { result.now ≡ take count buffer.now }
{
    buffer.get(..count).unwrap_or(buffer)
}

// ---- bytes and numbers

// Bytes in square brackets.
pub fn print_bytes(rt: &impl Print, text: &[u8]) -> io::Result<()> {
    print!(rt; "[")?;
    for run in text.chunk_by(|a, b| a == b) {
        print_run(rt, run)?;
    }
    print!(rt; "]")
}

// A run of one byte: ten or more as `<hh x COUNT>`.
fn print_run(rt: &impl Print, run: &[u8]) -> io::Result<()> {
    if let Some(byte) = run.first()
        && 10 <= run.len()
    {
        return print!(rt; "<{byte:02x} x {}>", run.len());
    }
    for byte in run {
        print_byte(rt, *byte)?;
    }
    Ok(())
}

// A byte as it is; those that do not print, `<` and `]` as `<hh>`.
fn print_byte(rt: &impl Print, byte: u8) -> io::Result<()> {
    match byte {
        b'<' | b']' => print!(rt; "<{byte:02x}>"),
        b' '..=b'~' => print(rt, &[byte]),
        _ => print!(rt; "<{byte:02x}>"),
    }
}

// Numbers, each with a space behind it.
pub fn print_numbers(rt: &impl Print, numbers: &[usize]) -> io::Result<()> {
    for n in numbers {
        print!(rt; "{n} ")?;
    }
    Ok(())
}

// ---- what a call left

// Whether what stands from an index on is as it was.
pub fn is_kept<T: Filler>(buffer: &[T], from: usize) -> bool
    ensures { result ≡ T.kept buffer.now from }
{
    behind(buffer, from).iter().all(|x| *x == T::FILLER)
}

// How that is told.
pub fn kept_word(kept: bool) -> &'static str {
    if kept { "kept" } else { "changed" }
}
