// Texts made of a head, a run of one byte, and a tail.
ghost use Rattle.std.specs.Prelude.{◌≡◌, ◌+◌, ◌≤◌, length};
ghost use Rattle.listing.specs.Texts.{length_in, laid_in};

use crate::print;
use std::io;

// Shown as <head{byte x count}tail>, the byte in hex; a run of one byte as <head{byte}tail>.
pub fn print_run(
    rt: &impl Print,
    head: &[u8],
    byte: u8,
    count: usize,
    tail: &[u8],
) -> io::Result<()> {
    print!(rt; "<")?;
    print(rt, head)?;
    if 1 < count {
        print!(rt; "{{{byte:02x} x {count}}}")?;
    } else {
        print!(rt; "{{{byte:02x}}}")?;
    }
    print(rt, tail)?;
    print!(rt; ">")
}

// Lays a head at the start of a buffer and a tail from an index on, and answers where the tail ends. Where they do
// not fit, nothing changes and the answer is 0.
pub fn lay(buffer: &mut [u8], head: &[u8], at: usize, tail: &[u8]) -> usize
    ensures answer { result ≡ length_in buffer.old head.now at tail.now }
    ensures held { buffer.new ≡ laid_in buffer.old head.now at tail.now }
    ensures inside { result ≤ length buffer.new }
{
    if at < head.len() {
        return 0;
    }
    if buffer.len() < at {
        return 0;
    }
    if buffer.len() - at < tail.len() {
        return 0;
    }
    lines::copy_into(head, buffer, 0);
    lines::copy_into(tail, buffer, at);
    at + tail.len()
}

// The same, with `count` bytes between them.
pub fn lay_apart(buffer: &mut [u8], head: &[u8], count: usize, tail: &[u8]) -> usize
    ensures answer { result ≡ length_in buffer.old head.now (length head.now + count) tail.now }
    ensures held { buffer.new ≡ laid_in buffer.old head.now (length head.now + count) tail.now }
    ensures inside { result ≤ length buffer.new }
{
    if buffer.len() < head.len() {
        return 0;
    }
    if buffer.len() - head.len() < count {
        return 0;
    }
    let at = head.len() + count;
    lay(buffer, head, at, tail)
}
