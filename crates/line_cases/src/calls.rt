// Single calls: the cursor and the buffer.
use crate::call::call;
use lines::Cursor;
use std::io;

const LARGEST: usize = usize::MAX;

const FILE: &[u8] = b"K=a\nJ=b\n";

// Cursors that a reading gives, and others.
pub fn cursors(rt: &impl Print) -> io::Result<()> {
    for (name, offset, line) in [
        ("first line", 0, 1),
        ("second line", 4, 2),
        ("at the end", 8, 3),
        ("past the end", 9, 3),
        ("largest offset", LARGEST, 1),
        ("largest line", 0, LARGEST),
        ("largest numbers", LARGEST, LARGEST),
        ("line above offset + 1", 4, 6),
        ("line is offset + 1", 4, 5),
        ("inside a line", 1, 1),
        ("line 0", 0, 0),
    ] {
        call(rt, name, FILE, Cursor { offset, line }, 4096)?;
    }
    for (name, file) in [
        ("comments are passed", "#x\n;y\nK=a\n"),
        ("to the end of the file", "a\\\n#x\n"),
        ("only comments left", "#x\n"),
        ("empty line", "\nK=a"),
    ] {
        call(rt, name, file.as_bytes(), Cursor::first(), 4096)?;
    }
    Ok(())
}

// Buffers of other lengths.
pub fn buffers(rt: &impl Print) -> io::Result<()> {
    let end = Cursor { offset: 8, line: 3 };
    for (name, cursor, size) in [
        ("short buffer", Cursor::first(), 4095),
        ("empty buffer", Cursor::first(), 0),
        ("short buffer at the end", end, 4095),
        ("longer buffer", Cursor::first(), 5000),
    ] {
        call(rt, name, FILE, cursor, size)?;
    }
    Ok(())
}

// A line that is too long leaves the buffer as it was.
pub fn long_lines(rt: &impl Print) -> io::Result<()> {
    let long = [b'a'; 4097];
    let mut joined = [b'a'; 4098];
    joined[4095] = b'\\';
    joined[4096] = b'\n';
    joined[4097] = b'b';
    let first = Cursor::first();
    call(rt, "too long a line", &long, first, 4096)?;
    call(rt, "too long a line, longer buffer", &long, first, 5000)?;
    call(rt, "too long by its second part", &joined, first, 4096)
}
