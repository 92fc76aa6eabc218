// The line joiner: one logical line after the other.
ghost use Rattle.std.specs.Prelude.{◌≡◌, ◌+◌, ◌≤◌, length};
ghost use Rattle.lines.specs.Buffers.{filled, put};
ghost use Rattle.lines.specs.Cursors.{first_cursor, lines_at, NextLine};
ghost use Rattle.lines.specs.LineSteps.{piece, first_bytes, At, PhysicalAt, Standing, PieceOf, Skipped, MeasuredAt};

use crate::bytes::copy_into;
use crate::error::Error;
use crate::physical::{is_comment, is_continued, line_length};

// Where reading goes on: an offset of the file, and the number of its line.
#[derive(Clone, Copy)]
pub struct Cursor {
    pub offset: usize,
    pub line: usize,
}

impl Cursor {
    // At the first byte, in line 1.
    pub fn first() -> Cursor
        ensures { result ≡ first_cursor }
    {
        Cursor { offset: 0, line: 1 }
    }
}

// A logical line that was read: its length, the number of its first physical line, and where to go on.
#[derive(Clone, Copy)]
pub struct LogicalLine {
    pub length: usize,
    pub first: usize,
    pub next: Cursor,
}

// The end of a physical line, without its LF, and where the next one starts.
#[derive(Clone, Copy)]
struct Physical {
    end: usize,
    next: Cursor,
}

// How many bytes a physical line gives to its logical line, and whether it ends that one.
#[derive(Clone, Copy)]
struct Piece {
    length: usize,
    ends: bool,
}

// A logical line's length, and where the next one starts.
#[derive(Clone, Copy)]
struct Measured {
    length: usize,
    next: Cursor,
}

// The physical line at a cursor.
fn physical_line(file: &[u8], c: Cursor) -> Physical
    requires { At file.now c }
    ensures { PhysicalAt file.now c result }
{
    let end = c.offset + line_length(&file[c.offset..]);
    if end < file.len() {
        return Physical {
            end,
            next: Cursor {
                offset: end + 1,
                line: c.line + 1,
            },
        };
    }
    Physical {
        end,
        next: Cursor {
            offset: end,
            line: c.line,
        },
    }
}

// What a physical line gives to its logical line.
fn piece_of(line: &[u8]) -> Piece
    ensures { PieceOf line.now result }
{
    if is_comment(line) {
        return Piece {
            length: 0,
            ends: false,
        };
    }
    let more = is_continued(line);
    Piece {
        length: line.len(),
        ends: !more,
    }
}

// Puts what a physical line gives at index `n` of the buffer.
fn copy_piece(line: &[u8], buffer: &mut [u8], n: usize) -> Piece
    requires { n + length (piece line.now) ≤ length buffer.old }
    ensures answer { PieceOf line.now result }
    ensures held { buffer.new ≡ put buffer.old n (piece line.now) }
{
    let piece = piece_of(line);
    if piece.length == 0 {
        return piece;
    }
    copy_into(line, buffer, n);
    if !piece.ends {
        buffer[n + piece.length - 1] = b' ';
    }
    piece
}

// The first line from a cursor on that is no comment, or the file's end.
fn skip_comments(file: &[u8], start: Cursor) -> Cursor
    requires { (start.offset ≤ length file.now) × (start.line ≤ start.offset + 1) }
    ensures { Skipped file.now start result }
{
    let mut c = start;
    while c.offset < file.len() {
        if !is_comment(&file[c.offset..]) {
            return c;
        }
        let Physical { end: _, next } = physical_line(file, c);
        c = next;
    }
    c
}

// The length of the logical line at a cursor, and the cursor past it.
fn measure(file: &[u8], start: Cursor) -> Measured
    requires { Standing file.now start }
    ensures { MeasuredAt file.now start result }
{
    let mut c = start;
    let mut length = 0;
    while c.offset < file.len() {
        let Physical { end, next } = physical_line(file, c);
        let piece = piece_of(&file[c.offset..end]);
        length += piece.length;
        if piece.ends {
            return Measured { length, next };
        }
        c = next;
    }
    Measured { length, next: c }
}

// Copies the logical line at `start` to the front of the buffer.
fn copy_joined(file: &[u8], start: Cursor, buffer: &mut [u8])
    requires { Standing file.now start × (length (first_bytes (lines_at file.now start)) ≤ length buffer.old) }
    ensures { buffer.new ≡ filled (first_bytes (lines_at file.now start)) buffer.old }
{
    let mut c = start;
    let mut n = 0;
    while c.offset < file.len() {
        let Physical { end, next } = physical_line(file, c);
        let piece = copy_piece(&file[c.offset..end], buffer, n);
        n += piece.length;
        if piece.ends {
            return;
        }
        c = next;
    }
}

// The next logical line from a cursor on, not trimmed, at the front of the buffer; none where no line is left. The buffer
// has at least 4,096 bytes. A cursor that no reading gives is at the end. The line is measured before it is copied: one
// that is refused leaves the buffer as it was.
pub fn next_line(
    file: &[u8],
    cursor: Cursor,
    buffer: &mut [u8],
) -> Result<Option<LogicalLine>, Error>
    ensures { NextLine file.now cursor buffer.old buffer.new result }
{
    if buffer.len() < 4096 {
        return Err(Error::ShortBuffer);
    }
    if file.len() < cursor.offset {
        return Ok(None);
    }
    if cursor.offset + 1 < cursor.line {
        return Ok(None);
    }
    let start = skip_comments(file, cursor);
    if file.len() <= start.offset {
        return Ok(None);
    }
    let Measured { length, next } = measure(file, start);
    let first = start.line;
    if 4096 < length {
        return Err(Error::LineTooLong(first));
    }
    copy_joined(file, start, buffer);
    Ok(Some(LogicalLine {
        length,
        first,
        next,
    }))
}
