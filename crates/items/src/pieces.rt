// The pieces of an item: what stands at an offset, in and out of quotes.
ghost use Rattle.std.specs.Prelude.{◌≡◌, true, ◌≤◌, ◌<◌, length, get_or};
ghost use Rattle.items.specs.Pieces.{backslash, quote};
ghost use Rattle.items.specs.declared.pieces.Mode.TheVariants.{Bare, Quoted};
ghost use Rattle.items.specs.Steps.{PieceAt, EscapePiece, ClosedAt};

use crate::error::Error;
use crate::escapes::{Escape, read_escape};
use crate::few::Few;
use lines::is_blank;

// The kind of item that is being read: bare, or in quotes of one kind that opened at an offset.
#[derive(Clone, Copy)]
pub(crate) enum Mode {
    Bare,
    Quoted { kind: u8, opening: usize },
}

// What stands at an offset inside an item.
#[derive(Clone, Copy)]
pub(crate) enum Piece {
    // A byte of the item that stands for itself.
    Plain(u8),
    // The bytes of an escape, and where the next piece stands.
    Bytes { bytes: Few, next: usize },
    // The item's end, and where reading goes on.
    End { next: usize },
}

pub(crate) fn is_quote(b: u8) -> bool
    ensures { result ≡ quote b }
{
    b == b'"' || b == b'\''
}

// An escape, in and out of quotes. A refusal leaves with its number and offset.
fn escape_piece(text: &[u8], at: usize) -> Result<Piece, Error>
    requires { (at < length text.now) × (backslash (get_or text.now at 0) ≡ true) }
    ensures { EscapePiece text.now at result }
{
    let escape = read_escape(text, at);
    let Ok(Escape { bytes, taken }) = escape else {
        return Err(escape.unwrap_err());
    };
    Ok(Piece::Bytes {
        bytes,
        next: at + 1 + taken,
    })
}

// A piece of a bare item: a blank ends it, and a quote is refused.
fn bare_piece(text: &[u8], at: usize) -> Result<Piece, Error>
    requires { at < length text.now }
    ensures { PieceAt Bare text.now at result }
{
    let b = text[at];
    if is_blank(b) {
        return Ok(Piece::End { next: at });
    }
    if is_quote(b) {
        return Err(Error::MisplacedQuote(at));
    }
    if b == b'\\' {
        return escape_piece(text, at);
    }
    Ok(Piece::Plain(b))
}

// Behind a closing quote a blank or the end has to follow.
fn closed_piece(text: &[u8], at: usize) -> Result<Piece, Error>
    requires { at ≤ length text.now }
    ensures { ClosedAt text.now at result }
{
    if text.len() <= at {
        return Ok(Piece::End { next: at });
    }
    if is_blank(text[at]) {
        return Ok(Piece::End { next: at });
    }
    Err(Error::MisplacedQuote(at))
}

// A piece between quotes: the same quote closes them, and the other kind is data.
fn quoted_piece(text: &[u8], kind: u8, opening: usize, at: usize) -> Result<Piece, Error>
    requires { at < length text.now }
    ensures { PieceAt (Quoted kind opening) text.now at result }
{
    let b = text[at];
    if b == b'\\' {
        return escape_piece(text, at);
    }
    if b == kind {
        return closed_piece(text, at + 1);
    }
    Ok(Piece::Plain(b))
}

// The piece at an offset, or the end of the text.
pub(crate) fn piece_at(text: &[u8], mode: Mode, at: usize) -> Result<Piece, Error>
    requires { at ≤ length text.now }
    ensures { PieceAt mode text.now at result }
{
    match mode {
        Mode::Bare if at < text.len() => bare_piece(text, at),
        Mode::Bare => Ok(Piece::End { next: at }),
        Mode::Quoted { kind, opening } if at < text.len() => quoted_piece(text, kind, opening, at),
        Mode::Quoted { kind: _, opening } => Err(Error::OpenQuote(opening)),
    }
}
