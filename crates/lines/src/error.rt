// Why a call is refused: the refusals 1 to 5 of the rules.
ghost use Rattle.lines.specs.Answers.{number_of, place_of, never_0};

use crate::refusal::Refusal;
use std::fmt;

// A fault in a line carries the line's number.
#[derive(Clone, Copy, Debug, PartialEq, Eq)]
pub enum Error {
    ShortBuffer,
    FileTooLong,
    NotUtf8(usize),
    ControlByte(usize),
    LineTooLong(usize),
}

impl Refusal for Error {
    ghost number_is = { number_of };

    ghost place_is = { place_of };

    ghost never_0 = { never_0 };

    fn number(self) -> usize {
        match self {
            Error::ShortBuffer => 1,
            Error::FileTooLong => 2,
            Error::NotUtf8(_) => 3,
            Error::ControlByte(_) => 4,
            Error::LineTooLong(_) => 5,
        }
    }

    // Its place: a line, or 0.
    fn place(self) -> usize {
        match self {
            Error::ShortBuffer | Error::FileTooLong => 0,
            Error::NotUtf8(line) | Error::ControlByte(line) | Error::LineTooLong(line) => line,
        }
    }
}

impl fmt::Display for Error {
    fn fmt<W: fmt::Write>(&self, f: &mut fmt::Formatter<W>) -> fmt::Result {
        write!(f, "refused {} at {}", self.number(), self.place())
    }
}

impl std::error::Error for Error {}
