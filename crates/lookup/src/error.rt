// Why a question is refused: the refusals 40 and 41 of the rules.
ghost use Rattle.lookup.specs.Answers.{number_of, place_of, never_0};

use lines::Refusal;
use std::fmt;

#[derive(Clone, Copy, Debug, PartialEq, Eq)]
pub enum Error {
    NoEntry,
    // A record points outside the text or past the section count, or a count passes its buffer.
    FaultyRecord,
}

impl Refusal for Error {
    ghost number_is = { number_of };

    ghost place_is = { place_of };

    ghost never_0 = { never_0 };

    fn number(self) -> usize {
        match self {
            Error::NoEntry => 40,
            Error::FaultyRecord => 41,
        }
    }

    // Its place.
    fn place(self) -> usize {
        match self {
            Error::NoEntry | Error::FaultyRecord => 0,
        }
    }
}

impl fmt::Display for Error {
    fn fmt<W: fmt::Write>(&self, f: &mut fmt::Formatter<W>) -> fmt::Result {
        write!(f, "refused {} at {}", self.number(), self.place())
    }
}

impl std::error::Error for Error {}
