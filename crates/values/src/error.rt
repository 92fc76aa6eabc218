// Why a value is refused: the refusals 30 to 32 of the rules.
ghost use Rattle.values.specs.Answers.{number_of, place_of, never_0};

use lines::Refusal;
use std::fmt;

#[derive(Clone, Copy, Debug, PartialEq, Eq)]
pub enum Error {
    NoBoolean,
    SpanForm,
    SpanTooLarge,
}

impl Refusal for Error {
    ghost number_is = { number_of };

    ghost place_is = { place_of };

    ghost never_0 = { never_0 };

    fn number(self) -> usize {
        match self {
            Error::NoBoolean => 30,
            Error::SpanForm => 31,
            Error::SpanTooLarge => 32,
        }
    }

    // Its place, which is 0 for a value.
    fn place(self) -> usize {
        match self {
            Error::NoBoolean | Error::SpanForm | Error::SpanTooLarge => 0,
        }
    }
}

impl fmt::Display for Error {
    fn fmt<W: fmt::Write>(&self, f: &mut fmt::Formatter<W>) -> fmt::Result {
        write!(f, "refused {} at {}", self.number(), self.place())
    }
}

impl std::error::Error for Error {}
