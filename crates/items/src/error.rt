// Why a call is refused: the refusals 1 and 20 to 28 of the rules.
ghost use Rattle.items.specs.Answers.{number_of, place_of, never_0};

use lines::Refusal;
use std::fmt;

// A fault in a text carries its offset.
#[derive(Clone, Copy, Debug, PartialEq, Eq)]
pub enum Error {
    ShortBuffer,
    TextTooLong,
    ForbiddenByte(usize),
    // A quote inside a bare item, or something else than a blank behind a closing quote.
    MisplacedQuote(usize),
    OpenQuote(usize),
    EscapeForm(usize),
    EscapeValue(usize),
    // At 0 for a list to write.
    TooManyItems(usize),
    NulByte,
    BadEnds,
}

impl Refusal for Error {
    ghost number_is = { number_of };

    ghost place_is = { place_of };

    ghost never_0 = { never_0 };

    fn number(self) -> usize {
        match self {
            Error::ShortBuffer => 1,
            Error::TextTooLong => 20,
            Error::ForbiddenByte(_) => 21,
            Error::MisplacedQuote(_) => 22,
            Error::OpenQuote(_) => 23,
            Error::EscapeForm(_) => 24,
            Error::EscapeValue(_) => 25,
            Error::TooManyItems(_) => 26,
            Error::NulByte => 27,
            Error::BadEnds => 28,
        }
    }

    // Its place: an offset, or 0.
    fn place(self) -> usize {
        match self {
            Error::ForbiddenByte(at)
            | Error::MisplacedQuote(at)
            | Error::OpenQuote(at)
            | Error::EscapeForm(at)
            | Error::EscapeValue(at)
            | Error::TooManyItems(at) => at,
            Error::ShortBuffer | Error::TextTooLong | Error::NulByte | Error::BadEnds => 0,
        }
    }
}

impl fmt::Display for Error {
    fn fmt<W: fmt::Write>(&self, f: &mut fmt::Formatter<W>) -> fmt::Result {
        write!(f, "refused {} at {}", self.number(), self.place())
    }
}

impl std::error::Error for Error {}
