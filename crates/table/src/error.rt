// Why a file is refused: the refusals 1 to 10 of the rules.
ghost use Rattle.std.specs.Prelude.{◌≡◌};
ghost use Rattle.table.specs.Answers.{number_of, place_of, never_0};
ghost use Rattle.table.specs.declared.error.Error.TheVariants.{File};

use lines::Refusal;
use std::fmt;

// A fault in a line carries the number of the first physical line of it.
#[derive(Clone, Copy, Debug, PartialEq, Eq)]
pub enum Error {
    // A short buffer, a fault of the whole file, or a line that is too long: 1 to 5.
    File(lines::Error),
    BadHeader(usize),
    NoEqualsSign(usize),
    BadKey(usize),
    // An entry before any header.
    NoSection(usize),
    // The 65th section or the 513th entry.
    TooMany(usize),
}

impl Refusal for Error {
    ghost number_is = { number_of };

    ghost place_is = { place_of };

    ghost never_0 = { never_0 };

    fn number(self) -> usize {
        match self {
            Error::File(e) => e.number(),
            Error::BadHeader(_) => 6,
            Error::NoEqualsSign(_) => 7,
            Error::BadKey(_) => 8,
            Error::NoSection(_) => 9,
            Error::TooMany(_) => 10,
        }
    }

    // Its place: a line, or 0.
    fn place(self) -> usize {
        match self {
            Error::File(e) => e.place(),
            Error::BadHeader(line)
            | Error::NoEqualsSign(line)
            | Error::BadKey(line)
            | Error::NoSection(line)
            | Error::TooMany(line) => line,
        }
    }
}

impl fmt::Display for Error {
    fn fmt<W: fmt::Write>(&self, f: &mut fmt::Formatter<W>) -> fmt::Result {
        write!(f, "refused {} at {}", self.number(), self.place())
    }
}

impl std::error::Error for Error {}

// What refuses the file itself, or a line of it, refuses the table.
impl From<lines::Error> for Error {
    ghost from_gives = { λ e r. r ≡ File e };

    fn from(e: lines::Error) -> Error {
        Error::File(e)
    }
}
