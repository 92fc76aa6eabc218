// Booleans: eight words.
ghost use Rattle.std.specs.Prelude.{◌≡◌};
ghost use Rattle.values.specs.Booleans.{boolean_of};
ghost use Rattle.values.specs.Answers.{boolean_means};

use crate::error::Error;

// The truth that a text states: exactly one of the eight words, with no blank around it. 30 for any other.
#[tactic(auto, unfolding(crate::specs::Booleans::boolean_of, lines::specs::Bytes::equal))]
pub fn boolean(text: &[u8]) -> Result<bool, Error>
    ensures { boolean_means result ≡ boolean_of text.now }
{
    match text {
        b"1" | b"yes" | b"true" | b"on" => Ok(true),
        b"0" | b"no" | b"false" | b"off" => Ok(false),
        _ => Err(Error::NoBoolean),
    }
}
