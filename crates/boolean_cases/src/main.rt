// Cases of booleans: each prints its text and the answer. tests/expected_values.py has the same list.
#![tactic(auto)]

mod odd;
mod words;

use listing::text_cases::{Judge, TextCases};
use std::io;
use values::Error;

// The truth that each text states.
#[derive(Clone, Copy)]
struct Truths;

impl Judge for Truths {
    type Value = bool;

    type Refusal = Error;

    fn judge(&self, text: &[u8]) -> Result<bool, Error> {
        values::boolean(text)
    }
}

type Cases<'a, P> = TextCases<'a, P, Truths>;

fn main(rt: HostRuntime) -> io::Result<()> {
    let cases = TextCases {
        rt: &rt,
        word: "boolean",
        judge: Truths,
    };
    words::accepted(&cases)?;
    words::upper_case_true(&cases)?;
    words::upper_case_false(&cases)?;
    words::with_more_bytes(&cases)?;
    words::between_blanks(&cases)?;
    words::pieces(&cases)?;
    words::longer(&cases)?;
    words::changed(&cases)?;
    odd::texts(&cases)?;
    odd::characters(&cases)?;
    odd::long_texts(&cases)
}
