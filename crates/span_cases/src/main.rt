// Cases of time spans: each prints its text and the answer. tests/expected_values.py has the same list.
#![tactic(auto)]

mod forms;
mod limits;
mod long_runs;
mod places;
mod spans;
mod units;

use listing::text_cases::{Judge, TextCases};
use std::io;
use values::Error;

// How many microseconds each text states.
#[derive(Clone, Copy)]
struct Microseconds;

impl Judge for Microseconds {
    type Value = u64;

    type Refusal = Error;

    fn judge(&self, text: &[u8]) -> Result<u64, Error> {
        values::span(text)
    }
}

type Cases<'a, P> = TextCases<'a, P, Microseconds>;

fn main(rt: HostRuntime) -> io::Result<()> {
    let cases = TextCases {
        rt: &rt,
        word: "span",
        judge: Microseconds,
    };
    spans::bench(&cases)?;
    spans::units(&cases)?;
    spans::parts(&cases)?;
    spans::numbers(&cases)?;
    spans::blanks(&cases)?;
    limits::units(&cases)?;
    limits::digits(&cases)?;
    limits::multiples(&cases)?;
    limits::sums(&cases)?;
    limits::too_large(&cases)?;
    forms::short_names(&cases)?;
    forms::long_names(&cases)?;
    forms::no_text(&cases)?;
    forms::bare_numbers(&cases)?;
    forms::bare_units(&cases)?;
    forms::notations(&cases)?;
    forms::large_numbers(&cases)?;
    forms::characters(&cases)?;
    places::blanks_and_digits(&cases)?;
    places::letters(&cases)?;
    places::control_bytes(&cases)?;
    places::signs(&cases)?;
    places::high_bytes(&cases)?;
    long_runs::digits(&cases)?;
    long_runs::blanks_and_letters(&cases)
}
