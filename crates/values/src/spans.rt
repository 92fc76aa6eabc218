// Time spans.
ghost use Rattle.std.specs.Prelude.{◌≡◌, ℕ, ◌+◌, ◌*◌, ◌<◌, true};
ghost use Rattle.lines.specs.Bytes.{digit, all};
ghost use Rattle.lines.specs.Trim.{trim_start};
ghost use Rattle.values.specs.Spans.{scale_in, units, runs, tokens, parts_of, span_of, decimal};
ghost use Rattle.values.specs.Answers.{span_means};
ghost use Rattle.values.specs.Steps.{Stands, scale_means, SplitsAt, PartAt, SumOf};

use crate::error::Error;
use lines::{is_digit, is_letter, trim, trim_start};

// A number, of microseconds or of a unit, or `None` where it is larger than 64 bits hold.
type Amount = Option<u64>;

// The part that a text starts with.
#[derive(Clone, Copy)]
struct FirstPart<'a> {
    // How many microseconds it adds.
    amount: Amount,
    // What stands behind it and the blanks behind it.
    rest: &'a [u8],
}

// In microseconds.
const SECOND: u64 = 1_000_000;

const MINUTE: u64 = 60 * SECOND;

const HOUR: u64 = 60 * MINUTE;

const DAY: u64 = 24 * HOUR;

const WEEK: u64 = 7 * DAY;

// ---- amounts

// Times the microseconds of a unit, which has at least one.
fn times(amount: Amount, scale: u64) -> Amount
    requires { 0 < scale }
    ensures { (v : ℕ) → Stands amount v → Stands result (v * scale) }
{
    amount?.checked_mul(scale)
}

// The sum of two.
fn plus(a: Amount, b: Amount) -> Amount
    ensures { (v w : ℕ) → Stands a v → Stands b w → Stands result (v + w) }
{
    a?.checked_add(b?)
}

// The number that digits write.
fn number(digits: &[u8]) -> Amount
    requires { all digit digits.now ≡ true }
    ensures { Stands result (decimal digits.now) }
{
    let mut n = 0u64;
    for &b in digits {
        n = n.checked_mul(10)?.checked_add(u64::from(b - b'0'))?;
    }
    Some(n)
}

// ---- parts

// The bytes at the start of a text that pass, as many as there are, and the rest. The check takes no function of
// another crate as a value: its callers pass closures that call one.
fn split_start<F: Fn(u8) -> bool>(text: &[u8], passes: F) -> (&[u8], &[u8])
    requires { F.IsAlwaysCallable passes }
    ensures { SplitsAt (F.post passes) text.now result.0.now result.1.now }
{
    text.split_at(text.iter().take_while(|b| passes(**b)).count())
}

// How many microseconds the unit with this name has.
#[tactic(auto, unfolding(crate::specs::Spans::scale_in, lines::specs::Bytes::equal))]
fn scale_of(name: &[u8]) -> Option<u64>
    ensures { scale_means result ≡ scale_in units name.now }
{
    match name {
        b"us" => Some(1),
        b"ms" => Some(1_000),
        b"s" => Some(SECOND),
        b"min" => Some(MINUTE),
        b"h" => Some(HOUR),
        b"d" => Some(DAY),
        b"w" => Some(WEEK),
        _ => None,
    }
}

// Reads the part that a text starts with: a number, and the name of a unit. The text starts with no blank; an empty
// one has no part.
fn first_part(text: &[u8]) -> Result<FirstPart, Error>
    requires { trim_start text.now ≡ text.now }
    ensures { PartAt text.now result }
{
    let (digits, behind) = split_start(text, |b| is_digit(b));
    if digits.is_empty() {
        return Err(Error::SpanForm);
    }
    let (name, behind) = split_start(trim_start(behind), |b| is_letter(b));
    let scale = scale_of(name).ok_or(Error::SpanForm)?;
    Ok(FirstPart {
        amount: times(number(digits), scale),
        rest: trim_start(behind),
    })
}

// The sum of all parts of a text that starts with no blank. An empty text has no part, and the sum 0.
fn sum_parts(text: &[u8]) -> Result<Amount, Error>
    requires { trim_start text.now ≡ text.now }
    ensures { SumOf (parts_of (tokens (runs text.now))) result }
{
    let mut total = Some(0);
    let mut rest = text;
    while !rest.is_empty() {
        let Ok(part) = first_part(rest) else {
            return Err(Error::SpanForm);
        };
        total = plus(total, part.amount);
        rest = part.rest;
    }
    Ok(total)
}

// ---- spans

// How many microseconds a text states. Blanks at its ends do not count. 31 where it has not the form, however
// large its numbers are, and 32 where the sum is too large.
pub fn span(text: &[u8]) -> Result<u64, Error>
    ensures { span_means result ≡ span_of text.now }
{
    let trimmed = trim(text);
    if trimmed.is_empty() {
        return Err(Error::SpanForm);
    }
    let (digits, others) = split_start(trimmed, |b| is_digit(b));
    let total = if others.is_empty() {
        times(number(digits), SECOND)
    } else {
        sum_parts(trimmed)?
    };
    total.ok_or(Error::SpanTooLarge)
}
