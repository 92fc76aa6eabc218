// The report of a call: the four numbers at the front of a slice. It is part of the answer.
ghost use Rattle.std.specs.Prelude.{◌≡◌, ◌≤◌, ℕ, List, length};
ghost use Rattle.lines.specs.Buffers.{filled};
ghost use Rattle.havtsulen.specs.Reports.{outcome_of, Reports};

use lines::Refusal;

// The least length of a report.
pub(crate) const REPORT_NUMBERS: usize = 4;

// The answer where it is shorter.
pub(crate) const SHORT_REPORT: usize = 1;

// What a call has accepted, as the four numbers of a report tell it.
pub(crate) trait Told {
    ghost told: { Self → List ℕ };

    fn numbers(self) -> [usize; 4]
        ensures { result ≡ told self };
}

// Puts four numbers at the front of a report.
fn put(numbers: [usize; 4], report: &mut [usize])
    requires { 4 ≤ length report.old }
    ensures { report.new ≡ filled numbers report.old }
{
    report[..4].copy_from_slice(&numbers);
}

// Answers a call: 0 and the numbers of what it has accepted, or the number of its refusal and the place of that.
pub(crate) fn tell<T: Told, E: Refusal + Copy>(answer: Result<T, E>, report: &mut [usize]) -> usize
    requires { 4 ≤ length report.old }
    ensures { Reports T.told (outcome_of E.number_is E.place_is answer) report.old result report.new }
{
    match answer {
        Ok(accepted) => {
            put(accepted.numbers(), report);
            0
        }
        Err(e) => {
            put([e.place(), 0, 0, 0], report);
            e.number()
        }
    }
}
