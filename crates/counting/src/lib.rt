// Answers as numbers, three for each tree, counted onto a tally.
#![tactic(auto)]

ghost use Rattle.std.specs.Prelude.{◌≡◌};
ghost use Rattle.counting.specs.Counting.{outcome_numbered, counted_all};

use tally::{Outcome, Tally, count};

// 0 accepted, 1 other, any other number refused.
fn outcome_of(number: usize) -> Outcome
    ensures { result ≡ outcome_numbered number }
{
    match number {
        0 => Outcome::Accepted,
        1 => Outcome::Other,
        _ => Outcome::Refused,
    }
}

// Counts answers, three numbers each, onto a tally, which is lent to `tally::count`. A full tally stays as it was.
pub fn count_all(before: Tally, answers: &[usize]) -> Tally
    ensures { result ≡ counted_all before answers.now }
{
    let mut tally = before;
    for i in 0..answers.len() / 3 {
        let _ = count(&mut tally, outcome_of(answers[3 * i]));
    }
    tally
}
