// The tally of a batch of trees: how many were accepted, judged and not accepted, refused; and the percent accepted.
#![tactic(auto)]

ghost use Rattle.std.specs.Prelude.{◌≡◌};
ghost use Rattle.tally.specs.Tally.{counted_up, percent_of};
ghost use Rattle.tally.specs.Rounding.{PercentRight};

use refusal::{Fault, Refusal, refused};

#[derive(Clone, Copy)]
pub struct Tally {
    pub accepted: u32,
    pub other: u32,
    pub refused: u32,
}

// What became of one tree: document 01's accepted, other (judged, not accepted) and refused.
#[derive(Clone, Copy)]
pub enum Outcome {
    Accepted,
    Other,
    Refused,
}

// A tally after one more outcome, and whether the outcome was counted.
#[derive(Clone, Copy)]
pub struct Tallied {
    pub tally: Tally,
    pub check: Result<(), Refusal>,
}

// A tally whose numbers add to this or more counts no further.
const LIMIT: u64 = 1000000;

// The tally with one more of the outcome's kind; or, where it is full, as it was, and refusal 14.
pub fn counted(tally: Tally, outcome: Outcome) -> Tallied
    ensures { result ≡ counted_up tally outcome }
{
    let total = tally.accepted as u64 + tally.other as u64 + tally.refused as u64;
    if LIMIT <= total {
        let check = refused(Fault::Tally, 2, 0);
        return Tallied { tally, check };
    }
    let mut next = tally;
    match outcome {
        Outcome::Accepted => next.accepted += 1,
        Outcome::Other => next.other += 1,
        Outcome::Refused => next.refused += 1,
    }
    Tallied {
        tally: next,
        check: Ok(()),
    }
}

// The lent tally counts one more where it is; where it is full it stays as it was, and refusal 14 is the answer.
pub fn count(tally: &mut Tally, outcome: Outcome) -> Result<(), Refusal>
    ensures { (tally.new ≡ (counted_up tally.old outcome).tally)
        × (result ≡ (counted_up tally.old outcome).check) }
{
    let next = counted(*tally, outcome);
    *tally = next.tally;
    next.check
}

// For a caller that holds the tally: it is lent to `count` and comes back.
pub fn count_held(mut tally: Tally, outcome: Outcome) -> Tallied
    ensures { result ≡ counted_up tally outcome }
{
    let check = count(&mut tally, outcome);
    Tallied { tally, check }
}

// 100 times accepted over those judged, to the nearest, a half to the even number; 0 where none was judged.
pub fn percent(tally: Tally) -> u32
    ensures equals { result ≡ percent_of tally }
    ensures right { PercentRight tally result }
{
    let accepted = tally.accepted as u64;
    let judged = accepted + tally.other as u64;
    if judged == 0 {
        return 0;
    }
    let below = (100 * accepted / judged) as u32;
    let twice = 2 * (100 * accepted % judged);
    if twice < judged {
        return below;
    }
    if judged < twice {
        return below + 1;
    }
    below + below % 2
}
