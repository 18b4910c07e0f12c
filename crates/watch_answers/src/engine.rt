// The engine's answer, in the terms of the reading that followed the run.
use followed::answer::Expected;
use followed::{answer, follow};
use refusal::Refusal;
use watch::Watched;
use watch_trials::lent::lower;

fn as_expected(answer: Result<Watched, Refusal>) -> Expected {
    match answer {
        Ok(Watched::Passed(steps)) => answer::ended(follow::PASSED, steps),
        Ok(Watched::Stuck(steps)) => answer::ended(follow::STUCK, steps),
        Ok(Watched::Circling(steps)) => answer::ended(follow::CIRCLING, steps),
        Ok(Watched::Spent(steps)) => answer::ended(follow::SPENT, steps),
        Err(refusal) => {
            answer::refused(
                refusal.number as usize,
                refusal.file as usize,
                refusal.place,
            )
        }
    }
}

// The engine's answer; it is lent the front of the log.
pub fn answer(
    automaton: &[u8],
    tree: &[u8],
    budget: usize,
    log: &mut [u8],
    room: usize,
) -> Expected {
    let n = lower(room, log.len());
    as_expected(watch::watch(automaton, tree, budget, &mut log[..n]))
}
