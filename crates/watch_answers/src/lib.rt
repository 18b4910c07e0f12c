// What the engine answers when a run is watched (document 02, W7), beside what it has to, and every byte of the log.
#![tactic(auto)]

mod engine;

use followed::answer::{Expected, Question};
use followed::{answer, limits};
use sampling::access::same_bytes;
use sampling::rules::Automaton;
use watch_trials::counts::{DIFFERENCES, count_if};
use watch_trials::{counts, lent};

// The pairs of each family.
pub const PAIRS: usize = 2000;

// Counts what has to be answered and whether it is; gives back what the engine answers.
pub fn compare_answers(
    counts: &mut [usize],
    k: usize,
    a: Automaton,
    records: &[u8],
    nodes: &[usize],
    size: usize,
    q: Question,
    automaton: &[u8],
    tree: &[u8],
) -> Expected {
    let mut log = [0u8; limits::ROOM];
    let n = lent::end(q.room);
    lent::fill(&mut log, n, k);
    let mut right = log;
    let expected = answer::expected_of(a, records, nodes, size, q, &mut right);
    let found = engine::answer(automaton, tree, q.budget, &mut log, q.room);
    let same = found == expected && same_bytes(&log, &right, n);
    counts::count_answer(counts, k / PAIRS, expected);
    count_if(counts, DIFFERENCES, !same);
    found
}
