// What the search over all configurations says of an answer.
use crate::counts::{ACCEPTED, CONTRADICTIONS, LARGE, NOT_SEARCHED, OTHER, count_ending, count_if};
use followed::answer::Expected;
use followed::follow;
use sampling::access::divided;
use sampling::rules::Automaton;
use search::walk;

// The most nodes of a tree that is searched, and the most nodes times records.
const NODES: usize = 1024;

const WORK: usize = 32768;

// Whether an answer goes with what the search says of the tree, and with a budget, where there are so many configurations.
fn agrees(found: Expected, accepted: bool, budget: usize, full: usize) -> bool {
    let kind = found.kind;
    match kind {
        follow::PASSED => accepted,
        follow::STUCK | follow::CIRCLING => !accepted,
        follow::SPENT => budget < full,
        _ => false,
    }
}

// Counts what the search says, and whether the answer goes with it.
fn search(
    counts: &mut [usize],
    a: Automaton,
    records: &[u8],
    nodes: &[usize],
    size: usize,
    budget: usize,
    found: Expected,
) {
    let mut reached = [0u32; 1024];
    let accepted = walk::accepts(a, records, nodes, size, &mut reached);
    let full = follow::configurations(a, size);
    count_ending(counts, if accepted { ACCEPTED } else { OTHER }, found);
    count_if(
        counts,
        CONTRADICTIONS,
        !agrees(found, accepted, budget, full),
    );
}

// Has the search say whether a tree is accepted, unless that takes too long.
pub fn compare(
    counts: &mut [usize],
    a: Automaton,
    records: &[u8],
    nodes: &[usize],
    size: usize,
    budget: usize,
    found: Expected,
) {
    if size > NODES {
        count_ending(counts, LARGE, found);
        return;
    }
    if divided(WORK, size) < a.rules {
        count_ending(counts, NOT_SEARCHED, found);
    } else {
        search(counts, a, records, nodes, size, budget, found);
    }
}
