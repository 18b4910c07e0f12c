// The answer: the first refusal that applies, or how the run ends.
use crate::{follow, limits};
use damaged::Damaged;
use sampling::access::has;
use sampling::rules::Automaton;

// A refusal is a kind after the four endings.
pub const REFUSED: usize = 4;

// How a run ends and its steps or, kind 4, a refusal's number, file and place.
#[derive(Clone, Copy, PartialEq, Eq)]
pub struct Expected {
    pub kind: usize,
    pub steps: usize,
    pub number: usize,
    pub file: usize,
    pub place: usize,
}

pub fn refused(number: usize, file: usize, place: usize) -> Expected {
    Expected {
        kind: REFUSED,
        steps: 0,
        number,
        file,
        place,
    }
}

pub fn ended(kind: usize, steps: usize) -> Expected {
    Expected {
        kind,
        steps,
        number: 0,
        file: 0,
        place: 0,
    }
}

// What is asked: the two files with their refusals, number 0 for a right one, the budget and the log's length.
#[derive(Clone, Copy)]
pub struct Question {
    pub automaton: Damaged,
    pub tree: Damaged,
    pub budget: usize,
    pub room: usize,
}

// How many states a set has.
fn count(set: u32) -> usize {
    let mut n = 0;
    for state in 0..32usize {
        if has(set, state) {
            n = n % 32 + 1;
        }
    }
    n
}

// 22 and 13, or number 0.
fn of_limits(budget: usize, room: usize) -> Expected {
    if budget > limits::MOST {
        return refused(22, 2, limits::MOST);
    }
    let length = limits::needed(budget);
    if room < length {
        refused(13, 2, length)
    } else {
        refused(0, 2, 0)
    }
}

// 20 and 21, or what is next.
fn of_automaton(a: Automaton, records: &[u8], q: Question) -> Expected {
    if !repeats::is_single(records, a) {
        return refused(20, 2, 0);
    }
    let starts = count(a.initial);
    if starts == 1 {
        of_limits(q.budget, q.room)
    } else {
        refused(21, 2, starts)
    }
}

// The first refusal of the two files, or number 0.
pub fn of_files(automaton: Damaged, tree: Damaged) -> Expected {
    if automaton.number > 0 {
        return refused(automaton.number, 0, automaton.place);
    }
    if tree.number > 0 {
        refused(tree.number, 1, tree.place)
    } else {
        refused(0, 2, 0)
    }
}

// The first refusal that applies, or number 0.
fn first_refusal(a: Automaton, records: &[u8], q: Question) -> Expected {
    let files = of_files(q.automaton, q.tree);
    if files.number > 0 {
        files
    } else {
        of_automaton(a, records, q)
    }
}

// What has to be answered. The log, as it was before, becomes what it has to be.
pub fn expected_of(
    a: Automaton,
    records: &[u8],
    nodes: &[usize],
    size: usize,
    q: Question,
    log: &mut [u8],
) -> Expected {
    let refusal = first_refusal(a, records, q);
    if refusal.number > 0 {
        return refusal;
    }
    let ending = follow::follow(a, records, nodes, size, q.budget, log);
    ended(ending.kind, ending.steps)
}
