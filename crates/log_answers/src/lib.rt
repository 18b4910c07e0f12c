// What the engine answers when two logs are held together (document 02, W8), beside what it has to: the numbers that are told, and the part's bytes.
#![tactic(auto)]

use log_counts::{DIFFERENT, count_held};
use log_pairs::Pair;
use log_runs::answer::{Held, Question, expected_of};
use log_runs::entries::MOST;
use log_trials::faults;
use sampling::access::{has, same_bytes};
use sampling::rules::Automaton;
use search::files;
use watch_trials::counts::count_if;

// Stands in all five numbers before, so that each has to be written.
const BEFORE: usize = 77777;

// What has to be told.
fn numbers_of(held: Held) -> [usize; 5] {
    let refusal = held.refusal;
    [
        refusal.number,
        refusal.file,
        refusal.place,
        held.first,
        held.second,
    ]
}

// Whether a part has so many entries, and the bytes of both logs.
fn same_part(part: &[u8], first: &[u8], second: &[u8], entries: usize) -> bool {
    let n = entries % MOST * 3;
    part.len() == n && same_bytes(part, first, n) && same_bytes(part, second, n)
}

// Whether the engine answers what it has to.
fn answers(automaton: &[u8], tree: &[u8], first: &[u8], second: &[u8], held: Held) -> bool {
    let mut told = [BEFORE; 5];
    let part = logs::compare(automaton, tree, first, second, &mut told);
    told == numbers_of(held) && same_part(part, first, second, held.agreed)
}

// Counts what has to be answered and whether it is. The files and logs stand in buffers that have room for more.
fn compare_answers(
    counts: &mut [usize],
    a: Automaton,
    records: &[u8],
    nodes: &[usize],
    size: usize,
    q: Question,
    automaton: &[u8],
    tree: &[u8],
    first: &[u8],
    second: &[u8],
) {
    let held = expected_of(a, records, nodes, q, first, second);
    count_held(counts, a, size, q, first, second, held);
    let same = answers(
        files::front(automaton, q.automaton.length),
        files::front(tree, q.tree.length),
        files::front(first, q.first),
        files::front(second, q.second),
        held,
    );
    count_if(counts, DIFFERENT, !same);
}

// Makes the files and the lengths of the logs, with a set of faults, and compares.
pub fn ask(
    counts: &mut [usize],
    random: &mut u64,
    a: Automaton,
    records: &mut [u8],
    nodes: &[usize],
    size: usize,
    set: u32,
    pair: Pair,
    first: &[u8],
    second: &[u8],
) {
    let mut automaton = [0u8; 3072];
    let mut tree = [0u8; damaged_trees::ROOM];
    let q = Question {
        automaton: watch_faults::automaton_file(random, a, records, &mut automaton, set),
        tree: watch_faults::tree_file(random, a, nodes, size, &mut tree, set),
        first: faults::length_of(random, pair.first, has(set, faults::FIRST_LOG)),
        second: faults::length_of(random, pair.second, has(set, faults::SECOND_LOG)),
    };
    compare_answers(
        counts, a, records, nodes, size, q, &automaton, &tree, first, second,
    );
}
