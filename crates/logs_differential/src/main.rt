// Compares what is told of two logs held together with a reading that goes entry by entry and record by record, on automata, trees and logs by chance,
// of which every second pair has a fault or several: a damaged file, or a log whose length is no multiple of three. It writes how the logs were made,
// what they have to give, the refusals by number, and how often the engine differs.
#![tactic(auto)]

use log_answers::ask;
use log_counts::{COUNTS, count_pair};
use log_trials::{automata, faults, lines};
use sampling::random::seed;
use sampling::rules::Automaton;

// The pairs of each group of automata.
const PAIRS: usize = 500;

// The number of the first pair: other programs begin with 0.
const FIRST: usize = 100000;

// Makes the logs, and asks.
fn ask_of_logs(
    counts: &mut [usize],
    random: &mut u64,
    a: Automaton,
    records: &mut [u8],
    nodes: &[usize],
    size: usize,
    set: u32,
) {
    let mut first = [0u8; log_walks::ROOM];
    let mut second = [0u8; log_walks::ROOM];
    let pair = log_pairs::make(random, a, records, nodes, &mut first, &mut second);
    count_pair(counts, a, records, pair, set);
    ask(
        counts, random, a, records, nodes, size, set, pair, &first, &second,
    );
}

// The pair of that number.
fn one(counts: &mut [usize], k: usize, group: usize) {
    let mut random = seed(FIRST + k % FIRST);
    let mut nodes = [0usize; large_trees::ROOM];
    let mut records = [0u8; 2560];
    let made = automata::make(&mut random, &mut nodes, &mut records, group);
    let a = made.automaton;
    let set = faults::of_pair(&mut random, k);
    ask_of_logs(counts, &mut random, a, &mut records, &nodes, made.size, set);
}

fn run(counts: &mut [usize]) {
    for k in 0..PAIRS * automata::GROUPS {
        one(counts, k, k / PAIRS);
    }
}

fn main() {
    let mut counts = [0usize; COUNTS];
    run(&mut counts);
    lines::print(&counts);
}
