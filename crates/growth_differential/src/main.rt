// Compares the growth of closing that judging adds up over the nodes of a tree (document 02, W9) with a sum by brute force over configurations and
// chains of pairs, and the verdict with a search. A pair of an automaton and a tree is made from its number alone; every second pair has one of its
// files damaged, and has to be refused with sum 0. It writes for each family of automata the pairs, their verdicts, the sum by brute force over all of
// them, and how often the engine differs.
#![tactic(auto)]

use crate::counts::COUNTS;
use crate::told::{Told, judged, refused};
use damaged::Damaged;
use generated::families;
use membership::{Answer, Judged};
use sampling::access::only;
use sampling::random::{draw, seed};
use sampling::rules::Automaton;
use search::{files, trees, walk};

mod counts;
mod shapes;
mod told;

// The pairs of each family.
const PAIRS: usize = 800;

// The number of the first pair: other programs begin with 0.
const FIRST: usize = 200000;

// ---- the engine

// The sum by the cache, of a batch of one file.
fn cached(automaton: &[u8], tree: &[u8]) -> usize {
    let mut numbers = [0usize; 3];
    let mut growths = [0usize; 1];
    let _ = answers::judge_all(automaton, tree, &mut numbers, &mut growths);
    growths[0]
}

// A sum that both ways tell; else a number that is no sum.
fn agreed(sum: usize, other: usize) -> usize {
    if sum == other { sum } else { 99999999 }
}

// What the engine says, by the overloops of all parts and by the cache.
fn engine(automaton: &[u8], tree: &[u8]) -> Told {
    let found = judging::judge(automaton, tree);
    in_numbers(found, cached(automaton, tree))
}

// An answer as numbers. Of a file that is refused nothing else is asked: a batch takes its length from the first block, and may find another file.
fn in_numbers(found: Judged, other: usize) -> Told {
    let answer = found.answer;
    let sum = found.growth as usize;
    match answer {
        Ok(Answer::Accepted) => judged(true, agreed(sum, other)),
        Ok(Answer::Other) => judged(false, agreed(sum, other)),
        Err(refusal) => {
            refused(
                refusal.number as usize,
                refusal.file as usize,
                refusal.place,
                sum,
            )
        }
    }
}

// ---- what has to be said

// Of a pair whose files are as they should be, by brute force.
fn searched(a: Automaton, rules: &[u8], nodes: &[usize], size: usize) -> Told {
    let mut reached = [0u32; trees::ROOM];
    let accepted = walk::accepts(a, rules, nodes, size, &mut reached);
    judged(accepted, chains::sum(a, rules, nodes, size))
}

// Of a pair of which one file may be damaged; refusal number 0 stands for none.
fn expected_of(
    a: Automaton,
    rules: &[u8],
    nodes: &[usize],
    size: usize,
    automaton: Damaged,
    tree: Damaged,
) -> Told {
    if automaton.number != 0 {
        refused(automaton.number, 0, automaton.place, 0)
    } else if tree.number != 0 {
        refused(tree.number, 1, tree.place, 0)
    } else {
        searched(a, rules, nodes, size)
    }
}

// ---- pairs

// The faults of a pair, as in `watch_faults`: none, or one in the automaton's file (0) or in the tree's (1).
fn faults_of(random: &mut u64, pair: usize) -> u32 {
    let fault = only(draw(random, 2));
    if pair % 2 == 0 { 0 } else { fault }
}

// Makes the files, and compares.
fn compare(
    counts: &mut [usize],
    random: &mut u64,
    pair: usize,
    a: Automaton,
    rules: &mut [u8; 2560],
    nodes: &[usize],
    size: usize,
) {
    let mut automaton = [0u8; 3072];
    let mut tree = [0u8; damaged_trees::ROOM];
    let faults = faults_of(random, pair);
    let first = watch_faults::automaton_file(random, a, rules, &mut automaton, faults);
    let second = watch_faults::tree_file(random, a, nodes, size, &mut tree, faults);
    let expected = expected_of(a, rules, nodes, size, first, second);
    let found = engine(
        files::front(&automaton, first.length),
        files::front(&tree, second.length),
    );
    counts::count_size(counts, size, expected.kind);
    counts::tally(counts, pair, pair / PAIRS, expected, found);
}

// The pair of that number.
fn one(counts: &mut [usize], pair: usize, family: usize) {
    let mut random = seed(FIRST + pair % FIRST);
    let mut nodes = [0usize; 8 * trees::ROOM];
    let mut rules = [0u8; 2560];
    let first = families::start(&mut random, family);
    let shape = shapes::choose(&mut random);
    let size = trees::grow(
        &mut random,
        &mut nodes,
        shape,
        first.symbols,
        first.branches,
    );
    let a = families::make(&mut random, &nodes, &mut rules, first, family);
    compare(counts, &mut random, pair, a, &mut rules, &nodes, size);
}

fn run(counts: &mut [usize]) {
    for pair in 0..PAIRS * families::FAMILIES {
        one(counts, pair, pair / PAIRS);
    }
}

fn main() {
    let mut counts = [0usize; COUNTS];
    run(&mut counts);
    counts::print(&counts);
}
