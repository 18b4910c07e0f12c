// Two logs by chance (document 02, W8): of a walk that takes any rule that applies, and of such a walk with a change. It has nothing of the engine.
#![tactic(auto)]

pub mod change;

use sampling::random::{chance, draw};
use sampling::rules::Automaton;

// How many entries the two logs have, and how each was made.
#[derive(Clone, Copy)]
pub struct Pair {
    pub first: usize,
    pub second: usize,
    pub first_way: usize,
    pub second_way: usize,
}

// Makes the second log from the first or, less often, from the walk that this was made from.
fn make_second(
    random: &mut u64,
    a: Automaton,
    records: &[u8],
    nodes: &[usize],
    second: &mut [u8],
    first: &[u8],
    n: usize,
    walk: &[u8],
    m: usize,
    way: usize,
) -> usize {
    if chance(random, 1, 4) {
        change::make(random, a, records, nodes, second, walk, m, way)
    } else {
        change::make(random, a, records, nodes, second, first, n, way)
    }
}

// Makes two logs in buffers that were all zero.
pub fn make(
    random: &mut u64,
    a: Automaton,
    records: &[u8],
    nodes: &[usize],
    first: &mut [u8],
    second: &mut [u8],
) -> Pair {
    let mut walk = [0u8; log_walks::ROOM];
    let most = log_walks::length(random);
    let m = log_walks::walk_on(random, a, records, nodes, &mut walk, 0, most);
    let first_way = if chance(random, 1, 3) {
        draw(random, change::WAYS)
    } else {
        change::EQUAL
    };
    let n = change::make(random, a, records, nodes, first, &walk, m, first_way);
    let second_way = draw(random, change::WAYS);
    Pair {
        first: n,
        second: make_second(
            random, a, records, nodes, second, first, n, &walk, m, second_way,
        ),
        first_way,
        second_way,
    }
}
