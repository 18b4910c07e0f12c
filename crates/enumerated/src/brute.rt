// Brute force on the small trees of an enumeration, by runs alone: whether a tree is accepted, and its class.
use crate::rows;
use sampling::access::{only, word};
use sampling::rules::Automaton;
use search::{trees, walk};

// Whether the tree of a row is accepted.
pub fn accepted(a: Automaton, rules: &[u8], list: &[usize], row: usize) -> bool {
    let mut nodes = [0usize; 256];
    let mut reached = [0u32; 32];
    let size = rows::unfold(list, row, &mut nodes);
    walk::accepts(a, rules, &nodes, size, &mut reached)
}

// The states in which runs leave a tree upward that enter its root in the state. The root is a left (1) or right (2) part of a node beyond
// the tree, from which no step is made.
fn overloops(
    a: Automaton,
    rules: &[u8],
    nodes: &mut [usize],
    size: usize,
    side: usize,
    state: usize,
) -> u32 {
    let mut reached = [0u32; 32];
    trees::set(nodes, 0, trees::SIDE, side);
    trees::set(nodes, 0, trees::PARENT, size);
    walk::run(rules, a.rules, nodes, size, only(state), &mut reached);
    word(&reached, size)
}

// The class of the tree of a row as one word: its overloops as a left and as a right part, four bits for each of four states.
pub fn class(a: Automaton, rules: &[u8], list: &[usize], row: usize) -> u32 {
    let mut nodes = [0usize; 256];
    let mut key: u32 = 0;
    let size = rows::unfold(list, row, &mut nodes);
    for i in 0..8usize {
        let states = overloops(a, rules, &mut nodes, size, 1 + i / 4, i % 4);
        key |= (states & 15) << (4 * i);
    }
    key
}
