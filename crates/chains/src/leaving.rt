// The overloops of a subtree at its place: from an entering state all configurations (node, state) inside it are explored, by the definition
// of a step alone. For each node the states reached there are one word, and so are those reached above the subtree.
use sampling::access::{has, only, set_word, word};
use sampling::rules;
use sampling::rules::Automaton;
use search::trees;
use search::walk::target;

// Stands for the node above the subtree.
const ABOVE: usize = trees::ROOM;

// Whether a rule has the symbol and the place of a node.
pub fn fits(rules: &[u8], rule: usize, nodes: &[usize], node: usize) -> bool {
    let place = rules::get(rules, rule, rules::PLACE);
    rules::get(rules, rule, rules::SYMBOL) == trees::get(nodes, node, trees::SYMBOL)
        && (place == 3 || place == trees::get(nodes, node, trees::SIDE))
}

// Where a rule leads from a node of the subtree below `top`.
fn reached_by(rules: &[u8], rule: usize, nodes: &[usize], top: usize, node: usize) -> usize {
    let step = rules::get(rules, rule, rules::MOVE);
    if step == 1 && node == top {
        ABOVE
    } else {
        target(nodes, node, step)
    }
}

// One step by a rule from a node in one of the states, where it applies.
fn step(
    rules: &[u8],
    rule: usize,
    nodes: &[usize],
    top: usize,
    node: usize,
    states: u32,
    reached: &mut [u32],
) {
    if has(states, rules::get(rules, rule, rules::STATE)) && fits(rules, rule, nodes, node) {
        let to = reached_by(rules, rule, nodes, top, node);
        let next = only(rules::get(rules, rule, rules::NEXT));
        set_word(reached, to, word(reached, to) | next);
    }
}

// All steps from a node in one of the states.
fn steps_from(
    a: Automaton,
    rules: &[u8],
    nodes: &[usize],
    top: usize,
    node: usize,
    states: u32,
    reached: &mut [u32],
) {
    for rule in 0..a.rules {
        step(rules, rule, nodes, top, node, states, reached);
    }
}

// All steps from a node in the states from which none was made yet; whether there is one.
fn visit(
    a: Automaton,
    rules: &[u8],
    nodes: &[usize],
    top: usize,
    node: usize,
    reached: &mut [u32],
    visited: &mut [u32],
) -> bool {
    let states = word(reached, node);
    let new = states & (4294967295 ^ word(visited, node));
    if new == 0 {
        return false;
    }
    set_word(visited, node, states);
    steps_from(a, rules, nodes, top, node, new, reached);
    true
}

// Visits all nodes of a subtree, which come one after another; whether there was a new state at one.
fn sweep(
    a: Automaton,
    rules: &[u8],
    nodes: &[usize],
    top: usize,
    end: usize,
    reached: &mut [u32],
    visited: &mut [u32],
) -> bool {
    let mut new = false;
    for node in top..end {
        if visit(a, rules, nodes, top, node, reached, visited) {
            new = true;
        }
    }
    new
}

// Sweeps until one finds nothing new. Any other visits one of at most 1024 × 24 configurations for the first time, so the bound is never met.
fn sweeps(
    a: Automaton,
    rules: &[u8],
    nodes: &[usize],
    top: usize,
    end: usize,
    reached: &mut [u32],
    visited: &mut [u32],
) {
    for _ in 0..24577usize {
        if !sweep(a, rules, nodes, top, end, reached, visited) {
            return;
        }
    }
}

// The number behind those of a subtree's nodes, of which the last is a leaf, down to the right. No tree is higher than 64.
fn end_of(nodes: &[usize], top: usize) -> usize {
    let mut node = top;
    for _ in 0..65usize {
        if trees::get(nodes, node, trees::BRANCH) == 1 {
            node = trees::get(nodes, node, trees::RIGHT);
        }
    }
    node % trees::ROOM + 1
}

// The states in which the automaton leaves a subtree upward, which it enters at its top node in the state, and in which it stays until then.
pub fn leaving(a: Automaton, rules: &[u8], nodes: &[usize], top: usize, state: usize) -> u32 {
    let mut reached = [0u32; trees::ROOM + 1];
    let mut visited = [0u32; trees::ROOM];
    set_word(&mut reached, top, only(state));
    let end = end_of(nodes, top);
    sweeps(a, rules, nodes, top, end, &mut reached, &mut visited);
    word(&reached, ABOVE)
}
