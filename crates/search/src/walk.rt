// Brute force: all configurations (node, state) that a run of the automaton reaches, by the definition of a step alone. For each node the
// states reached there are one word.
use crate::trees;
use sampling::access::{has, only, set_word, word};
use sampling::rules;
use sampling::rules::Automaton;

// Whether a rule applies at a node, where the states were reached: at its symbol, in its state, at its place.
fn applies(rules: &[u8], rule: usize, nodes: &[usize], node: usize, states: u32) -> bool {
    let place = rules::get(rules, rule, rules::PLACE);
    has(states, rules::get(rules, rule, rules::STATE))
        && rules::get(rules, rule, rules::SYMBOL) == trees::get(nodes, node, trees::SYMBOL)
        && (place == 3 || place == trees::get(nodes, node, trees::SIDE))
}

// The node to which a move leads.
pub fn target(nodes: &[usize], node: usize, step: usize) -> usize {
    match step {
        0 => node,
        1 => trees::get(nodes, node, trees::PARENT),
        2 => trees::get(nodes, node, trees::LEFT),
        _ => trees::get(nodes, node, trees::RIGHT),
    }
}

// Adds states at a node; whether one of them is new there.
fn reach(reached: &mut [u32], node: usize, states: u32) -> bool {
    let before = word(reached, node);
    let after = before | states;
    set_word(reached, node, after);
    after != before
}

// One step by the rule from the node, where it applies; whether it reaches a new configuration.
fn step(rules: &[u8], rule: usize, nodes: &[usize], node: usize, reached: &mut [u32]) -> bool {
    if !applies(rules, rule, nodes, node, word(reached, node)) {
        return false;
    }
    let to = target(nodes, node, rules::get(rules, rule, rules::MOVE));
    reach(reached, to, only(rules::get(rules, rule, rules::NEXT)))
}

// All steps from a node.
fn steps_from(
    rules: &[u8],
    count: usize,
    nodes: &[usize],
    node: usize,
    reached: &mut [u32],
) -> bool {
    let mut new = false;
    for rule in 0..count {
        if step(rules, rule, nodes, node, reached) {
            new = true;
        }
    }
    new
}

// One round: all steps from all nodes.
fn round(rules: &[u8], count: usize, nodes: &[usize], size: usize, reached: &mut [u32]) -> bool {
    let mut new = false;
    for node in 0..size {
        if steps_from(rules, count, nodes, node, reached) {
            new = true;
        }
    }
    new
}

// Rounds until one reaches nothing new. A round that does reaches one of at most 1024 × 24 configurations, so the bound is never met.
fn rounds(rules: &[u8], count: usize, nodes: &[usize], size: usize, reached: &mut [u32]) {
    for _ in 0..24577usize {
        if !round(rules, count, nodes, size, reached) {
            return;
        }
    }
}

// Adds all configurations that runs reach from the states at the root.
pub fn run(
    rules: &[u8],
    count: usize,
    nodes: &[usize],
    size: usize,
    states: u32,
    reached: &mut [u32],
) {
    reach(reached, 0, states);
    rounds(rules, count, nodes, size, reached);
}

// Whether a run from a start state at the root comes back there in a final state.
pub fn accepts(
    a: Automaton,
    rules: &[u8],
    nodes: &[usize],
    size: usize,
    reached: &mut [u32],
) -> bool {
    run(rules, a.rules, nodes, size, a.initial, reached);
    word(reached, 0) & a.accepting != 0
}
