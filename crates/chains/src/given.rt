// The pairs of states that are given at a node, before they are closed. Row p has the states q of the pairs (p, q).
use crate::leaving::{fits, leaving};
use sampling::access::{only, set_word, word};
use sampling::rules;
use sampling::rules::Automaton;
use search::trees;

// The rows.
pub const STATES: usize = 32;

// The states in which a rule of a node has the automaton back at the node: at once, or from the part that it enters. A rule up has none.
fn back(a: Automaton, rules: &[u8], rule: usize, nodes: &[usize], node: usize) -> u32 {
    let next = rules::get(rules, rule, rules::NEXT);
    match rules::get(rules, rule, rules::MOVE) {
        0 => only(next),
        1 => 0,
        2 => leaving(a, rules, nodes, trees::get(nodes, node, trees::LEFT), next),
        _ => leaving(a, rules, nodes, trees::get(nodes, node, trees::RIGHT), next),
    }
}

fn add(a: Automaton, rules: &[u8], rule: usize, nodes: &[usize], node: usize, pairs: &mut [u32]) {
    if fits(rules, rule, nodes, node) {
        let state = rules::get(rules, rule, rules::STATE);
        let states = word(pairs, state) | back(a, rules, rule, nodes, node);
        set_word(pairs, state, states);
    }
}

// Adds the pairs that are given at a node, at its own place.
pub fn fill(a: Automaton, rules: &[u8], nodes: &[usize], node: usize, pairs: &mut [u32]) {
    for rule in 0..a.rules {
        add(a, rules, rule, nodes, node, pairs);
    }
}
