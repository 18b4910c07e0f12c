// The growth of closing, added up over the nodes of a tree (document 02, W9), by brute force: the pairs that are given at a node by exploring
// configurations, the pairs of the closed table by following chains of given pairs. It shares no code or definition with the engine.
#![tactic(auto)]

use sampling::access::{has, only, word};
use sampling::rules::Automaton;

pub mod given;
pub mod leaving;

// The states that are in the set, and those to which one pair leads from one of them.
fn one_further(pairs: &[u32], states: u32) -> u32 {
    let mut result = states;
    for state in 0..given::STATES {
        if has(states, state) {
            result |= word(pairs, state);
        }
    }
    result
}

// The states to which chains of one or more pairs lead. No state needs a chain of more pairs than there are states.
fn chained(pairs: &[u32], state: usize) -> u32 {
    let mut states = word(pairs, state);
    for _ in 0..given::STATES {
        states = one_further(pairs, states);
    }
    states
}

// How many of n states, at most 24, are in a set and not in another.
fn lacking(n: usize, set: u32, other: u32) -> usize {
    let mut total: usize = 0;
    for state in 0..n {
        if has(set, state) && !has(other, state) {
            total = total % 32 + 1;
        }
    }
    total
}

// The pairs from a state that closing adds.
fn growth_from(n: usize, pairs: &[u32], state: usize) -> usize {
    lacking(n, chained(pairs, state) | only(state), word(pairs, state))
}

// The growth of a table of pairs over n states, at most 24.
fn growth_of(n: usize, pairs: &[u32]) -> usize {
    let mut total: usize = 0;
    for state in 0..n {
        total = total % 1024 + growth_from(n, pairs, state) % 32;
    }
    total
}

// The growth at a node, at its own place.
fn growth_at(a: Automaton, rules: &[u8], nodes: &[usize], node: usize) -> usize {
    let mut pairs = [0u32; given::STATES];
    given::fill(a, rules, nodes, node, &mut pairs);
    growth_of(a.states, &pairs)
}

// The sum of a tree, at most 576 for each of at most 1,024 nodes.
pub fn sum(a: Automaton, rules: &[u8], nodes: &[usize], size: usize) -> usize {
    let mut total: usize = 0;
    for node in 0..size {
        total = total % 1048576 + growth_at(a, rules, nodes, node) % 1024;
    }
    total
}
