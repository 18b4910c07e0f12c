// Automata that walk the whole tree depth first and count the nodes of some symbols, modulo a third of the number of states.
use crate::access::{divided, has, modulo};
use crate::random::subset;
use crate::rules;
use crate::rules::{Automaton, Rule};

// What a state of a counting automaton is: going down (0), back from the left child (1) or done with the subtree (2), with a count.
fn phase(a: Automaton, kind: usize, count: usize) -> usize {
    let period = a.states % 32 / 3;
    let rest = modulo(count, period);
    match kind {
        0 => rest,
        1 => period + rest,
        _ => 2 * period + rest,
    }
}

// Up from a leaf, whose node is counted.
fn add_leaf(
    rules: &mut [u8],
    a: Automaton,
    symbol: usize,
    count: usize,
    after: usize,
) -> Automaton {
    let state = phase(a, 0, count);
    let back = phase(a, 1, after);
    let done = phase(a, 2, after);
    let b = rules::add(rules, a, Rule::new(symbol, state, 0, 0, done));
    let c = rules::add(rules, b, Rule::new(symbol, state, 1, 1, back));
    rules::add(rules, c, Rule::new(symbol, state, 2, 1, done))
}

// Down to the left child, and from there to the right one.
fn add_down(
    rules: &mut [u8],
    a: Automaton,
    symbol: usize,
    count: usize,
    after: usize,
) -> Automaton {
    let state = phase(a, 0, count);
    let b = rules::add(rules, a, Rule::new(symbol, state, 3, 2, phase(a, 0, after)));
    rules::add(rules, b, Rule::new(symbol, phase(a, 1, count), 3, 3, state))
}

// Up from a subtree that is done.
fn add_up(rules: &mut [u8], a: Automaton, symbol: usize, count: usize) -> Automaton {
    let done = phase(a, 2, count);
    let b = rules::add(rules, a, Rule::new(symbol, done, 1, 1, phase(a, 1, count)));
    rules::add(rules, b, Rule::new(symbol, done, 2, 1, done))
}

// The rules of a symbol where the count is given.
fn add_counting(
    rules: &mut [u8],
    a: Automaton,
    symbol: usize,
    count: usize,
    counted: u32,
) -> Automaton {
    let after = if has(counted, symbol) {
        count % 32 + 1
    } else {
        count % 32
    };
    if has(a.branches, symbol) {
        let b = add_down(rules, a, symbol, count, after);
        add_up(rules, b, symbol, count)
    } else {
        add_leaf(rules, a, symbol, count, after)
    }
}

fn add_all_counting(rules: &mut [u8], a: Automaton, counted: u32) -> Automaton {
    let mut result = a;
    let period = a.states / 3;
    for i in 0..80usize {
        result = add_counting(
            rules,
            result,
            divided(i, period),
            modulo(i, period),
            counted,
        );
    }
    result
}

// Walks the whole tree depth first, and counts the nodes of some symbols modulo a third of the number of states.
pub fn counting(random: &mut u64, rules: &mut [u8], a: Automaton) -> Automaton {
    let counted = subset(random, a.symbols);
    let full = add_all_counting(rules, a, counted);
    let period = a.states % 32 / 3;
    let accepting = subset(random, period) << (2 * period);
    rules::disturb(random, rules, full, 8);
    full.with_sets(1, accepting)
}
