// Automata that tell left from right: one path down to a leaf, and on the way back the state changes by each side.
use crate::access::{divided, has, modulo};
use crate::random::{chance, draw, subset};
use crate::rules;
use crate::rules::{Automaton, Rule};

// A state other than 0.
fn beyond_zero(random: &mut u64, a: Automaton) -> usize {
    if a.states > 1 {
        1 + draw(random, a.states - 1)
    } else {
        0
    }
}

// State 0 goes down to a leaf, by a direction for each symbol and place. Any other state goes up, and changes by the side it leaves from;
// at the root it stays as it is.
fn next_of(random: &mut u64, a: Automaton, state: usize, place: usize) -> usize {
    if state != 0 && place == 0 {
        state
    } else {
        beyond_zero(random, a)
    }
}

fn sided_rule(random: &mut u64, a: Automaton, symbol: usize, state: usize, place: usize) -> Rule {
    if state == 0 && has(a.branches, symbol) {
        Rule::new(symbol, state, place, 2 + draw(random, 2), 0)
    } else {
        let step = if place == 0 { 0 } else { 1 };
        Rule::new(symbol, state, place, step, next_of(random, a, state, place))
    }
}

// A rule for each symbol, state and place.
fn add_all_sided(random: &mut u64, rules: &mut [u8], a: Automaton) -> Automaton {
    let mut result = a;
    for i in 0..192usize {
        let state = modulo(i / 3, a.states);
        let symbol = divided(i / 3, a.states);
        let rule = sided_rule(random, a, symbol, state, i % 3);
        result = rules::add(rules, result, rule);
    }
    result
}

pub fn sided(random: &mut u64, rules: &mut [u8], a: Automaton) -> Automaton {
    let made = add_all_sided(random, rules, a);
    let more = if chance(random, 1, 4) {
        draw(random, 6)
    } else {
        0
    };
    let full = rules::add_some(random, rules, made, more, false);
    rules::disturb(random, rules, full, 2);
    let accepting = subset(random, a.states) & 4294967294;
    full.with_sets(1, accepting)
}
