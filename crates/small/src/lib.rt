// Small automata by chance: one to four states and symbols, with rules of one of the families.
#![tactic(auto)]

use generated::families;
use sampling::access::{has, only};
use sampling::random::{chance, draw};
use sampling::rules;
use sampling::rules::{Automaton, Rule};
use sampling::sided::sided;
use search::trees;

pub const FAMILIES: usize = 8;

// The branch symbols: seldom none or all.
fn branches_of(random: &mut u64, symbols: usize) -> u32 {
    match draw(random, 24) {
        0 => 0,
        1 => {
            let all = only(symbols);
            if all > 0 { all - 1 } else { 0 }
        }
        _ => families::branches_of(random, symbols),
    }
}

// With no rule yet and no start or final state.
fn start(random: &mut u64) -> Automaton {
    let states = if chance(random, 1, 24) {
        1
    } else {
        2 + draw(random, 3)
    };
    let symbols = 1 + draw(random, 4);
    let branches = branches_of(random, symbols);
    Automaton {
        states,
        symbols,
        rules: 0,
        initial: 0,
        accepting: 0,
        branches,
    }
}

// Takes away the final or the start states, seldom.
fn without_sets(random: &mut u64, a: Automaton) -> Automaton {
    match draw(random, 24) {
        0 => a.with_sets(0, a.accepting),
        1 => a.with_sets(a.initial, 0),
        _ => a,
    }
}

// Any rules, and one start state; only the last state, into which few rules lead, is final.
fn by_chance(random: &mut u64, rules: &mut [u8], a: Automaton) -> Automaton {
    let n = 8 + draw(random, 60);
    let made = rules::add_some(random, rules, a, n, false);
    made.with_sets(1, only(rules::goal(a)))
}

// Rules along a walk through a tree, by the family of that number.
fn along_walk(random: &mut u64, rules: &mut [u8], a: Automaton, family: usize) -> Automaton {
    let mut nodes = [0usize; 8192];
    let shape = trees::choose(random);
    trees::grow(random, &mut nodes, shape, a.symbols, a.branches);
    families::make(random, &nodes, rules, a, family)
}

// A rule of a relay: the states of the first half go down to a leaf, those of the second come back, and may send one down again.
fn relay_rule(random: &mut u64, a: Automaton, symbol: usize, state: usize, place: usize) -> Rule {
    let half = a.states % 32 / 2;
    if has(a.branches, symbol) && (state < half || chance(random, 1, 8)) {
        Rule::new(
            symbol,
            state,
            place,
            2 + draw(random, 2),
            draw(random, half),
        )
    } else {
        Rule::new(symbol, state, place, 1, half + draw(random, half))
    }
}

// Rule i of 192, two for each symbol, state and place, of which the second is left out in some; at the root there are no moves but down.
fn add_one(random: &mut u64, rules: &mut [u8], a: Automaton, i: usize, more: usize) -> Automaton {
    if i % 2 == 0 || chance(random, more, 8) {
        let rule = relay_rule(random, a, i / 48, i / 6 % 8, i / 2 % 3);
        rules::add(rules, a, rule)
    } else {
        a
    }
}

fn add_relay(random: &mut u64, rules: &mut [u8], a: Automaton, more: usize) -> Automaton {
    let mut result = a;
    for i in 0..192usize {
        result = add_one(random, rules, result, i, more);
    }
    result
}

// Four to eight states and four symbols; there are often many classes.
fn relay(random: &mut u64, rules: &mut [u8]) -> Automaton {
    let states = 4 + 2 * draw(random, 3);
    let last = states - 1;
    let a = Automaton {
        states,
        symbols: 4,
        rules: 0,
        initial: 1,
        accepting: if chance(random, 1, 2) { only(last) } else { 0 },
        branches: if chance(random, 1, 2) { 14 } else { 12 },
    };
    let more = if chance(random, 1, 2) {
        draw(random, 8)
    } else {
        0
    };
    add_relay(random, rules, a, more)
}

// One path down to a leaf, and back with a state that each side changes; up to 24 states, of which one is final, and few symbols. So trees
// that are found are often high.
fn deep(random: &mut u64, rules: &mut [u8]) -> Automaton {
    let states = 5 + draw(random, 20);
    let symbols = 2 + draw(random, 2);
    let a = Automaton {
        states,
        symbols,
        rules: 0,
        initial: 0,
        accepting: 0,
        branches: 2,
    };
    let made = sided(random, rules, a);
    made.with_sets(1, only(1 + draw(random, 4)))
}

// The first five families are those of the generated automata.
fn of_family(random: &mut u64, rules: &mut [u8], a: Automaton, family: usize) -> Automaton {
    match family {
        0..=4 => along_walk(random, rules, a, family),
        5 => by_chance(random, rules, a),
        6 => relay(random, rules),
        _ => deep(random, rules),
    }
}

pub fn make(random: &mut u64, rules: &mut [u8], family: usize) -> Automaton {
    let first = start(random);
    let full = of_family(random, rules, first, family);
    without_sets(random, full)
}
