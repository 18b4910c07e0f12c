// Automata by chance whose records say rules more than once: copies, place 3 beside its own places, and copies of which a byte is another.
// And whether an automaton is single, by a reading of document 02's W2 that shares no code or definition with the engine: two records
// contradict each other, or none do.
#![tactic(auto)]

use sampling::random::{chance, draw, subset};
use sampling::rules;
use sampling::rules::{Automaton, Rule};

pub const FAMILIES: usize = 4;

// ---- single

// Whether two places have a node in common.
fn places_meet(p: usize, q: usize) -> bool {
    p == q || p == 3 || q == 3
}

// Whether two records have a symbol, a state and a place in common, and there another move or next state.
fn contradict(records: &[u8], i: usize, j: usize) -> bool {
    rules::get(records, i, rules::SYMBOL) == rules::get(records, j, rules::SYMBOL)
        && rules::get(records, i, rules::STATE) == rules::get(records, j, rules::STATE)
        && places_meet(
            rules::get(records, i, rules::PLACE),
            rules::get(records, j, rules::PLACE),
        )
        && (rules::get(records, i, rules::MOVE) != rules::get(records, j, rules::MOVE)
            || rules::get(records, i, rules::NEXT) != rules::get(records, j, rules::NEXT))
}

// Whether a record contradicts an earlier one.
fn contradicts(records: &[u8], i: usize) -> bool {
    for j in 0..i {
        if contradict(records, i, j) {
            return true;
        }
    }
    false
}

pub fn is_single(records: &[u8], a: Automaton) -> bool {
    for i in 0..a.rules {
        if contradicts(records, i) {
            return false;
        }
    }
    true
}

// ---- automata

// With no rule yet; one state and one symbol up to the most that there may be.
fn start(random: &mut u64) -> Automaton {
    let states = if chance(random, 1, 2) {
        1 + draw(random, 4)
    } else {
        1 + draw(random, 24)
    };
    let symbols = if chance(random, 1, 2) {
        1 + draw(random, 4)
    } else {
        1 + draw(random, 32)
    };
    Automaton {
        states,
        symbols,
        rules: 0,
        initial: subset(random, states),
        accepting: subset(random, states),
        branches: subset(random, symbols),
    }
}

fn record(records: &[u8], i: usize) -> Rule {
    Rule::new(
        rules::get(records, i, rules::SYMBOL),
        rules::get(records, i, rules::STATE),
        rules::get(records, i, rules::PLACE),
        rules::get(records, i, rules::MOVE),
        rules::get(records, i, rules::NEXT),
    )
}

fn at_place(rule: Rule, place: usize) -> Rule {
    Rule::new(rule.symbol, rule.state, place, rule.step, rule.next)
}

// The same rule: as it is or, of place 3, at one of its places.
fn copy(random: &mut u64, rule: Rule) -> Rule {
    if rule.place == 3 && chance(random, 2, 3) {
        at_place(rule, draw(random, 3))
    } else {
        rule
    }
}

// The rule with another move, next state or place; at times the same.
fn changed(random: &mut u64, a: Automaton, rule: Rule) -> Rule {
    match draw(random, 4) {
        0 => at_place(rule, 3),
        1 => Rule::new(
            rule.symbol,
            rule.state,
            rule.place,
            draw(random, 4),
            rule.next,
        ),
        2 => at_place(rule, draw(random, 3)),
        _ => Rule::new(
            rule.symbol,
            rule.state,
            rule.place,
            rule.step,
            draw(random, a.states),
        ),
    }
}

// One that is there, as a copy or, in one of `changes`, if not 0, with a change.
fn another(random: &mut u64, records: &[u8], a: Automaton, changes: usize) -> Rule {
    let rule = record(records, draw(random, a.rules));
    if changes > 0 && chance(random, 1, changes) {
        changed(random, a, rule)
    } else {
        copy(random, rule)
    }
}

// With n records more, each from one that is there.
fn with_copies(
    random: &mut u64,
    records: &mut [u8],
    a: Automaton,
    n: usize,
    changes: usize,
) -> Automaton {
    let mut result = a;
    for _ in 0..n {
        let rule = another(random, records, result, changes);
        result = rules::add(records, result, rule);
    }
    result
}

// Records of place 3 for some of the first states and symbols, where no rule is in the way.
fn with_places(random: &mut u64, records: &mut [u8], a: Automaton, n: usize) -> Automaton {
    let mut result = a;
    for _ in 0..n {
        let rule = rules::by_chance(random, a);
        result = rules::add_by(records, result, at_place(rule, 3), true);
    }
    result
}

// The families: rules that do not meet, and copies; the same with place 3 first; the same with one copy in twelve changed; any rules and copies.
pub fn make(random: &mut u64, records: &mut [u8], family: usize) -> Automaton {
    let first = start(random);
    let n = 1 + draw(random, 60);
    let more = draw(random, 80);
    match family {
        0 => {
            let a = rules::add_some(random, records, first, n, true);
            with_copies(random, records, a, more, 0)
        }
        1 => {
            let a = with_places(random, records, first, n);
            with_copies(random, records, a, more, 0)
        }
        2 => {
            let a = with_places(random, records, first, n);
            with_copies(random, records, a, more, 12)
        }
        _ => {
            let a = rules::add_some(random, records, first, n, false);
            with_copies(random, records, a, more * 6, 0)
        }
    }
}
