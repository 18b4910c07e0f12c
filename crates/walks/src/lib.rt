// Automata by chance for which a run is worth following (document 02, W7): single, with one start state. In some of them records say a rule more than
// once. It has nothing of the engine.
#![tactic(auto)]

use generated::families;
use sampling::access::only;
use sampling::random::{chance, draw, subset};
use sampling::rules;
use sampling::rules::{Automaton, Rule};
use search::trees;

// Few rules or many, none made for the tree.
const BY_CHANCE: usize = 0;

// Made along a walk through the tree.
const ALONG: usize = 1;

// Depth first through the whole tree, or so again and again.
pub const FAMILIES: usize = 4;

// Their numbers among the families of `generated`.
const DETERMINISTIC: usize = 0;

const COUNTING: usize = 5;

// An automaton of the family with no rule yet and no start or final state.
pub fn start(random: &mut u64, family: usize) -> Automaton {
    families::start(
        random,
        if family > ALONG {
            COUNTING
        } else {
            DETERMINISTIC
        },
    )
}

// ---- families

fn by_chance(random: &mut u64, records: &mut [u8], a: Automaton) -> Automaton {
    let n = match draw(random, 3) {
        0 => draw(random, 6),
        1 => draw(random, 60),
        _ => 100 + draw(random, 400),
    };
    let made = rules::add_some(random, records, a, n, true);
    let initial = only(draw(random, a.states));
    if chance(random, 3, 4) {
        made.with_sets(initial, only(rules::goal(a)))
    } else {
        made.with_sets(initial, subset(random, a.states))
    }
}

// With the lowest of its start states alone.
fn along(random: &mut u64, nodes: &[usize], records: &mut [u8], a: Automaton) -> Automaton {
    let made = families::make(random, nodes, records, a, DETERMINISTIC);
    let set = made.initial;
    let lowest = if set == 0 { 1 } else { set ^ (set & (set - 1)) };
    made.with_sets(lowest, made.accepting)
}

// From each state at the root in which the whole tree was gone through, into the tree again: with the same count or any.
fn with_returns(
    random: &mut u64,
    records: &mut [u8],
    a: Automaton,
    symbol: usize,
    any: bool,
) -> Automaton {
    let period = a.states % 32 / 3;
    let mut result = a;
    for count in 0..period {
        let step = draw(random, 4);
        let next = if any { draw(random, period) } else { count };
        let rule = Rule::new(symbol, 2 * period + count, 0, step, next);
        result = rules::add_by(records, result, rule, true);
    }
    result
}

fn returning(random: &mut u64, nodes: &[usize], records: &mut [u8], a: Automaton) -> Automaton {
    let made = families::make(random, nodes, records, a, COUNTING);
    let any = chance(random, 1, 2);
    let symbol = trees::get(nodes, 0, trees::SYMBOL);
    let full = with_returns(random, records, made, symbol, any);
    if chance(random, 1, 2) {
        full.with_sets(1, 0)
    } else {
        full
    }
}

fn of_family(
    random: &mut u64,
    nodes: &[usize],
    records: &mut [u8],
    a: Automaton,
    family: usize,
) -> Automaton {
    match family {
        BY_CHANCE => by_chance(random, records, a),
        ALONG => along(random, nodes, records, a),
        2 => families::make(random, nodes, records, a, COUNTING),
        _ => returning(random, nodes, records, a),
    }
}

// ---- repeated records

pub fn record(records: &[u8], i: usize) -> Rule {
    Rule::new(
        rules::get(records, i, rules::SYMBOL),
        rules::get(records, i, rules::STATE),
        rules::get(records, i, rules::PLACE),
        rules::get(records, i, rules::MOVE),
        rules::get(records, i, rules::NEXT),
    )
}

fn swap(records: &mut [u8], i: usize, j: usize) {
    for field in 0..5usize {
        let kept = rules::get(records, i, field);
        rules::set(records, i, field, rules::get(records, j, field));
        rules::set(records, j, field, kept);
    }
}

// With a record more, where there is room; then the last one and any other change places.
pub fn add_anywhere(random: &mut u64, records: &mut [u8], a: Automaton, rule: Rule) -> Automaton {
    let b = rules::add(records, a, rule);
    swap(records, draw(random, b.rules), a.rules);
    b
}

// With a record more that says what one says that is there, of place 3 mostly at one of its places.
fn add_copy(random: &mut u64, records: &mut [u8], a: Automaton) -> Automaton {
    let rule = record(records, draw(random, a.rules));
    let place = if rule.place == 3 && chance(random, 3, 4) {
        draw(random, 3)
    } else {
        rule.place
    };
    let copy = Rule::new(rule.symbol, rule.state, place, rule.step, rule.next);
    add_anywhere(random, records, a, copy)
}

fn with_copies(random: &mut u64, records: &mut [u8], a: Automaton, n: usize) -> Automaton {
    let mut result = a;
    for _ in 0..n {
        result = add_copy(random, records, result);
    }
    result
}

// The rules and sets of an automaton of the family, for a tree.
pub fn make(
    random: &mut u64,
    nodes: &[usize],
    records: &mut [u8],
    a: Automaton,
    family: usize,
) -> Automaton {
    let made = of_family(random, nodes, records, a, family);
    if made.rules > 0 && chance(random, 1, 3) {
        let n = 1 + draw(random, 60);
        with_copies(random, records, made, n)
    } else {
        made
    }
}
