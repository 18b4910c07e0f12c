// Families of automata by chance.
use crate::guided::{Style, along_walk};
use sampling::access::{modulo, only};
use sampling::counting::counting;
use sampling::random::{chance, draw, subset};
use sampling::rules;
use sampling::rules::{Automaton, Rule};
use sampling::sided::sided;

// At most one rule for each symbol, state and place.
const DETERMINISTIC: usize = 0;

// Any rules.
const NONDETERMINISTIC: usize = 1;

// Rules for all places, but for moves up.
const ALL_PLACES: usize = 2;

// Stays, and moves down and up, that go round.
const CIRCLING: usize = 3;

// What happens on the way up depends on the side.
const SIDED: usize = 4;

// Depth first through the whole tree.
const COUNTING: usize = 5;

// Up to 512 rules, most files of several blocks.
const MANY_RULES: usize = 6;

// The last family has few rules or none.
pub const FAMILIES: usize = 8;

// What a family is called.
pub fn name(family: usize) -> &'static [u8] {
    match family {
        0 => b"deterministic",
        1 => b"nondeterministic",
        2 => b"all places",
        3 => b"circling",
        4 => b"sided",
        5 => b"counting",
        6 => b"many rules",
        _ => b"few rules",
    }
}

// The number of states.
fn states_of(random: &mut u64, family: usize) -> usize {
    match family {
        SIDED => 2 + draw(random, 7),
        COUNTING => 3 * (1 + draw(random, 8)),
        MANY_RULES => 8 + draw(random, 17),
        _ => {
            if chance(random, 3, 4) {
                2 + draw(random, 5)
            } else {
                1 + draw(random, 24)
            }
        }
    }
}

// The number of symbols.
fn symbols_of(random: &mut u64, family: usize) -> usize {
    match family {
        SIDED => 2 + draw(random, 7),
        COUNTING => 2 + draw(random, 9),
        MANY_RULES => 4 + draw(random, 29),
        _ => {
            if chance(random, 3, 4) {
                2 + draw(random, 4)
            } else {
                1 + draw(random, 32)
            }
        }
    }
}

// A set of branch symbols that leaves out one symbol at least, and mostly has one.
pub fn branches_of(random: &mut u64, symbols: usize) -> u32 {
    let leaf = draw(random, symbols);
    let most = subset(random, symbols) & (4294967295 ^ only(leaf));
    if symbols > 1 && chance(random, 31, 32) {
        most | only(modulo(leaf % 32 + 1, symbols))
    } else {
        most
    }
}

// An automaton of the family with no rule yet and no start or final state.
pub fn start(random: &mut u64, family: usize) -> Automaton {
    let states = states_of(random, family);
    let symbols = symbols_of(random, family);
    let branches = branches_of(random, symbols);
    Automaton {
        states,
        symbols,
        rules: 0,
        initial: 0,
        accepting: 0,
        branches,
    }
}

// Two states that change into each other in place.
fn add_stays(
    rules: &mut [u8],
    a: Automaton,
    symbol: usize,
    state: usize,
    next: usize,
) -> Automaton {
    let b = rules::add(rules, a, Rule::new(symbol, state, 3, 0, next));
    rules::add(rules, b, Rule::new(symbol, next, 3, 0, state))
}

// Two states that go down and up for ever; and two, maybe others, that change into each other in place.
fn add_circle(random: &mut u64, rules: &mut [u8], a: Automaton) -> Automaton {
    let symbol = draw(random, a.symbols);
    let below = draw(random, a.symbols);
    let state = rules::other_state(random, a);
    let next = rules::other_state(random, a);
    let side = 1 + draw(random, 2);
    let b = rules::add(rules, a, Rule::new(symbol, state, 3, side + 1, next));
    let c = rules::add(rules, b, Rule::new(below, next, side, 1, state));
    add_stays(rules, c, below, next, rules::other_state(random, a))
}

fn add_circles(random: &mut u64, rules: &mut [u8], a: Automaton, n: usize) -> Automaton {
    let mut result = a;
    for _ in 0..n {
        result = add_circle(random, rules, result);
    }
    result
}

fn circling(random: &mut u64, nodes: &[usize], rules: &mut [u8], a: Automaton) -> Automaton {
    let steps = 1 + draw(random, 20);
    let more = draw(random, 6);
    let circles = 1 + draw(random, 6);
    let style = Style::new(false, 3);
    let made = along_walk(random, nodes, rules, a, style, steps, more);
    add_circles(random, rules, made, circles)
}

fn many(random: &mut u64, nodes: &[usize], rules: &mut [u8], a: Automaton) -> Automaton {
    let steps = 90 + draw(random, 60);
    let more = draw(random, 430);
    let style = Style::new(chance(random, 1, 4), 2);
    along_walk(random, nodes, rules, a, style, steps, more)
}

fn few(random: &mut u64, nodes: &[usize], rules: &mut [u8], a: Automaton) -> Automaton {
    let steps = draw(random, 5);
    let more = draw(random, 4);
    let style = Style::new(false, 2);
    let made = along_walk(random, nodes, rules, a, style, steps, more);
    if chance(random, 1, 2) {
        made
    } else {
        let initial = subset(random, a.states);
        let accepting = subset(random, a.states);
        made.with_sets(initial, accepting)
    }
}

// Two to fifty steps of a walk and up to as many rules by chance.
fn usual(
    random: &mut u64,
    nodes: &[usize],
    rules: &mut [u8],
    a: Automaton,
    style: Style,
) -> Automaton {
    let steps = 2 + draw(random, 48);
    let more = draw(random, 30);
    along_walk(random, nodes, rules, a, style, steps, more)
}

// The rules and sets of an automaton of the family.
pub fn make(
    random: &mut u64,
    nodes: &[usize],
    rules: &mut [u8],
    a: Automaton,
    family: usize,
) -> Automaton {
    match family {
        DETERMINISTIC => usual(random, nodes, rules, a, Style::new(true, 1)),
        NONDETERMINISTIC => usual(random, nodes, rules, a, Style::new(false, 1)),
        ALL_PLACES => usual(random, nodes, rules, a, Style::new(false, 8)),
        CIRCLING => circling(random, nodes, rules, a),
        SIDED => sided(random, rules, a),
        COUNTING => counting(random, rules, a),
        MANY_RULES => many(random, nodes, rules, a),
        _ => few(random, nodes, rules, a),
    }
}
