// The run of a single automaton with one start state, and its log.
use sampling::access::{has, set_byte};
use sampling::rules;
use sampling::rules::{Automaton, Rule};
use search::trees::{LEFT, PARENT, RIGHT, SIDE, SYMBOL};

pub const PASSED: usize = 0;

pub const STUCK: usize = 1;

pub const CIRCLING: usize = 2;

pub const SPENT: usize = 3;

const GOES_ON: usize = 4;

// How a run ended, and after how many steps.
#[derive(Clone, Copy)]
pub struct Ending {
    pub kind: usize,
    pub steps: usize,
}

#[derive(Clone, Copy, PartialEq, Eq)]
pub struct Position {
    pub node: usize,
    pub state: usize,
}

// Nodes times states, by adding the nodes for each state.
pub fn configurations(a: Automaton, size: usize) -> usize {
    let mut sum: usize = 0;
    for _ in 0..a.states {
        sum = sum % 1048576 + size % 8192;
    }
    sum
}

// The lowest state of a set, or 0.
fn lowest(set: u32) -> usize {
    for state in 0..32usize {
        if has(set, state) {
            return state;
        }
    }
    0
}

// The first record that applies, or the number of records.
fn record_at(a: Automaton, records: &[u8], nodes: &[usize], p: Position) -> usize {
    let symbol = large_trees::get(nodes, p.node, SYMBOL);
    let place = large_trees::get(nodes, p.node, SIDE);
    rules::find(records, a, Rule::new(symbol, p.state, place, 0, 0))
}

// What is told before the next step, if there is none.
fn ending_at(
    a: Automaton,
    p: Position,
    record: usize,
    steps: usize,
    full: usize,
    budget: usize,
) -> usize {
    if p.node == 0 && has(a.accepting, p.state) {
        return PASSED;
    }
    if record == a.rules {
        return STUCK;
    }
    if steps == full {
        return CIRCLING;
    }
    if steps == budget { SPENT } else { GOES_ON }
}

// Three bytes: the node, low byte first, then the state.
pub fn put(log: &mut [u8], steps: usize, p: Position) {
    let at = steps % 32768 * 3;
    set_byte(log, at, p.node);
    set_byte(log, at + 1, p.node / 256);
    set_byte(log, at + 2, p.state);
}

fn target(nodes: &[usize], node: usize, step: usize) -> usize {
    match step {
        0 => node,
        1 => large_trees::get(nodes, node, PARENT),
        2 => large_trees::get(nodes, node, LEFT),
        _ => large_trees::get(nodes, node, RIGHT),
    }
}

// Where the step by a record leads.
pub fn moved(records: &[u8], record: usize, nodes: &[usize], p: Position) -> Position {
    let step = rules::get(records, record, rules::MOVE);
    let state = rules::get(records, record, rules::NEXT);
    let node = target(nodes, p.node, step);
    Position { node, state }
}

// The run with a budget of at most 20,000. Its entries are written to the log as far as there is room.
pub fn follow(
    a: Automaton,
    records: &[u8],
    nodes: &[usize],
    size: usize,
    budget: usize,
    log: &mut [u8],
) -> Ending {
    let full = configurations(a, size);
    let mut p = Position {
        node: 0,
        state: lowest(a.initial),
    };
    for steps in 0..20001usize {
        put(log, steps, p);
        let record = record_at(a, records, nodes, p);
        let kind = ending_at(a, p, record, steps, full, budget);
        if kind < GOES_ON {
            return Ending { kind, steps };
        }
        p = moved(records, record, nodes, p);
    }
    Ending {
        kind: GOES_ON,
        steps: 20001,
    }
}
