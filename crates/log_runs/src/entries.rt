// The entries of a log, which of them are a run, the lawful walk of document 02, and in which two logs agree.
use followed::follow::{Position, moved};
use sampling::access::{byte, has};
use sampling::rules;
use sampling::rules::Automaton;
use search::trees;

// The most entries of a log here.
pub const MOST: usize = 32768;

// The entry of that number: the node, low byte first, then the state.
pub fn entry(log: &[u8], k: usize) -> Position {
    let at = k % MOST * 3;
    let low = byte(log, at);
    let high = byte(log, at + 1);
    Position {
        node: low + 256 * high,
        state: byte(log, at + 2),
    }
}

// ---- records

pub fn has_symbol(records: &[u8], record: usize, nodes: &[usize], p: Position) -> bool {
    rules::get(records, record, rules::SYMBOL) == large_trees::get(nodes, p.node, trees::SYMBOL)
}

pub fn has_state(records: &[u8], record: usize, p: Position) -> bool {
    rules::get(records, record, rules::STATE) == p.state
}

pub fn has_place(records: &[u8], record: usize, nodes: &[usize], p: Position) -> bool {
    let place = rules::get(records, record, rules::PLACE);
    place == 3 || place == large_trees::get(nodes, p.node, trees::SIDE)
}

// Whether a record applies at a position of the tree.
pub fn applies(records: &[u8], record: usize, nodes: &[usize], p: Position) -> bool {
    has_state(records, record, p)
        && has_symbol(records, record, nodes, p)
        && has_place(records, record, nodes, p)
}

// Whether the step by a record leads from one position to another.
fn leads(records: &[u8], record: usize, nodes: &[usize], p: Position, q: Position) -> bool {
    applies(records, record, nodes, p) && moved(records, record, nodes, p) == q
}

// Whether that by any record does.
fn reached(a: Automaton, records: &[u8], nodes: &[usize], p: Position, q: Position) -> bool {
    for record in 0..a.rules {
        if leads(records, record, nodes, p, q) {
            return true;
        }
    }
    false
}

// ---- logs

// Whether an entry goes on with a run, the ones before it being one.
fn goes_on(a: Automaton, records: &[u8], nodes: &[usize], log: &[u8], k: usize) -> bool {
    let q = entry(log, k);
    if k == 0 {
        q.node == 0 && has(a.initial, q.state)
    } else {
        reached(a, records, nodes, entry(log, k - 1), q)
    }
}

// How many of the first n entries are a run from the root in a start state.
pub fn run_length(a: Automaton, records: &[u8], nodes: &[usize], log: &[u8], n: usize) -> usize {
    for k in 0..n {
        if !goes_on(a, records, nodes, log, k) {
            return k;
        }
    }
    n
}

// In how many of their first n entries two logs agree.
pub fn agreed(first: &[u8], second: &[u8], n: usize) -> usize {
    for k in 0..n {
        if entry(first, k) != entry(second, k) {
            return k;
        }
    }
    n
}
