// Logs of walks by any records that apply (document 02, W8). It has nothing of the engine.
#![tactic(auto)]

use followed::follow::{Position, moved, put};
use followed::limits::before;
use log_runs::entries::{MOST, applies, entry, has_place, has_state, has_symbol};
use sampling::access::{has, modulo};
use sampling::random::{chance, draw};
use sampling::rules;
use sampling::rules::Automaton;

// The most entries of a walk, and the room for a log of some more.
const LONGEST: usize = 22000;

pub const ROOM: usize = 66048;

// The conditions of a record, of which a wrong step ignores one: its symbol (0), its state (1), its place (2).
const CONDITIONS: usize = 3;

// A right step ignores none.
const NONE: usize = 3;

// How many entries a walk may have: mostly few, sometimes more than W7 writes.
pub fn length(random: &mut u64) -> usize {
    if chance(random, 1, 40) {
        return 20001 + draw(random, 1500);
    }
    match draw(random, 16) {
        0 => draw(random, 3),
        1..=8 => draw(random, 40),
        9..=12 => draw(random, 400),
        _ => draw(random, 4000),
    }
}

// A start state by chance, or any state where there is none.
fn start_state(random: &mut u64, a: Automaton) -> usize {
    let first = draw(random, a.states);
    for i in 0..32usize {
        let state = modulo(first % 32 + i, a.states);
        if has(a.initial, state) {
            return state;
        }
    }
    first
}

// The root in a start state or, where something is ignored, in any state, or another node.
fn first_entry(random: &mut u64, a: Automaton, ignored: usize) -> Position {
    match ignored {
        NONE => {
            Position {
                node: 0,
                state: start_state(random, a),
            }
        }
        1 => {
            Position {
                node: 0,
                state: draw(random, a.states),
            }
        }
        _ => {
            Position {
                node: 1 + draw(random, 2),
                state: start_state(random, a),
            }
        }
    }
}

// Whether a record applies, but for the condition that is ignored.
fn applies_but(
    records: &[u8],
    record: usize,
    nodes: &[usize],
    p: Position,
    ignored: usize,
) -> bool {
    match ignored {
        0 => has_state(records, record, p) && has_place(records, record, nodes, p),
        1 => has_symbol(records, record, nodes, p) && has_place(records, record, nodes, p),
        2 => has_state(records, record, p) && has_symbol(records, record, nodes, p),
        _ => applies(records, record, nodes, p),
    }
}

// The first such record, from one by chance on, or the number of records.
fn any_record(
    random: &mut u64,
    a: Automaton,
    records: &[u8],
    nodes: &[usize],
    p: Position,
    ignored: usize,
) -> usize {
    let first = draw(random, a.rules);
    for i in 0..a.rules {
        let record = modulo(first % rules::MOST + i % rules::MOST, a.rules);
        if applies_but(records, record, nodes, p, ignored) {
            return record;
        }
    }
    a.rules
}

// Writes entry k, the first or by a step from the one before it; whether there is such a step.
fn step_on(
    random: &mut u64,
    a: Automaton,
    records: &[u8],
    nodes: &[usize],
    log: &mut [u8],
    k: usize,
    ignored: usize,
) -> bool {
    if k == 0 {
        put(log, 0, first_entry(random, a, ignored));
        return true;
    }
    let p = entry(log, before(k));
    let record = any_record(random, a, records, nodes, p, ignored);
    if record < a.rules {
        put(log, k, moved(records, record, nodes, p));
        true
    } else {
        false
    }
}

// Writes entries behind the first so many, until there are n or no step is left; how many there are then.
pub fn walk_on(
    random: &mut u64,
    a: Automaton,
    records: &[u8],
    nodes: &[usize],
    log: &mut [u8],
    from: usize,
    n: usize,
) -> usize {
    for k in from..n {
        if !step_on(random, a, records, nodes, log, k, NONE) {
            return k;
        }
    }
    n
}

// A wrong step behind the first k entries, if so said; how many there are then.
fn slip(
    random: &mut u64,
    a: Automaton,
    records: &[u8],
    nodes: &[usize],
    log: &mut [u8],
    k: usize,
    wrong: bool,
) -> usize {
    if !wrong {
        return k;
    }
    let ignored = draw(random, CONDITIONS);
    if step_on(random, a, records, nodes, log, k, ignored) {
        k % MOST + 1
    } else {
        k
    }
}

// Writes entries behind the first k, with a wrong step first if so said; how many there are then.
pub fn extend(
    random: &mut u64,
    a: Automaton,
    records: &[u8],
    nodes: &[usize],
    log: &mut [u8],
    k: usize,
    wrong: bool,
) -> usize {
    let from = slip(random, a, records, nodes, log, k, wrong);
    let more = from % MOST + 1 + length(random) % MOST;
    let n = if more < LONGEST { more } else { LONGEST };
    walk_on(random, a, records, nodes, log, from, n)
}
