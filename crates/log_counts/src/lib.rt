// What is counted of trials of two logs held together (document 02, W8). The numbers before these are the refusals, as `watch_trials` counts them. It has
// nothing of the engine.
#![tactic(auto)]

ghost use Rattle.std.specs.Prelude.{◌≤◌};

use followed::follow::Position;
use followed::limits::before;
use log_pairs::Pair;
use log_pairs::change::WAYS;
use log_runs::answer::{Held, Question};
use log_runs::entries::entry;
use sampling::access::{has, only};
use sampling::report::count;
use sampling::rules::Automaton;
use watch_trials::counts::{count_answer, count_if};

pub const COUNTS: usize = 176;

// How each log was made, 14 ways each.
pub const FIRST_WAY: usize = 112;

pub const SECOND_WAY: usize = 126;

// In full, in part, in nothing; both are empty.
pub const AGREED: usize = 140;

// A run to its end, in part, not at all; it is empty.
pub const FIRST_RUN: usize = 144;

pub const SECOND_RUN: usize = 148;

// What ends a run before the log ends: the first entry, a node or a state that there is none of, a step that there is none of.
pub const ENDED: usize = 152;

// Runs at a node of 256 or more, with a step that stays, from the root in a final state on; of more entries than W7 writes, from a start state
// that is not the lowest.
pub const HIGH: usize = 156;

pub const STAYED: usize = 157;

pub const PASSED: usize = 158;

pub const LONG: usize = 159;

pub const LATER: usize = 160;

// Pairs whose logs part where both are runs.
pub const PARTED: usize = 161;

pub const PAIRS: usize = 162;

pub const FAULTS: usize = 163;

pub const SEVERAL: usize = 164;

pub const NOT_SINGLE: usize = 165;

// 23 with place 0 and with place 1.
pub const LENGTH: usize = 166;

pub const DIFFERENT: usize = 168;

// ---- entries

// Whether entry k is one for which a log is counted.
fn is_counted(a: Automaton, log: &[u8], k: usize, at: usize) -> bool {
    let p = entry(log, k);
    match at {
        HIGH => p.node > 255,
        STAYED => k > 0 && entry(log, before(k)).node == p.node,
        _ => p.node == 0 && has(a.accepting, p.state),
    }
}

// Counts a log if one of its first n entries is.
fn count_any(counts: &mut [usize], a: Automaton, log: &[u8], n: usize, at: usize) {
    for k in 0..n {
        if is_counted(a, log, k, at) {
            count(counts, at);
            return;
        }
    }
}

// Whether a start state is lower than that of the first entry.
fn starts_later(a: Automaton, log: &[u8]) -> bool {
    let bit = only(entry(log, 0).state);
    bit > 0 && a.initial & (bit - 1) != 0
}

// Why a run ends before entry k.
fn reason(a: Automaton, size: usize, p: Position, k: usize) -> usize
    ensures { result ≤ 3 }
{
    if k == 0 {
        return 0;
    }
    if p.node >= size {
        return 1;
    }
    if p.state >= a.states { 2 } else { 3 }
}

// ---- answers

// How much of n is told.
fn extent(told: usize, n: usize) -> usize
    ensures { result ≤ 3 }
{
    if n == 0 {
        return 3;
    }
    if told == n {
        return 0;
    }
    if told > 0 { 1 } else { 2 }
}

// Counts why a log of n entries is no run to its end.
fn count_end(counts: &mut [usize], a: Automaton, size: usize, log: &[u8], n: usize, run: usize) {
    if run < n {
        count(counts, ENDED + reason(a, size, entry(log, run), run));
    }
}

// Counts what the first entries are, which are a run.
fn count_kinds(counts: &mut [usize], a: Automaton, log: &[u8], run: usize) {
    if run == 0 {
        return;
    }
    count_any(counts, a, log, run, HIGH);
    count_any(counts, a, log, run, STAYED);
    count_any(counts, a, log, before(run), PASSED);
    count_if(counts, LONG, run > 20001);
    count_if(counts, LATER, starts_later(a, log));
}

fn count_log(
    counts: &mut [usize],
    a: Automaton,
    size: usize,
    log: &[u8],
    n: usize,
    run: usize,
    from: usize,
) {
    count(counts, from % COUNTS + extent(run, n));
    count_end(counts, a, size, log, n, run);
    count_kinds(counts, a, log, run);
}

// Counts a pair that is refused.
fn count_refused(counts: &mut [usize], held: Held) {
    let refusal = held.refusal;
    count_answer(counts, 0, refusal);
    if refusal.number == 23 {
        count(counts, LENGTH + refusal.place % 2);
    }
}

// Counts what has to be answered.
pub fn count_held(
    counts: &mut [usize],
    a: Automaton,
    size: usize,
    q: Question,
    first: &[u8],
    second: &[u8],
    held: Held,
) {
    if held.refusal.number > 0 {
        count_refused(counts, held);
        return;
    }
    let n = q.first / 3;
    let m = q.second / 3;
    count(
        counts,
        AGREED + extent(held.agreed, if n < m { m } else { n }),
    );
    count_log(counts, a, size, first, n, held.first, FIRST_RUN);
    count_log(counts, a, size, second, m, held.second, SECOND_RUN);
    let both = held.agreed < held.first && held.agreed < held.second;
    count_if(counts, PARTED, both);
}

// Counts how a pair was made.
pub fn count_pair(counts: &mut [usize], a: Automaton, records: &[u8], pair: Pair, faults: u32) {
    count(counts, PAIRS);
    count(counts, FIRST_WAY + pair.first_way % WAYS);
    count(counts, SECOND_WAY + pair.second_way % WAYS);
    count_if(counts, FAULTS, faults > 0);
    count_if(counts, SEVERAL, watch_faults::several(faults));
    count_if(counts, NOT_SINGLE, !repeats::is_single(records, a));
}
