// What is wrong with an input when a run is watched (document 02, W7): one thing at least, often more. It has nothing of the engine.
#![tactic(auto)]

use damaged::Damaged;
use followed::follow::{configurations, follow};
use followed::limits;
use sampling::access::{has, modulo, only};
use sampling::random::{chance, draw, subset};
use sampling::rules;
use sampling::rules::{Automaton, Rule};
use search::files;

// A set of faults has the numbers of these: the automaton's file, the tree's, two rules that contradict each other, no start state or several, the
// budget, the log's length.
const AUTOMATON_FILE: usize = 0;

const TREE_FILE: usize = 1;

const RULES: usize = 2;

const START: usize = 3;

const BUDGET: usize = 4;

const LOG: usize = 5;

// Whether rules of an automaton can be made to contradict each other.
fn has_rules(a: Automaton) -> bool {
    a.states > 1 && a.rules > 0 && a.rules < rules::MOST
}

// A set of faults.
fn choose(random: &mut u64, a: Automaton) -> u32 {
    let drawn = draw(random, 6);
    let first = if drawn == RULES && !has_rules(a) {
        START
    } else {
        drawn
    };
    if chance(random, 1, 3) {
        only(first) | subset(random, 6)
    } else {
        only(first)
    }
}

// The faults of pair k: every second one has some.
pub fn of_pair(random: &mut u64, k: usize, a: Automaton) -> u32 {
    if k % 2 == 0 { 0 } else { choose(random, a) }
}

// Whether there is more than one.
pub fn several(faults: u32) -> bool {
    faults > 0 && faults & (faults - 1) != 0
}

// ---- automata

// The place of a rule that meets one of a place.
fn meeting(random: &mut u64, place: usize, step: usize) -> usize {
    if step != 1 && chance(random, 1, 3) {
        return 3;
    }
    if place == 3 { draw(random, 3) } else { place }
}

// A rule that contradicts the one given: it stays, or has another next state.
fn other_rule(random: &mut u64, a: Automaton, rule: Rule) -> Rule {
    let further = rule.next % 32 + 1 + draw(random, rules::goal(a) % 32);
    if rule.step != 0 && chance(random, 1, 4) {
        let place = meeting(random, rule.place, 0);
        Rule::new(rule.symbol, rule.state, place, 0, rule.next)
    } else {
        let place = meeting(random, rule.place, rule.step);
        let next = modulo(further, a.states);
        Rule::new(rule.symbol, rule.state, place, rule.step, next)
    }
}

// With a rule that contradicts another, where that can be.
fn with_rule(random: &mut u64, records: &mut [u8], a: Automaton) -> Automaton {
    if !has_rules(a) {
        return a;
    }
    let rule = walks::record(records, draw(random, a.rules));
    let other = other_rule(random, a, rule);
    walks::add_anywhere(random, records, a, other)
}

// No state, or some states but not one.
fn wrong_start(random: &mut u64, a: Automaton) -> u32 {
    let set = subset(random, a.states);
    if set == 0 || chance(random, 1, 4) {
        return 0;
    }
    if set & (set - 1) == 0 { 0 } else { set }
}

// The automaton with the fault in its start states.
pub fn with_start(random: &mut u64, a: Automaton, faults: u32) -> Automaton {
    if has(faults, START) {
        a.with_sets(wrong_start(random, a), a.accepting)
    } else {
        a
    }
}

// With the fault in its rules.
pub fn with_rules(random: &mut u64, records: &mut [u8], a: Automaton, faults: u32) -> Automaton {
    if has(faults, RULES) {
        with_rule(random, records, a)
    } else {
        a
    }
}

// ---- files, budgets and logs

// Writes the automaton's file to a buffer that was all zero.
pub fn automaton_file(
    random: &mut u64,
    a: Automaton,
    records: &mut [u8],
    file: &mut [u8],
    faults: u32,
) -> Damaged {
    if has(faults, AUTOMATON_FILE) {
        damaged::make(random, a, records, file)
    } else {
        damaged_trees::refused(files::write_automaton(file, a, records), 0, 0)
    }
}

// Writes the tree's file to a buffer that was all zero.
pub fn tree_file(
    random: &mut u64,
    a: Automaton,
    nodes: &[usize],
    size: usize,
    file: &mut [u8],
    faults: u32,
) -> Damaged {
    if has(faults, TREE_FILE) {
        damaged_trees::make(random, a, nodes, size, file)
    } else {
        damaged_trees::refused(damaged_trees::write(file, nodes, size), 0, 0)
    }
}

// A budget, by the configurations and by the steps of the run with the largest one.
pub fn budget(
    random: &mut u64,
    a: Automaton,
    records: &[u8],
    nodes: &[usize],
    size: usize,
    faults: u32,
) -> usize {
    let mut log = [0u8; 3];
    let full = configurations(a, size);
    let ending = follow(a, records, nodes, size, limits::MOST, &mut log);
    if has(faults, BUDGET) {
        limits::excess(random, full)
    } else {
        limits::budget(random, full, ending.steps)
    }
}

pub fn room(random: &mut u64, budget: usize, faults: u32) -> usize {
    if has(faults, LOG) {
        limits::short_room(random, budget)
    } else {
        limits::room(random, budget)
    }
}
