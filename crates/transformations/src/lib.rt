// Document 01's case that is only run: four down states 0 to 3, their back states 4 to 7, no start state. At a left place a leaf turns a
// down state into its back state on the way up, back states go up, and the branch symbols 1, 2 and 3 change the down states on the way to
// the left. So the class of a tree is the function of four numbers that the symbols down its left make, and every function can be made.
//
// And automata with three copies of these states, which accept a tree with symbol 3 at its root if the function of its left part has three
// given values. Symbol 3 is the last in each round, and in round 5 the rows are over 64 before it: a tree is found all the same.
#![tactic(auto)]

ghost use Rattle.std.specs.Prelude.{◌≤◌};

use emptiness::{Quick, Survey};
use enumerated::plan;
use refusal::Refusal;
use sampling::access::{number, only, set_number};
use sampling::rules;
use sampling::rules::{Automaton, Rule};
use search::files;

// The answers to one automaton's file, and whether they are right.
#[derive(Clone, Copy)]
pub struct Outcome {
    pub survey: Result<Survey, Refusal>,
    pub quick: Result<Quick, Refusal>,
    pub right: bool,
}

// Down state d after a branch symbol: a cycle (1), a swap (2), a merge (3).
fn changed(symbol: usize, d: usize) -> usize {
    match symbol {
        1 => (d % 4 + 1) % 4,
        2 => {
            match d {
                0 => 1,
                1 => 0,
                _ => d % 4,
            }
        }
        _ => if d == 1 { 0 } else { d % 4 },
    }
}

// The rules of down state d of a copy, and of its back state, at a symbol.
fn add_pair(rules: &mut [u8], a: Automaton, copy: usize, symbol: usize, d: usize) -> Automaton {
    let from = copy % 3 * 8;
    let down = from + d % 4;
    let back = from + 4 + d % 4;
    let b = rules::add(rules, a, Rule::new(symbol, back, 1, 1, back));
    if symbol == 0 {
        rules::add(rules, b, Rule::new(symbol, down, 1, 1, back))
    } else {
        let next = from + changed(symbol, d) % 4;
        rules::add(rules, b, Rule::new(symbol, down, 1, 2, next))
    }
}

// The rules of all copies that the automaton has states for.
fn add_all(rules: &mut [u8], a: Automaton) -> Automaton {
    let mut result = a;
    for i in 0..48usize {
        result = add_pair(rules, result, i / 16, i / 4 % 4, i % 4);
    }
    result
}

fn make(rules: &mut [u8], copies: usize) -> Automaton {
    let first = Automaton {
        states: copies % 4 * 8,
        symbols: 4,
        rules: 0,
        initial: 0,
        accepting: 0,
        branches: 14,
    };
    add_all(rules, first)
}

// Three passes through the left part of the root, one in each copy, which have to come back with three values, digits to base 4.
fn add_passes(rules: &mut [u8], a: Automaton, values: usize) -> Automaton {
    let b = rules::add(rules, a, Rule::new(3, 0, 0, 2, 0));
    let c = rules::add(rules, b, Rule::new(3, 4 + values % 4, 0, 2, 9));
    rules::add(rules, c, Rule::new(3, 12 + values / 4 % 4, 0, 2, 18))
}

fn make_passes(rules: &mut [u8], values: usize) -> Automaton {
    let a = make(rules, 3);
    let b = add_passes(rules, a, values);
    b.with_sets(1, only(20 + values / 16 % 4))
}

// What the survey answers to an automaton's file.
fn survey(a: Automaton, rules: &[u8], buffer: &mut [u8]) -> Result<Survey, Refusal> {
    let mut file = [0u8; 1024];
    let n = files::write_automaton(&mut file, a, rules);
    emptiness::file::survey(files::front(&file, n), buffer)
}

fn quick(a: Automaton, rules: &[u8]) -> Result<Quick, Refusal> {
    let mut file = [0u8; 1024];
    let n = files::write_automaton(&mut file, a, rules);
    emptiness::file::quick(files::front(&file, n))
}

// What the survey answers to the case that is only run.
pub fn surveyed() -> Result<Survey, Refusal> {
    let mut rules = [0u8; 2560];
    let mut buffer = [0u8; 195];
    let a = make(&mut rules, 1);
    survey(a, &rules, &mut buffer)
}

// The value at d of function f, a number of four digits to base 4.
fn value(f: usize, d: usize) -> usize
    ensures { result ≤ 3 }
{
    let digits = match d {
        0 => f,
        1 => f / 4,
        2 => f / 16,
        _ => f / 64,
    };
    digits % 4
}

// Function f after the change by a branch symbol.
fn after(f: usize, symbol: usize) -> usize {
    value(f, changed(symbol, 0))
        + 4 * value(f, changed(symbol, 1))
        + 16 * value(f, changed(symbol, 2))
        + 64 * value(f, changed(symbol, 3))
}

// Reaches a function at a height, if it was not reached at a smaller one.
fn reach(heights: &mut [usize], f: usize, height: usize) {
    if number(heights, f) > height {
        set_number(heights, f, height);
    }
}

// From a function, if it has the height, to those of the next height.
fn extend(heights: &mut [usize], f: usize, height: usize) {
    let next = height % 256 + 1;
    if number(heights, f) == height {
        reach(heights, after(f, 1), next);
        reach(heights, after(f, 2), next);
        reach(heights, after(f, 3), next);
    }
}

fn extend_all(heights: &mut [usize], height: usize) {
    for f in 0..256usize {
        extend(heights, f, height);
    }
}

// The least height at which each function is made, 255 where it is none, from the identity on.
pub fn make_all(heights: &mut [usize]) {
    reach(heights, 228, 0);
    for height in 0..64usize {
        extend_all(heights, height);
    }
}

// How many functions are made up to a height.
pub fn made(heights: &[usize], height: usize) -> usize {
    let mut n: usize = 0;
    for f in 0..256usize {
        if number(heights, f) <= height {
            n = n % 4096 + 1;
        }
    }
    n
}

// The least height up to which more than 64 functions are made.
pub fn full_height(heights: &[usize]) -> usize {
    for height in 0..64usize {
        if made(heights, height) > 64 {
            return height;
        }
    }
    255
}

fn lower(a: usize, b: usize) -> usize {
    if a < b { a } else { b }
}

// The least height at which a function with three given values is made.
fn least(heights: &[usize], values: usize) -> usize {
    let f = values % 64;
    lower(
        lower(number(heights, f), number(heights, f + 64)),
        lower(number(heights, f + 128), number(heights, f + 192)),
    )
}

// Whether the survey's answer is right: a tree is found one above that height, if the rows do not end before, with one row for each function
// below and one more.
fn right(
    a: Automaton,
    rules: &[u8],
    heights: &[usize],
    values: usize,
    answer: Result<Survey, Refusal>,
    buffer: &[u8],
) -> bool {
    let below = least(heights, values);
    let full = full_height(heights);
    match answer {
        Ok(Survey::Found { height: h, rows: n }) => {
            h == below % 256 + 1
                && h <= full
                && n == made(heights, below) % 4096 + 1
                && plan::builds(a, rules, buffer, h, n)
                && plan::unchanged(buffer, n % 256 * 3, values)
        }
        Ok(Survey::Open(h)) => h == full && full <= below && plan::unchanged(buffer, 0, values),
        _ => false,
    }
}

fn is_unsure(answer: Result<Quick, Refusal>) -> bool {
    match answer {
        Ok(Quick::Unsure) => true,
        _ => false,
    }
}

fn compare(heights: &[usize], values: usize, buffer: &mut [u8]) -> Outcome {
    let mut rules = [0u8; 2560];
    let a = make_passes(&mut rules, values);
    plan::fill(buffer, values);
    let answer = survey(a, &rules, buffer);
    let beside = quick(a, &rules);
    Outcome {
        survey: answer,
        quick: beside,
        right: is_unsure(beside) && right(a, &rules, heights, values, answer, buffer),
    }
}

// The answers to the automaton of three passes. Some tree is accepted, so that the quick check must be unsure.
pub fn passes(heights: &[usize], values: usize) -> Outcome {
    let mut buffer = [0u8; 195];
    compare(heights, values, &mut buffer)
}
