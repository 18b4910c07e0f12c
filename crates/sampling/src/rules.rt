// The automaton of a pair, with its rules in an array of five bytes a rule.
use crate::access::{byte, has, set_byte};
use crate::random::{chance, draw};

pub const SYMBOL: usize = 0;

pub const STATE: usize = 1;

// 0 root, 1 left child, 2 right child, 3 all three.
pub const PLACE: usize = 2;

// 0 stay, 1 up, 2 to the left child, 3 to the right child.
pub const MOVE: usize = 3;

pub const NEXT: usize = 4;

// The most rules of an automaton.
pub const MOST: usize = 512;

// Its counts and sets; its rules stand in the array.
#[derive(Clone, Copy)]
pub struct Automaton {
    pub states: usize,
    pub symbols: usize,
    pub rules: usize,
    pub initial: u32,
    pub accepting: u32,
    pub branches: u32,
}

// The rule's step is its move.
#[derive(Clone, Copy)]
pub struct Rule {
    pub symbol: usize,
    pub state: usize,
    pub place: usize,
    pub step: usize,
    pub next: usize,
}

impl Rule {
    pub fn new(symbol: usize, state: usize, place: usize, step: usize, next: usize) -> Rule {
        Rule {
            symbol,
            state,
            place,
            step,
            next,
        }
    }
}

impl Automaton {
    pub fn with_sets(self, initial: u32, accepting: u32) -> Automaton {
        Automaton {
            states: self.states,
            symbols: self.symbols,
            rules: self.rules,
            initial,
            accepting,
            branches: self.branches,
        }
    }
}

pub fn get(rules: &[u8], rule: usize, field: usize) -> usize {
    byte(rules, rule % MOST * 5 + field % 8)
}

pub fn set(rules: &mut [u8], rule: usize, field: usize, value: usize) {
    set_byte(rules, rule % MOST * 5 + field % 8, value);
}

// Whether a rule has symbols and states that the automaton has, and a place and a move that there are.
fn in_range(a: Automaton, rule: Rule) -> bool {
    rule.symbol < a.symbols
        && rule.state < a.states
        && rule.next < a.states
        && rule.place < 4
        && rule.step < 4
}

// No move down at a leaf symbol, no move up with place 0 or 3.
fn legal(a: Automaton, rule: Rule) -> bool {
    let step = rule.step;
    match step {
        0 => true,
        1 => rule.place == 1 || rule.place == 2,
        _ => has(a.branches, rule.symbol),
    }
}

// The automaton with one rule more, where the rule is legal and there is room.
pub fn add(rules: &mut [u8], a: Automaton, rule: Rule) -> Automaton {
    let at = a.rules;
    if at >= MOST || !in_range(a, rule) || !legal(a, rule) {
        return a;
    }
    set(rules, at, SYMBOL, rule.symbol);
    set(rules, at, STATE, rule.state);
    set(rules, at, PLACE, rule.place);
    set(rules, at, MOVE, rule.step);
    set(rules, at, NEXT, rule.next);
    Automaton {
        states: a.states,
        symbols: a.symbols,
        rules: at + 1,
        initial: a.initial,
        accepting: a.accepting,
        branches: a.branches,
    }
}

// Whether two places have a node in common.
fn places_meet(p: usize, q: usize) -> bool {
    p == q || p == 3 || q == 3
}

// The first rule that meets the symbol, state and place of the one given, or the number of rules.
pub fn find(rules: &[u8], a: Automaton, rule: Rule) -> usize {
    let count = a.rules;
    for i in 0..count {
        if get(rules, i, STATE) == rule.state
            && get(rules, i, SYMBOL) == rule.symbol
            && places_meet(get(rules, i, PLACE), rule.place)
        {
            return i;
        }
    }
    count
}

// The same; if single, only where no rule meets it, so that the automaton stays deterministic.
pub fn add_by(rules: &mut [u8], a: Automaton, rule: Rule, single: bool) -> Automaton {
    if single && find(rules, a, rule) < a.rules {
        a
    } else {
        add(rules, a, rule)
    }
}

// The last state, which is to be final.
pub fn goal(a: Automaton) -> usize {
    if a.states > 0 { a.states - 1 } else { 0 }
}

// A state other than the goal, where there is one.
pub fn other_state(random: &mut u64, a: Automaton) -> usize {
    draw(random, goal(a))
}

// A move that is legal at the symbol and place.
fn legal_move(random: &mut u64, a: Automaton, symbol: usize, place: usize) -> usize {
    let branch = has(a.branches, symbol);
    let inner = place == 1 || place == 2;
    let step = draw(random, 4);
    if step == 1 && !inner || step > 1 && !branch {
        if branch {
            2 + draw(random, 2)
        } else if inner {
            1
        } else {
            0
        }
    } else {
        step
    }
}

// A rule by chance.
pub fn by_chance(random: &mut u64, a: Automaton) -> Rule {
    let symbol = draw(random, a.symbols);
    let state = draw(random, a.states);
    let place = draw(random, 4);
    let step = legal_move(random, a, symbol, place);
    let next = if chance(random, 1, 24) {
        draw(random, a.states)
    } else {
        other_state(random, a)
    };
    Rule::new(symbol, state, place, step, next)
}

// The automaton with at most n rules by chance more.
pub fn add_some(
    random: &mut u64,
    rules: &mut [u8],
    a: Automaton,
    n: usize,
    single: bool,
) -> Automaton {
    let mut result = a;
    for _ in 0..n {
        let rule = by_chance(random, a);
        result = add_by(rules, result, rule, single);
    }
    result
}

// Gives one rule another next state, in one of n calls.
pub fn disturb(random: &mut u64, rules: &mut [u8], a: Automaton, n: usize) {
    if a.rules > 0 && chance(random, 1, n) {
        let rule = draw(random, a.rules);
        let next = draw(random, a.states);
        set(rules, rule, NEXT, next);
    }
}
