// Automata by chance with about 512 rules once place 3 is spread, and some with far more.
use sampling::access::has;
use sampling::random::{chance, draw, subset};
use sampling::rules;
use sampling::rules::{Automaton, Rule};

// With no rule yet, and with so many states and symbols that few rules by chance are equal.
fn start(random: &mut u64) -> Automaton {
    let states = 12 + draw(random, 13);
    let symbols = 16 + draw(random, 17);
    Automaton {
        states,
        symbols,
        rules: 0,
        initial: subset(random, states),
        accepting: subset(random, states),
        branches: subset(random, symbols),
    }
}

// A move that is legal at each place of the symbol: stay or, at a branch, down.
fn anywhere(random: &mut u64, a: Automaton, symbol: usize) -> usize {
    let step = draw(random, 3);
    if step == 0 || !has(a.branches, symbol) {
        0
    } else {
        step + 1
    }
}

// The automaton with n records of place 3 more.
fn with_places(random: &mut u64, records: &mut [u8], a: Automaton, n: usize) -> Automaton {
    let mut result = a;
    for _ in 0..n {
        let symbol = draw(random, a.symbols);
        let step = anywhere(random, a, symbol);
        let state = draw(random, a.states);
        let rule = Rule::new(symbol, state, 3, step, draw(random, a.states));
        result = rules::add(records, result, rule);
    }
    result
}

// How many of them: 170 and two rules more make 512.
fn places(random: &mut u64) -> usize {
    if chance(random, 2, 3) {
        160 + draw(random, 12)
    } else {
        172 + draw(random, 340)
    }
}

// A record that is there, at one of its places.
fn copy(random: &mut u64, records: &[u8], a: Automaton) -> Rule {
    let i = draw(random, a.rules);
    let place = rules::get(records, i, rules::PLACE);
    Rule::new(
        rules::get(records, i, rules::SYMBOL),
        rules::get(records, i, rules::STATE),
        if place < 3 { place } else { draw(random, 3) },
        rules::get(records, i, rules::MOVE),
        rules::get(records, i, rules::NEXT),
    )
}

// The automaton with n copies more.
fn with_copies(random: &mut u64, records: &mut [u8], a: Automaton, n: usize) -> Automaton {
    let mut result = a;
    for _ in 0..n {
        let rule = copy(random, records, result);
        result = rules::add(records, result, rule);
    }
    result
}

// Records of place 3, then rules of any place, then copies.
pub fn make(random: &mut u64, records: &mut [u8]) -> Automaton {
    let first = start(random);
    let n = places(random);
    let a = with_places(random, records, first, n);
    let more = draw(random, 24);
    let b = rules::add_some(random, records, a, more, false);
    let copies = draw(random, 60);
    with_copies(random, records, b, copies)
}
