// Automata whose rules are made along a walk through the tree, so that runs go somewhere.
use sampling::access::only;
use sampling::random::{chance, draw, subset};
use sampling::rules;
use sampling::rules::{Automaton, Rule};
use search::trees;
use search::walk::target;

// How rules are made along a walk: at most one for each symbol, state and place; place 3 in so many of eight.
#[derive(Clone, Copy)]
pub struct Style {
    pub single: bool,
    pub all_places: usize,
}

impl Style {
    pub fn new(single: bool, all_places: usize) -> Style {
        Style { single, all_places }
    }
}

// A walk through the tree from the root, along which rules are made, and the greatest depth that it came to. It is over in the last state,
// the goal.
#[derive(Clone, Copy)]
struct Walk {
    node: usize,
    state: usize,
    deepest: usize,
    automaton: Automaton,
}

// A move that can be made from the node.
fn move_from(random: &mut u64, nodes: &[usize], node: usize) -> usize {
    let inner = node != 0;
    if chance(random, 1, 8) {
        return 0;
    }
    if trees::get(nodes, node, trees::BRANCH) == 1 {
        if inner && chance(random, 3, 8) {
            1
        } else {
            2 + draw(random, 2)
        }
    } else if inner {
        1
    } else {
        0
    }
}

// The next state of a rule: a move up to the root may lead to the goal, the more likely the deeper the walk was; any other does not.
fn next_of(random: &mut u64, nodes: &[usize], w: Walk, step: usize) -> usize {
    let a = w.automaton;
    if step == 1 && target(nodes, w.node, 1) == 0 && chance(random, w.deepest, 4) {
        rules::goal(a)
    } else {
        rules::other_state(random, a)
    }
}

// A rule that applies at the walk's configuration.
fn rule_at(random: &mut u64, nodes: &[usize], w: Walk, style: Style) -> Rule {
    let step = move_from(random, nodes, w.node);
    let all = step != 1 && chance(random, style.all_places, 8);
    let next = next_of(random, nodes, w, step);
    let symbol = trees::get(nodes, w.node, trees::SYMBOL);
    let place = if all {
        3
    } else {
        trees::get(nodes, w.node, trees::SIDE)
    };
    Rule::new(symbol, w.state, place, step, next)
}

// The walk one step further, by the rule of that number.
fn follow(nodes: &[usize], rules: &[u8], w: Walk, a: Automaton, rule: usize) -> Walk {
    let node = target(nodes, w.node, rules::get(rules, rule, rules::MOVE));
    let depth = trees::get(nodes, node, trees::DEPTH);
    Walk {
        node,
        state: rules::get(rules, rule, rules::NEXT),
        deepest: if depth > w.deepest { depth } else { w.deepest },
        automaton: a,
    }
}

// One rule more at the walk's configuration, or, where there is one already, that one; and the step by it.
fn wander(random: &mut u64, nodes: &[usize], rules: &mut [u8], w: Walk, style: Style) -> Walk {
    let a = w.automaton;
    if w.state == rules::goal(a) {
        return w;
    }
    let rule = rule_at(random, nodes, w, style);
    let b = rules::add_by(rules, a, rule, style.single);
    let here = Rule::new(
        rule.symbol,
        rule.state,
        trees::get(nodes, w.node, trees::SIDE),
        0,
        0,
    );
    let taken = if b.rules > a.rules {
        a.rules
    } else {
        rules::find(rules, b, here)
    };
    if taken < b.rules {
        follow(nodes, rules, w, b, taken)
    } else {
        w
    }
}

// The walk so many steps further.
fn walk_on(
    random: &mut u64,
    nodes: &[usize],
    rules: &mut [u8],
    w: Walk,
    style: Style,
    steps: usize,
) -> Walk {
    let mut walk = w;
    for _ in 0..steps {
        walk = wander(random, nodes, rules, walk, style);
    }
    walk
}

// A rule that leads up to the goal, for a walk that did not come there.
fn add_goal(random: &mut u64, rules: &mut [u8], w: Walk, single: bool) -> Automaton {
    let a = w.automaton;
    if w.state == rules::goal(a) || chance(random, 1, 2) {
        return a;
    }
    let symbol = draw(random, a.symbols);
    let state = rules::other_state(random, a);
    let place = 1 + draw(random, 2);
    let next = rules::goal(a);
    rules::add_by(rules, a, Rule::new(symbol, state, place, 1, next), single)
}

// The start states have the given one, and the goal is final; seldom there are more.
fn choose_sets(random: &mut u64, a: Automaton, state: usize) -> Automaton {
    let starts = if chance(random, 1, 8) {
        subset(random, a.states)
    } else {
        0
    };
    let ends = if chance(random, 1, 16) {
        subset(random, a.states)
    } else {
        0
    };
    a.with_sets(only(state) | starts, only(rules::goal(a)) | ends)
}

// An automaton made along a walk of so many steps, then with so many rules by chance.
pub fn along_walk(
    random: &mut u64,
    nodes: &[usize],
    rules: &mut [u8],
    a: Automaton,
    style: Style,
    steps: usize,
    more: usize,
) -> Automaton {
    let state = rules::other_state(random, a);
    let first = Walk {
        node: 0,
        state,
        deepest: 0,
        automaton: a,
    };
    let walk = walk_on(random, nodes, rules, first, style, steps);
    let made = add_goal(random, rules, walk, style.single);
    let full = rules::add_some(random, rules, made, more, style.single);
    rules::disturb(random, rules, full, 2);
    choose_sets(random, full, state)
}
