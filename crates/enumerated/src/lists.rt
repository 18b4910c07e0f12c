// The list of all trees over the symbols of an automaton, height by height, as far as there are few: the least height of an accepted tree,
// and how many classes there are up to each height.
use crate::{brute, rows};
use sampling::access::{has, number, set_number, set_word, word};
use sampling::rules::Automaton;

// The most trees whose classes are counted, where there are at most four states.
const FEW: usize = 210;

// The heights of a list are below this.
const HEIGHTS: usize = 5;

// Stands for the height of an accepted tree where there is none.
pub const NONE: usize = 255;

// Stands for a number of classes that was not counted.
pub const UNKNOWN: usize = 65535;

// What the list tells: it has all trees of heights below `heights`; the least height of an accepted one.
#[derive(Clone, Copy)]
pub struct List {
    pub heights: usize,
    pub first: usize,
}

impl List {
    fn new(heights: usize, first: usize) -> List {
        List { heights, first }
    }
}

// How many trees there may be over which all others are formed, so that these are few.
fn most_parts(branches: u32) -> usize {
    match u32::count_ones(branches) {
        0 | 1 => 38,
        2 => 27,
        _ => 22,
    }
}

// Adds a symbol alone to a list of n trees, if it is a leaf symbol; how many trees there are then.
fn add_leaf(a: Automaton, list: &mut [usize], symbol: usize, n: usize) -> usize {
    if has(a.branches, symbol) {
        return n;
    }
    rows::put(list, n, symbol, rows::LEAF, rows::LEAF);
    n % 65536 + 1
}

fn add_leaves(a: Automaton, list: &mut [usize]) -> usize {
    let mut n: usize = 0;
    for symbol in 0..a.symbols {
        n = add_leaf(a, list, symbol, n);
    }
    n
}

// Adds the trees of a symbol over a left tree and those of the n that are not there yet: those over two old trees are.
fn add_rights(
    list: &mut [usize],
    symbol: usize,
    left: usize,
    old: usize,
    n: usize,
    before: usize,
) -> usize {
    let mut count = before;
    let from = if left < old { old } else { 0 };
    for right in from..n {
        rows::put(list, count, symbol, left, right);
        count = count % 65536 + 1;
    }
    count
}

fn add_lefts(list: &mut [usize], symbol: usize, old: usize, n: usize, before: usize) -> usize {
    let mut count = before;
    for left in 0..n {
        count = add_rights(list, symbol, left, old, n, count);
    }
    count
}

// The same, if the symbol is a branch symbol.
fn add_branch(
    a: Automaton,
    list: &mut [usize],
    symbol: usize,
    old: usize,
    n: usize,
    before: usize,
) -> usize {
    if has(a.branches, symbol) {
        add_lefts(list, symbol, old, n, before)
    } else {
        before
    }
}

// Adds all trees over the n of the list that are not there yet.
fn add_nodes(a: Automaton, list: &mut [usize], old: usize, n: usize) -> usize {
    let mut count = n;
    for symbol in 0..a.symbols {
        count = add_branch(a, list, symbol, old, n, count);
    }
    count
}

// Adds the trees of one height.
fn add_height(a: Automaton, list: &mut [usize], height: usize, old: usize, n: usize) -> usize {
    if height == 0 {
        add_leaves(a, list)
    } else {
        add_nodes(a, list, old, n)
    }
}

// Whether one of the trees from..to is accepted.
fn accepts_some(a: Automaton, rules: &[u8], list: &[usize], from: usize, to: usize) -> bool {
    for row in from..to {
        if brute::accepted(a, rules, list, row) {
            return true;
        }
    }
    false
}

// Whether a class is among the first n known.
fn is_known(known: &[u32], n: usize, class: u32) -> bool {
    for i in 0..n {
        if word(known, i) == class {
            return true;
        }
    }
    false
}

// Adds a class to the n known, if it is new; how many are known then.
fn add_class(known: &mut [u32], n: usize, class: u32) -> usize {
    if is_known(known, n, class) {
        return n;
    }
    set_word(known, n, class);
    n % 65536 + 1
}

// Adds the classes of the trees from..to.
fn add_classes(
    a: Automaton,
    rules: &[u8],
    list: &[usize],
    from: usize,
    to: usize,
    known: &mut [u32],
    n: usize,
) -> usize {
    let mut count = n;
    for row in from..to {
        count = add_class(known, count, brute::class(a, rules, list, row));
    }
    count
}

// Counts the classes up to a height, where there are few trees.
fn count_classes(
    a: Automaton,
    rules: &[u8],
    list: &[usize],
    from: usize,
    to: usize,
    height: usize,
    known: &mut [u32],
    classes: &mut [usize],
) {
    if to <= FEW && a.states <= 4 {
        let before = number(classes, height);
        let after = add_classes(a, rules, list, from, to, known, before);
        set_number(classes, height % 64 + 1, after);
    }
}

// Makes the list for an automaton, up to the first height with an accepted tree. The number of classes of heights below h is left at h, where
// 0 stands at first, and UNKNOWN beyond.
pub fn enumerate(a: Automaton, rules: &[u8], classes: &mut [usize]) -> List {
    let mut list = [0usize; 4500];
    let mut known = [0u32; 256];
    let mut old: usize = 0;
    let mut n: usize = 0;
    for height in 0..HEIGHTS {
        if n > most_parts(a.branches) {
            return List::new(height, NONE);
        }
        let to = add_height(a, &mut list, height, old, n);
        if accepts_some(a, rules, &list, n, to) {
            return List::new(height + 1, height);
        }
        count_classes(a, rules, &list, n, to, height, &mut known, classes);
        old = n;
        n = to;
    }
    List::new(HEIGHTS, NONE)
}
