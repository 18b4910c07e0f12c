// Plans as bytes, by a reading of document 02's W1 that shares no code or definition with the engine: plans by chance and damaged ones, the
// tree that a plan builds, as the file of a letter, and whether runs accept it.
#![tactic(auto)]

use enumerated::rows;
use sampling::access::{byte, has, number, set_byte, set_number};
use sampling::random::{chance, draw};
use sampling::rules::Automaton;
use search::{files, walk};

// What is expected: a refusal's number, file and place or, number 0, a file of the length.
#[derive(Clone, Copy)]
pub struct Expected {
    pub number: u8,
    pub file: u8,
    pub place: usize,
    pub length: usize,
}

pub fn refused(number: u8, file: u8, place: usize) -> Expected {
    Expected {
        number,
        file,
        place,
        length: 0,
    }
}

// ---- the rows

// Whether row i has a symbol that is not there, or names parts that it may not have.
fn bad_row(a: Automaton, plan: &[u8], i: usize) -> bool {
    let at = i % 256 * 3;
    let symbol = byte(plan, at);
    let left = byte(plan, at + 1);
    let right = byte(plan, at + 2);
    if symbol >= a.symbols {
        return true;
    }
    if has(a.branches, symbol) {
        left >= i || right >= i
    } else {
        left != 255 || right != 255
    }
}

// The first bad row of n, or n.
fn first_bad(a: Automaton, plan: &[u8], n: usize) -> usize {
    for i in 0..n {
        if bad_row(a, plan, i) {
            return i;
        }
    }
    n
}

// ---- the tree

// Takes the row that waits on top, the n-th, as the next node, and has its parts wait in its place; how many rows wait then.
fn take_row(
    a: Automaton,
    plan: &[u8],
    waiting: &mut [usize],
    n: usize,
    node: usize,
    symbols: &mut [u8],
) -> usize {
    let top = n % 128;
    if top == 0 {
        return 0;
    }
    let at = number(waiting, top) % 256 * 3;
    let symbol = byte(plan, at);
    set_byte(symbols, node, symbol);
    if !has(a.branches, symbol) {
        return top - 1;
    }
    set_number(waiting, top, byte(plan, at + 2));
    set_number(waiting, top + 1, byte(plan, at + 1));
    top + 1
}

// The symbols of a row's tree in preorder; how many there are, 4,097 for more than 4,096.
fn unfold(a: Automaton, plan: &[u8], row: usize, symbols: &mut [u8]) -> usize {
    let mut waiting = [0usize; 130];
    waiting[1] = row;
    let mut n: usize = 1;
    for node in 0..4097usize {
        if n == 0 {
            return node;
        }
        n = take_row(a, plan, &mut waiting, n, node, symbols);
    }
    4097
}

// What is expected of a plan where there is room, with the file of its tree.
pub fn expected_of(a: Automaton, plan: &[u8], letter: &mut [u8]) -> Expected {
    let n = plan.len();
    let count = n / 3;
    if count == 0 || n % 3 != 0 || n > 195 {
        return refused(15, 2, 0);
    }
    let bad = first_bad(a, plan, count);
    if bad < count {
        return refused(15, 2, bad);
    }
    let mut symbols = [0u8; 4097];
    let size = unfold(a, plan, count - 1, &mut symbols);
    if size > 4096 {
        return refused(16, 2, 0);
    }
    Expected {
        number: 0,
        file: 0,
        place: 0,
        length: files::write_symbols(letter, &symbols, size),
    }
}

// The same where there is so much room.
pub fn with_room(e: Expected, room: usize) -> Expected {
    if e.number == 0 && room < e.length {
        refused(13, 2, e.length)
    } else {
        e
    }
}

// ---- by runs

fn list_row(plan: &[u8], i: usize, list: &mut [usize]) {
    let at = i % 256 * 3;
    let left = byte(plan, at + 1);
    let right = byte(plan, at + 2);
    if left == 255 {
        rows::put(list, i, byte(plan, at), rows::LEAF, rows::LEAF);
    } else {
        rows::put(list, i, byte(plan, at), left, right);
    }
}

fn list_rows(plan: &[u8], n: usize, list: &mut [usize]) {
    for i in 0..n {
        list_row(plan, i, list);
    }
}

// Whether runs accept the tree of a plan that is in order: 0 no, 1 yes, 2 where it has more than 1,024 nodes.
pub fn accepted(a: Automaton, rules: &[u8], plan: &[u8]) -> usize {
    let mut list = [0usize; 195];
    let mut nodes = [0usize; 8192];
    let mut reached = [0u32; 1024];
    let n = plan.len() / 3;
    if n == 0 {
        return 0;
    }
    list_rows(plan, n, &mut list);
    let size = rows::unfold(&list, n - 1, &mut nodes);
    if size == 0 {
        return 2;
    }
    if walk::accepts(a, rules, &nodes, size, &mut reached) {
        1
    } else {
        0
    }
}

// ---- by chance

// A symbol: in the first row a leaf symbol, in most later rows a branch symbol, where there is one.
fn symbol_of(random: &mut u64, a: Automaton, i: usize) -> usize {
    let first = draw(random, a.symbols);
    let branch = i > 0 && chance(random, 3, 4);
    if has(a.branches, first) == branch || i > 0 && !branch {
        return first;
    }
    for symbol in 0..32usize {
        if symbol < a.symbols && has(a.branches, symbol) == branch {
            return symbol;
        }
    }
    first
}

// A row before row i, mostly one of the last two.
fn earlier(random: &mut u64, i: usize) -> usize {
    let back = if chance(random, 7, 8) {
        draw(random, 2)
    } else {
        draw(random, i)
    };
    if back < i { i - 1 - back } else { 0 }
}

fn put_row(random: &mut u64, a: Automaton, plan: &mut [u8], i: usize) {
    let at = i % 256 * 3;
    let symbol = symbol_of(random, a, i);
    set_byte(plan, at, symbol);
    if has(a.branches, symbol) {
        let left = earlier(random, i);
        set_byte(plan, at + 1, left);
        set_byte(plan, at + 2, earlier(random, i));
    } else {
        set_byte(plan, at + 1, 255);
        set_byte(plan, at + 2, 255);
    }
}

fn put_rows(random: &mut u64, a: Automaton, plan: &mut [u8], n: usize) {
    for i in 0..n {
        put_row(random, a, plan, i);
    }
}

// A plan of at most 66 rows; its length.
pub fn by_chance(random: &mut u64, a: Automaton, plan: &mut [u8]) -> usize {
    let n = if chance(random, 1, 4) {
        1 + draw(random, 65)
    } else {
        1 + draw(random, 16)
    };
    put_rows(random, a, plan, n);
    n % 256 * 3
}

// A byte that a plan may have, or not.
fn any_byte(random: &mut u64) -> usize {
    match draw(random, 4) {
        0 => 255,
        1 => draw(random, 255),
        _ => draw(random, 66),
    }
}

// Another length, another byte or, in some, nothing; the length then.
pub fn damage(random: &mut u64, plan: &mut [u8], n: usize) -> usize {
    match draw(random, 8) {
        0 => draw(random, 200),
        1 => n % 256 + 3,
        2..=3 => n,
        _ => {
            let at = draw(random, n);
            set_byte(plan, at, any_byte(random));
            n
        }
    }
}
