// Compares the tally of a batch with a brute-force run on each of its trees. A batch is made from its number alone: an automaton by chance, and
// twelve trees, each of which comes twice in a row. In about half of the batches some file is damaged: a byte is changed, which ends the batch, or
// a node has a symbol that there is not, which is counted as refused. The brute force works on the data, the engine on the files, end to end.
#![tactic(auto)]

use generated::families;
use sampling::access::{byte, number, set_byte, set_number};
use sampling::random::{chance, draw, seed};
use sampling::report::{count, differences, judgements, labelled, text};
use sampling::rules::Automaton;
use search::{files, trees, walk};
use tally::Tally;

// The batches of each family.
const BATCHES: usize = 400;

// The trees of a batch.
const TREES: usize = 12;

// A batch as it is made: the bytes so far, and whether a file has ended it.
#[derive(Clone, Copy)]
struct Made {
    length: usize,
    ended: bool,
}

// Copies a file behind what there is.
fn append(all: &mut [u8], at: usize, file: &[u8], n: usize) {
    for i in 0..n % 8192 {
        set_byte(all, at % 1048576 + i, byte(file, i));
    }
}

// Changes a byte of a file, or none.
fn hurt(file: &mut [u8], on: bool, at: usize, by: usize) {
    if on {
        files::damage(file, at, by);
    }
}

// What a file counts as: accepted (0), other (1), refused (2); nothing (3) once the batch has ended.
fn slot(ended: bool, damage: usize, kind: usize) -> usize {
    if ended {
        return 3;
    }
    if damage < 2 { 2 } else { kind }
}

// Writes a tree's file, as it is or damaged, behind the others, and counts it.
fn add_file(
    random: &mut u64,
    all: &mut [u8],
    made: Made,
    nodes: &mut [usize],
    size: usize,
    symbols: usize,
    kind: usize,
    expected: &mut [usize],
) -> Made {
    let mut file = [0u8; 4608];
    let damage = draw(random, 48);
    let node = draw(random, size);
    let symbol = trees::get(nodes, node, trees::SYMBOL);
    let spoilt = if damage == 1 { symbols } else { symbol };
    trees::set(nodes, node, trees::SYMBOL, spoilt);
    let length = files::write_tree(&mut file, nodes, size) % 4609;
    trees::set(nodes, node, trees::SYMBOL, symbol);
    let at = draw(random, length);
    hurt(&mut file, damage == 0, at, draw(random, 255));
    append(all, made.length, &file, length);
    count(expected, slot(made.ended, damage, kind));
    Made {
        length: made.length % 1048576 + length,
        ended: made.ended | (damage == 0),
    }
}

// Grows a tree and writes its file twice.
fn add_tree(
    random: &mut u64,
    all: &mut [u8],
    made: Made,
    a: Automaton,
    rules: &[u8],
    expected: &mut [usize],
) -> Made {
    let mut nodes = [0usize; 8192];
    let mut reached = [0u32; 1024];
    let shape = trees::choose(random);
    let size = trees::grow(random, &mut nodes, shape, a.symbols, a.branches);
    let kind = if walk::accepts(a, rules, &nodes, size, &mut reached) {
        0
    } else {
        1
    };
    let once = add_file(
        random, all, made, &mut nodes, size, a.symbols, kind, expected,
    );
    add_file(
        random, all, once, &mut nodes, size, a.symbols, kind, expected,
    )
}

// Whether the engine's tally is the one that was expected.
fn agrees(automaton: &[u8], trees: &[u8], expected: &[usize]) -> bool {
    let none = Tally {
        accepted: 0,
        other: 0,
        refused: 0,
    };
    let tallied = batch::file::tally(automaton, trees, none);
    let tally = tallied.tally;
    let check = tallied.check;
    let read = match check {
        Ok(()) => true,
        Err(_) => false,
    };
    read && tally.accepted as usize == number(expected, 0)
        && tally.other as usize == number(expected, 1)
        && tally.refused as usize == number(expected, 2)
}

// The batch of that number; what it has to come to is left in `expected`. Whether the engine agrees.
fn one_batch(batch: usize, family: usize, expected: &mut [usize]) -> bool {
    let mut random = seed(batch);
    let mut nodes = [0usize; 8192];
    let mut rules = [0u8; 2560];
    let mut automaton = [0u8; 3072];
    let mut all = [0u8; 110592];
    let first = families::start(&mut random, family);
    let shape = trees::choose(&mut random);
    trees::grow(
        &mut random,
        &mut nodes,
        shape,
        first.symbols,
        first.branches,
    );
    let a = families::make(&mut random, &nodes, &mut rules, first, family);
    let n = files::write_automaton(&mut automaton, a, &rules);
    let mut made = Made {
        length: 0,
        ended: false,
    };
    for tree in 0..TREES {
        made = add_tree(&mut random, &mut all, made, a, &rules, expected);
    }
    agrees(
        files::front(&automaton, n),
        files::front(&all, made.length),
        expected,
    )
}

// Adds a batch's three numbers to those of its family (from 3 times the family), and the batch to those that differ (24).
fn tally(counts: &mut [usize], batch: usize, family: usize) {
    let mut expected = [0usize; 4];
    let right = one_batch(batch, family, &mut expected);
    for i in 0..3 {
        let at = family % 8 * 3 + i;
        let before = number(counts, at) % 1048576;
        set_number(counts, at, before + number(&expected, i) % 1048576);
    }
    if !right {
        labelled(b"difference at batch ", batch);
        text(b"\n");
        count(counts, 24);
    }
}

fn run(counts: &mut [usize]) {
    for batch in 0..BATCHES * families::FAMILIES {
        tally(counts, batch, batch / BATCHES);
    }
}

fn print_families(counts: &[usize]) {
    for family in 0..families::FAMILIES {
        judgements(families::name(family), counts, 3 * family);
    }
}

fn main() {
    let mut counts = [0usize; 25];
    run(&mut counts);
    print_families(&counts);
    differences(number(&counts, 24));
}
