// What is counted, and the lines that tell it.
use crate::told::Told;
use generated::families;
use sampling::access::{number, set_number};
use sampling::report::{count, labelled, text};
use watch_trials::counts::count_if;

pub const COUNTS: usize = 74;

// The numbers of a family, and then those of all pairs: three verdicts, then these.
const EACH: usize = 8;

const SUM: usize = 3;

const DIFFERENT: usize = 4;

const PAIRS: usize = 5;

const ALL: usize = EACH * families::FAMILIES;

// Trees of one leaf and larger trees, among those that are judged.
const LEAVES: usize = 72;

const LARGER: usize = 73;

// The most nodes of a tree that is not a larger one.
const SMALL: usize = 63;

fn add(counts: &mut [usize], at: usize, n: usize) {
    let value = number(counts, at) % 4294967296 + n % 4294967296;
    set_number(counts, at, value);
}

// Counts a pair among those that start there.
fn count_pair(counts: &mut [usize], from: usize, expected: Told, differs: bool) {
    let at = from % LEAVES;
    count(counts, at + PAIRS);
    count(counts, at + expected.kind % 3);
    add(counts, at + SUM, expected.sum);
    count_if(counts, at + DIFFERENT, differs);
}

pub fn count_size(counts: &mut [usize], size: usize, kind: usize) {
    count_if(counts, LEAVES, kind != 2 && size == 1);
    count_if(counts, LARGER, kind != 2 && size > SMALL);
}

fn print_told(label: &[u8], t: Told) {
    labelled(label, t.kind);
    labelled(b" ", t.number);
    labelled(b" ", t.file);
    labelled(b" ", t.place);
    labelled(b" ", t.sum);
}

// Writes the pair of a difference, for the first ten.
fn print_difference(counts: &[usize], pair: usize, expected: Told, found: Told) {
    if number(counts, ALL + DIFFERENT) < 10 {
        labelled(b"difference at pair ", pair);
        print_told(b" expected ", expected);
        print_told(b" found ", found);
        text(b"\n");
    }
}

pub fn tally(counts: &mut [usize], pair: usize, family: usize, expected: Told, found: Told) {
    let differs = expected != found;
    if differs {
        print_difference(counts, pair, expected, found);
    }
    count_pair(
        counts,
        EACH * (family % families::FAMILIES),
        expected,
        differs,
    );
    count_pair(counts, ALL, expected, differs);
}

fn line(label: &[u8], counts: &[usize], family: usize) {
    let at = EACH * (family % 9);
    text(label);
    labelled(b" pairs=", number(counts, at + PAIRS));
    labelled(b" accepted=", number(counts, at));
    labelled(b" other=", number(counts, at + 1));
    labelled(b" refused=", number(counts, at + 2));
    labelled(b" sum=", number(counts, at + SUM));
    labelled(b" different=", number(counts, at + DIFFERENT));
    text(b"\n");
}

fn print_families(counts: &[usize]) {
    for family in 0..families::FAMILIES {
        line(families::name(family), counts, family);
    }
    line(b"all", counts, families::FAMILIES);
}

fn print_sizes(counts: &[usize]) {
    labelled(b"judged trees of one leaf=", number(counts, LEAVES));
    labelled(b" over 63 nodes=", number(counts, LARGER));
    text(b"\n");
}

pub fn print(counts: &[usize]) {
    print_families(counts);
    print_sizes(counts);
}
