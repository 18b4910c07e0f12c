// The answers of a comparison, counted by family, and the lines that tell them.
use sampling::access::{number, set_number};
use sampling::report::{count, labelled, text};

// How many counts there are.
pub const COUNTS: usize = 164;

// 32 for each family, which are the answers by number (0 for a file), then the records (30) and the rules that remain (31); after them these.
const LEFT_512: usize = 160;

const LEFT_513: usize = 161;

pub const AGAIN: usize = 162;

pub const DIFFERENCES: usize = 163;

// Where a count of a family stands.
pub fn at(family: usize, i: usize) -> usize {
    family % forms::FAMILIES * 32 + i % 32
}

fn add(counts: &mut [usize], at: usize, n: usize) {
    let sum = std::num::wrapping_add_usize(number(counts, at), n);
    set_number(counts, at, sum);
}

pub fn count_rules(counts: &mut [usize], family: usize, records: usize, rules: usize) {
    add(counts, at(family, 30), records);
    add(counts, at(family, 31), rules);
    match rules {
        512 => count(counts, LEFT_512),
        513 => count(counts, LEFT_513),
        _ => {}
    }
}

fn print_refusals(counts: &[usize], family: usize) {
    text(b" 1 to 9:");
    for i in 1..10usize {
        labelled(b" ", number(counts, at(family, i)));
    }
    text(b"\n");
}

// A line for each family.
fn line(label: &[u8], counts: &[usize], family: usize) {
    text(label);
    labelled(b" records=", number(counts, at(family, 30)));
    labelled(b" remain=", number(counts, at(family, 31)));
    labelled(b" written=", number(counts, at(family, 0)));
    labelled(b" 17=", number(counts, at(family, 17)));
    labelled(b" 13=", number(counts, at(family, 13)));
    print_refusals(counts, family);
}

pub fn print_families(counts: &[usize]) {
    line(b"copies", counts, 0);
    line(b"place 3 and copies", counts, 1);
    line(b"changed copies", counts, 2);
    line(b"any rules", counts, 3);
    line(b"many rules", counts, 4);
}

pub fn print_all(counts: &[usize]) {
    labelled(b"512 remain ", number(counts, LEFT_512));
    labelled(b", 513 remain ", number(counts, LEFT_513));
    labelled(b"\nwritten again ", number(counts, AGAIN));
    labelled(b"\ndifferences ", number(counts, DIFFERENCES));
    text(b"\n");
}
