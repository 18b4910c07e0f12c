// Counting, and writing text and numbers to the standard output.
use crate::access::{number, set_number};

// Adds one to a count, at most to a million.
pub fn count(counts: &mut [usize], at: usize) {
    let n = number(counts, at);
    if n < 1000000 {
        set_number(counts, at, n + 1);
    }
}

pub fn text(label: &[u8]) {
    io::write_all(1, label);
}

pub fn labelled(label: &[u8], n: usize) {
    io::write_all(1, label);
    io::print_decimal(1, n as u64);
}

// A line with the counts from one index up to another.
pub fn row(label: &[u8], counts: &[usize], from: usize, to: usize) {
    text(label);
    for i in from..to {
        labelled(b" ", number(counts, i));
    }
    text(b"\n");
}

// A line with the three counts that start there: how often a pair was accepted, answered otherwise, and refused.
pub fn judgements(label: &[u8], counts: &[usize], at: usize) {
    let a = at % 64;
    text(label);
    labelled(b" accepted=", number(counts, a));
    labelled(b" other=", number(counts, a + 1));
    labelled(b" refused=", number(counts, a + 2));
    text(b"\n");
}

// The line that ends a comparison: how often the engine differs.
pub fn differences(n: usize) {
    labelled(b"differences ", n);
    text(b"\n");
}
