// What is counted, and the lines that tell it.
use followed::answer;
use followed::answer::Expected;
use sampling::access::number;
use sampling::report::{count, labelled, text};

pub const COUNTS: usize = 112;

// Four endings for each family, then for trees over 1,024 nodes, for others that are not searched, for those that the search accepts and those that it
// does not.
pub const LARGE: usize = 16;

pub const NOT_SEARCHED: usize = 20;

pub const ACCEPTED: usize = 24;

pub const OTHER: usize = 28;

pub const SEVERAL: usize = 32;

pub const DIFFERENCES: usize = 33;

pub const CONTRADICTIONS: usize = 34;

// 24 numbers for each file.
const REFUSALS: usize = 40;

pub fn count_if(counts: &mut [usize], at: usize, holds: bool) {
    if holds {
        count(counts, at);
    }
}

// Counts an ending among the four that start there.
pub fn count_ending(counts: &mut [usize], from: usize, e: Expected) {
    if e.kind < answer::REFUSED {
        count(counts, from % COUNTS + e.kind);
    }
}

fn refusal_at(file: usize, number: usize) -> usize {
    REFUSALS + file % 3 * 24 + number % 24
}

pub fn count_answer(counts: &mut [usize], family: usize, e: Expected) {
    if e.kind == answer::REFUSED {
        count(counts, refusal_at(e.file, e.number));
    } else {
        count_ending(counts, family % 4 * 4, e);
    }
}

// A line with the four counts that start there.
fn line(label: &[u8], counts: &[usize], from: usize) {
    let at = from % COUNTS;
    text(label);
    labelled(b" passed=", number(counts, at));
    labelled(b" stuck=", number(counts, at + 1));
    labelled(b" circling=", number(counts, at + 2));
    labelled(b" spent=", number(counts, at + 3));
    text(b"\n");
}

pub fn print_endings(counts: &[usize]) {
    line(b"rules by chance", counts, 0);
    line(b"along a walk", counts, 4);
    line(b"depth first", counts, 8);
    line(b"depth first, again and again", counts, 12);
    line(b"over 1024 nodes", counts, LARGE);
    line(b"not searched", counts, NOT_SEARCHED);
    line(b"the search accepts", counts, ACCEPTED);
    line(b"the search does not accept", counts, OTHER);
}

// A line with the refusals of a file, from number 1 to 12.
pub fn refusals(label: &[u8], counts: &[usize], file: usize) {
    text(label);
    for i in 1..13usize {
        labelled(b" ", number(counts, refusal_at(file, i)));
    }
    text(b"\n");
}

pub fn print_refusals(counts: &[usize]) {
    refusals(b"automaton refused, 1 to 12:", counts, 0);
    refusals(b"tree refused, 1 to 12:", counts, 1);
    labelled(b"refused 20: ", number(counts, refusal_at(2, 20)));
    labelled(b", 21: ", number(counts, refusal_at(2, 21)));
    labelled(b", 22: ", number(counts, refusal_at(2, 22)));
    labelled(b", 13: ", number(counts, refusal_at(2, 13)));
    labelled(b"\nwith several faults ", number(counts, SEVERAL));
    text(b"\n");
}

pub fn print_differences(counts: &[usize]) {
    labelled(b"differences ", number(counts, DIFFERENCES));
    labelled(b", against the search ", number(counts, CONTRADICTIONS));
    text(b"\n");
}
