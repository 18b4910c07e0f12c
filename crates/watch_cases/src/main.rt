// Reads cases from standard input and writes a line for each: how watching an automaton on a tree ends, and what the lent bytes are then.
// A case is 15 bytes (the length of its label, one byte; the lengths of the automaton's and of the tree's file and of the lent bytes, two each;
// the budget, eight: all low byte first), then the label and the files. A file's length with 32768 added stands for the file of the case before.
// tools/make_watch_cases.py makes them.
#![tactic(auto)]

use refusal::Refusal;
use telling::{fill, mix, number, pair_at, print_refusal, read_below, read_front};
use watch::Watched;

fn print_watched(watched: Result<Watched, Refusal>) {
    match watched {
        Ok(Watched::Passed(steps)) => number(b" passed=", steps as u64),
        Ok(Watched::Stuck(steps)) => number(b" stuck=", steps as u64),
        Ok(Watched::Circling(steps)) => number(b" circling=", steps as u64),
        Ok(Watched::Spent(steps)) => number(b" spent=", steps as u64),
        Err(refusal) => print_refusal(refusal),
    }
}

fn budget_of(head: &[u8; 15]) -> usize {
    (blocks::word_at(head, 7) as usize) + 4294967296 * (blocks::word_at(head, 11) as usize)
}

// Logs the walk in the front of a buffer.
fn log_walk(
    automaton: &[u8],
    tree: &[u8],
    budget: usize,
    buffer: &mut [u8],
    room: usize,
) -> Result<Watched, Refusal> {
    if room <= buffer.len() {
        watch::watch(automaton, tree, budget, &mut buffer[..room])
    } else {
        watch::watch(automaton, tree, budget, buffer)
    }
}

fn print_walk(automaton: &[u8], tree: &[u8], budget: usize, room: usize) {
    let mut buffer = [0u8; 65536];
    fill(&mut buffer);
    print_watched(log_walk(automaton, tree, budget, &mut buffer, room));
    number(b" mix=", mix(blocks::front(&buffer, room)));
}

// Writes the line of a case whose label and files are read.
fn print_line(label: &[u8], head: &[u8; 15], automaton: &[u8], tree: &[u8]) {
    io::write_all(1, label);
    io::write_all(1, b":");
    print_walk(
        blocks::front(automaton, pair_at(head, 1) % 32768),
        blocks::front(tree, pair_at(head, 3) % 32768),
        budget_of(head),
        pair_at(head, 5),
    );
    io::write_all(1, b"\n");
}

// Reads a case and writes its line; false at the end of the input. The buffers hold the files of the case before.
fn one_case(automaton: &mut [u8], tree: &mut [u8]) -> bool {
    let mut head = [0u8; 15];
    let mut label = [0u8; 256];
    if !read_front(&mut head, 15) {
        return false;
    }
    let n = blocks::wide(head[0]) as usize;
    if !read_front(&mut label, n) {
        return false;
    }
    if !read_below(automaton, pair_at(&head, 1), 32768) {
        return false;
    }
    if !read_below(tree, pair_at(&head, 3), 32768) {
        return false;
    }
    print_line(blocks::front(&label, n), &head, automaton, tree);
    true
}

fn main() {
    let mut automaton = [0u8; 8192];
    let mut tree = [0u8; 8192];
    for _ in 0..10000usize {
        if !one_case(&mut automaton, &mut tree) {
            return;
        }
    }
}
