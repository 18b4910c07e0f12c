// Writes the letter that Found means: an automaton's file comes from standard input, and the file of a tree that it accepts goes to standard
// output. Where there is none, or the output is lost, a line on standard error says why (tools/example makes a status of it).
#![tactic(auto)]

use emptiness::Survey;
use telling::{hand_over, say, say_refused_at};

fn say_height(words: &[u8], height: usize) {
    say(words, height);
    io::write_all(2, b"\n");
}

// The first n rows of a plan, or none where it has fewer.
fn rows_front(plan: &[u8], n: usize) -> &[u8] {
    if n <= plan.len() / 3 {
        blocks::front(plan, 3 * n)
    } else {
        &plan[..0]
    }
}

// The plan's tree. A tree's file has at most 4,608 bytes, so that 13 is not met.
fn write_tree(file: &[u8], plan: &[u8]) {
    let mut out = [0u8; 4608];
    match witness::file::write(file, plan, &mut out) {
        Ok(n) => {
            hand_over(blocks::front(&out, n), b"example: output lost\n");
        }
        Err(refusal) => say_refused_at(b"example: plan refused=", refusal),
    }
}

fn write_found(file: &[u8]) {
    let mut plan = [0u8; 195];
    match emptiness::file::survey(file, &mut plan) {
        Ok(Survey::Found { height: _, rows }) => write_tree(file, rows_front(&plan, rows)),
        Ok(Survey::Open(height)) => say_height(b"example: none found: survey open height=", height),
        Ok(Survey::Empty(height)) => say_height(
            b"example: none passes: survey empty height=",
            height,
        ),
        Err(refusal) => say_refused_at(b"example: walker refused=", refusal),
    }
}

// An automaton's file has at most 3,072 bytes: one byte more is read, by which a longer file is refused.
fn main() {
    let mut file = [0u8; 3073];
    let n = io::read_full(0, &mut file);
    write_found(blocks::front(&file, n));
}
