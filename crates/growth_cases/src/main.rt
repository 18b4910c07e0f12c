// Reads cases from standard input and writes a line for each: what judging a tree by an automaton answers, and the sum of the growths of closing.
// A case is five bytes (the length of its label, one byte; the lengths of the automaton's and of the tree's file, two each, low byte first), then the
// label and the files. A file's length with 32768 added stands for the file of the case before. tools/make_growth_cases.py makes them.
#![tactic(auto)]

use membership::Answer;
use refusal::Refusal;
use telling::{number, pair_at, print_refusal, read_below, read_front};

fn print_answer(answer: Result<Answer, Refusal>) {
    match answer {
        Ok(Answer::Accepted) => {
            io::write_all(1, b" accepted");
        }
        Ok(Answer::Other) => {
            io::write_all(1, b" other");
        }
        Err(refusal) => print_refusal(refusal),
    }
}

fn print_judged(automaton: &[u8], tree: &[u8]) {
    let judged = judging::judge(automaton, tree);
    let answer = judged.answer;
    print_answer(answer);
    number(b" growth=", judged.growth as u64);
}

// Writes the line of a case whose label and files are read.
fn print_line(label: &[u8], head: &[u8; 5], automaton: &[u8], tree: &[u8]) {
    io::write_all(1, label);
    io::write_all(1, b":");
    print_judged(
        blocks::front(automaton, pair_at(head, 1) % 32768),
        blocks::front(tree, pair_at(head, 3) % 32768),
    );
    io::write_all(1, b"\n");
}

// Reads a case and writes its line; false at the end of the input. The buffers hold the files of the case before.
fn one_case(automaton: &mut [u8], tree: &mut [u8]) -> bool {
    let mut head = [0u8; 5];
    let mut label = [0u8; 256];
    if !read_front(&mut head, 5) {
        return false;
    }
    let n = blocks::wide(head[0]) as usize;
    if !read_front(&mut label, n) {
        return false;
    }
    if !read_below(automaton, pair_at(&head, 1), 32768) {
        return false;
    }
    if !read_below(tree, pair_at(&head, 3), 32768) {
        return false;
    }
    print_line(blocks::front(&label, n), &head, automaton, tree);
    true
}

fn main() {
    let mut automaton = [0u8; 8192];
    let mut tree = [0u8; 8192];
    for _ in 0..10000usize {
        if !one_case(&mut automaton, &mut tree) {
            return;
        }
    }
}
