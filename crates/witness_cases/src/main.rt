// Reads cases from standard input and writes a line for each: what writing a plan's tree as a file gives, and what the lent bytes are then.
// A case is seven bytes (the length of its label; the lengths of the automaton's file, of the plan and of the lent bytes, low byte first, a
// plan's 65535 standing for the plan that the survey finds), then the label, the file and the plan. tools/make_witness_cases.py makes them.
#![tactic(auto)]

use emptiness::Survey;
use membership::Answer;
use telling::{mix, number, pair_at, print_refusal, read_front};

fn plan_length(head: &[u8; 7]) -> usize {
    let n = pair_at(head, 3);
    if n == 65535 { 0 } else { n }
}

fn print_judged(automaton: &[u8], tree: &[u8]) {
    match judging::accepts(automaton, tree) {
        Ok(Answer::Accepted) => {
            io::write_all(1, b" accepted");
        }
        Ok(Answer::Other) => {
            io::write_all(1, b" other");
        }
        Err(refusal) => print_refusal(refusal),
    }
}

// Writes the tree's file into a lent buffer of 165s.
fn print_written(automaton: &[u8], plan: &[u8], room: usize) {
    let mut buffer = [165u8; 8192];
    if buffer.len() < room {
        return;
    }
    let out = &mut buffer[..room];
    match witness::file::write(automaton, plan, out) {
        Err(refusal) => print_refusal(refusal),
        Ok(n) => {
            number(b" bytes=", n as u64);
            print_judged(automaton, blocks::front(out, n));
        }
    }
    number(b" mix=", mix(out));
}

// The plan that the survey finds.
fn print_found(automaton: &[u8], room: usize) {
    let mut plan = [7u8; 200];
    match emptiness::file::survey(automaton, &mut plan) {
        Ok(Survey::Found { height, rows }) => {
            number(b" found=", height as u64);
            if rows <= 65 {
                print_written(automaton, blocks::front(&plan, 3 * rows), room);
            }
        }
        Ok(Survey::Open(height)) => number(b" open=", height as u64),
        Ok(Survey::Empty(height)) => number(b" empty=", height as u64),
        Err(refusal) => print_refusal(refusal),
    }
}

// The label, the file and the plan of a case; false where the input ends before.
fn read_case(head: &[u8; 7], label: &mut [u8], automaton: &mut [u8], plan: &mut [u8]) -> bool {
    if !read_front(label, blocks::wide(head[0]) as usize) {
        return false;
    }
    if !read_front(automaton, pair_at(head, 1)) {
        return false;
    }
    read_front(plan, plan_length(head))
}

// Reads a case and writes its line; false at the end of the input.
fn one_case() -> bool {
    let mut head = [0u8; 7];
    let mut label = [0u8; 256];
    let mut automaton = [0u8; 8192];
    let mut plan = [0u8; 1024];
    if !read_front(&mut head, 7) {
        return false;
    }
    if !read_case(&head, &mut label, &mut automaton, &mut plan) {
        return false;
    }
    io::write_all(1, blocks::front(&label, blocks::wide(head[0]) as usize));
    io::write_all(1, b":");
    if pair_at(&head, 3) == 65535 {
        print_found(
            blocks::front(&automaton, pair_at(&head, 1)),
            pair_at(&head, 5),
        );
    } else {
        print_written(
            blocks::front(&automaton, pair_at(&head, 1)),
            blocks::front(&plan, plan_length(&head)),
            pair_at(&head, 5),
        );
    }
    io::write_all(1, b"\n");
    true
}

fn main() {
    for _ in 0..10000usize {
        if !one_case() {
            return;
        }
    }
}
