// Follows a walk and logs it (document 02, W7). Standard input has the length of an automaton's file in two bytes, low byte first, the budget in two
// bytes, the automaton's file, and the tree's; the log goes to standard output, three bytes a position. A line on standard error says how the walk
// ended, or why there is no log (tools/watch makes the input, and a status of what is said).
#![tactic(auto)]

use telling::{hand_over, read_front, say, say_refused};
use watch::Watched;

// The entries of so many steps, or none where the log is shorter.
fn entries(log: &[u8], steps: usize) -> &[u8] {
    if steps < log.len() / 3 {
        blocks::front(log, 3 * (steps + 1))
    } else {
        &log[..0]
    }
}

fn print_walk(log: &[u8], answer: &[u8], steps: usize) {
    if hand_over(entries(log, steps), b"trace: output lost\n") {
        say(answer, steps);
        io::write_all(2, b"\n");
    }
}

// A budget of at most 20,000 steps has 20,001 entries, so that 13 is not met.
fn follow(automaton: &[u8], tree: &[u8], budget: usize) {
    let mut log = [0u8; 60003];
    match watch::watch(automaton, tree, budget, &mut log) {
        Ok(Watched::Passed(steps)) => print_walk(&log, b"trace: passed steps=", steps),
        Ok(Watched::Stuck(steps)) => print_walk(&log, b"trace: stuck steps=", steps),
        Ok(Watched::Circling(steps)) => print_walk(&log, b"trace: circling steps=", steps),
        Ok(Watched::Spent(steps)) => print_walk(&log, b"trace: spent steps=", steps),
        Err(refusal) => say_refused(b"trace: refused=", refusal),
    }
}

// An automaton's file has at most 3,072 bytes and a tree's 4,608: of each one byte more is read, by which a longer one is refused.
fn main() {
    let mut head = [0u8; 4];
    let mut automaton = [0u8; 3073];
    let mut tree = [0u8; 4609];
    io::read_full(0, &mut head);
    let n = blocks::half_at(&head, 0) as usize;
    if !read_front(&mut automaton, n) {
        io::write_all(2, b"trace: input cut off\n");
        return;
    }
    let m = io::read_full(0, &mut tree);
    follow(
        blocks::front(&automaton, n),
        blocks::front(&tree, m),
        blocks::half_at(&head, 2) as usize,
    );
}
