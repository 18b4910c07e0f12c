// Reads cases from standard input and writes a line for each: what holding two logs together tells, and the part that is handed back.
// A case is 17 bytes (the length of its label, one byte; the lengths of the automaton's and of the tree's file and of the two logs, four each, lowest
// byte first), then the label, the files and the logs. A length with 2147483648 added stands for so many bytes of what was read before.
// tools/make_logs_cases.py makes them.
#![tactic(auto)]

ghost use Rattle.std.specs.Prelude.{◌+◌, ◌≤◌};

use telling::{mix, number, read_below, read_front};

// The refusal, where there is one.
fn print_refusal(told: &[usize; 5]) {
    if told[0] == 0 {
        return;
    }
    number(b" refused=", told[0] as u64);
    number(b" file=", told[1] as u64);
    number(b" place=", told[2] as u64);
}

fn print_compared(automaton: &[u8], tree: &[u8], first: &[u8], second: &[u8]) {
    let mut told = [9usize; 5];
    let part = logs::compare(automaton, tree, first, second, &mut told);
    print_refusal(&told);
    number(b" part=", part.len() as u64);
    number(b" mix=", mix(part));
    number(b" first=", told[3] as u64);
    number(b" second=", told[4] as u64);
}

fn length_at(head: &[u8; 17], at: usize) -> usize
    requires { at + 4 ≤ 17 }
{
    blocks::word_at(head, at) as usize
}

// The front of a buffer that the case asks for.
fn given<'a>(buffer: &'a [u8], length: usize) -> &'a [u8] {
    blocks::front(buffer, length % 2147483648)
}

// Writes the line of a case whose label, files and logs are read.
fn print_line(
    label: &[u8],
    head: &[u8; 17],
    automaton: &[u8],
    tree: &[u8],
    first: &[u8],
    second: &[u8],
) {
    io::write_all(1, label);
    io::write_all(1, b":");
    print_compared(
        given(automaton, length_at(head, 1)),
        given(tree, length_at(head, 5)),
        given(first, length_at(head, 9)),
        given(second, length_at(head, 13)),
    );
    io::write_all(1, b"\n");
}

// Reads a case and writes its line; false at the end of the input. The buffers hold what was read before.
fn one_case(automaton: &mut [u8], tree: &mut [u8], first: &mut [u8], second: &mut [u8]) -> bool {
    let mut head = [0u8; 17];
    let mut label = [0u8; 256];
    if !read_front(&mut head, 17) {
        return false;
    }
    let n = blocks::wide(head[0]) as usize;
    if !read_front(&mut label, n) {
        return false;
    }
    if !read_below(automaton, length_at(&head, 1), 2147483648) {
        return false;
    }
    if !read_below(tree, length_at(&head, 5), 2147483648) {
        return false;
    }
    if !read_below(first, length_at(&head, 9), 2147483648) {
        return false;
    }
    if !read_below(second, length_at(&head, 13), 2147483648) {
        return false;
    }
    print_line(
        blocks::front(&label, n),
        &head,
        automaton,
        tree,
        first,
        second,
    );
    true
}

fn main() {
    let mut automaton = [0u8; 8192];
    let mut tree = [0u8; 8192];
    let mut first = [0u8; 262144];
    let mut second = [0u8; 262144];
    for _ in 0..10000usize {
        if !one_case(&mut automaton, &mut tree, &mut first, &mut second) {
            return;
        }
    }
}
