// Reads cases from standard input and writes a line for each: what reading the automaton's file, and then the tree's file against it, gives.
// A case is five bytes (the length of its label; the lengths of the two files, low byte first, a tree's 65535 standing for no file), then
// the label and the files. tools/make_cases.py makes the cases and, from document 01 alone, the lines that are expected.
#![tactic(auto)]

ghost use Rattle.std.specs.Prelude.{◌≤◌};

use automaton::Header;
use determinism::Singleness;
use model::Signature;
use telling::{number, pair_at, print_refusal, read_front};

// How many bits of a set are on.
fn size_of(set: u32) -> u64
    ensures { result ≤ 32 }
{
    u32::count_ones(set) as u64
}

// The number of transitions that a table holds.
fn transitions_of(table: &[u32; 9216]) -> u64 {
    let mut n: u64 = 0;
    for i in 0..9216 {
        n += size_of(table[i]);
    }
    n
}

fn print_single(file: &[u8]) {
    match determinism::single_file(file) {
        Ok(Singleness::Single) => {
            io::write_all(1, b" single=yes");
        }
        Ok(Singleness::Multiple) => {
            io::write_all(1, b" single=no");
        }
        Err(refusal) => print_refusal(refusal),
    }
}

fn print_header(header: Header) {
    number(b" states=", header.states as u64);
    number(b" symbols=", header.symbols as u64);
    number(b" rules=", header.rules as u64);
    number(b" initial=", header.initial as u64);
    number(b" final=", header.accepting as u64);
    number(b" branches=", header.branches as u64);
}

fn print_tree(file: &[u8], header: Header) {
    let mut nodes = [0u8; 4096];
    let signature = Signature::from(header);
    match tree::file::read_tree(file, signature, &mut nodes) {
        Ok(k) => number(b" nodes=", k as u64),
        Err(refusal) => print_refusal(refusal),
    }
}

// One case: the tree's file is read where there is one and the automaton's file reads.
fn print_case(automaton: &[u8], tree: &[u8], with_tree: bool) {
    let mut table = [0u32; 9216];
    match transitions::load(automaton, &mut table) {
        Err(refusal) => print_refusal(refusal),
        Ok(header) => {
            if with_tree {
                print_tree(tree, header);
            } else {
                print_header(header);
                print_single(automaton);
                number(b" transitions=", transitions_of(&table));
            }
        }
    }
    io::write_all(1, b"\n");
}

fn has_tree(head: &[u8; 5]) -> bool {
    pair_at(head, 3) != 65535
}

fn tree_length(head: &[u8; 5]) -> usize {
    if has_tree(head) { pair_at(head, 3) } else { 0 }
}

// The label and the two files of a case; false where the input ends before.
fn read_case(head: &[u8; 5], label: &mut [u8], automaton: &mut [u8], tree: &mut [u8]) -> bool {
    if !read_front(label, blocks::wide(head[0]) as usize) {
        return false;
    }
    if !read_front(automaton, pair_at(head, 1)) {
        return false;
    }
    read_front(tree, tree_length(head))
}

// Reads a case and writes its line; false at the end of the input.
fn one_case() -> bool {
    let mut head = [0u8; 5];
    let mut label = [0u8; 256];
    let mut automaton = [0u8; 8192];
    let mut tree = [0u8; 8192];
    if !read_front(&mut head, 5) {
        return false;
    }
    if !read_case(&head, &mut label, &mut automaton, &mut tree) {
        return false;
    }
    io::write_all(1, blocks::front(&label, blocks::wide(head[0]) as usize));
    io::write_all(1, b":");
    print_case(
        blocks::front(&automaton, pair_at(&head, 1)),
        blocks::front(&tree, tree_length(&head)),
        has_tree(&head),
    );
    true
}

fn main() {
    for _ in 0..10000usize {
        if !one_case() {
            return;
        }
    }
}
