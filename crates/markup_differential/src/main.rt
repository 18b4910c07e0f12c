// Compares the trees' files that the engine writes for element texts with a reading of its own, on texts by chance, of which every second one is
// damaged, and for automata by chance, of which some are damaged. All bytes of the output are compared. For each kind of answer it writes how often
// it has to be given to right texts and to damaged ones, and how often the engine differs.
#![tactic(auto)]

mod compare;
mod kinds;

use parses::answer::Expected;
use parses::{answer, room};
use sampling::access::number;
use sampling::report::{count, row, text};
use search::files;
use texts::automata::File;
use texts::{automata, damage, forest};

const TEXTS: usize = 8000;

// Has the engine answer to text k, and counts the kind of answer among those to right texts (from 0 on) or damaged ones (16), and among the
// differences (32).
fn compare_one(
    counts: &mut [usize],
    k: usize,
    file: &[u8],
    input: &[u8],
    e: Expected,
    tree_file: &[u8],
) {
    let room = room::room_of(k, e.length);
    let expected = room::in_room(e, room);
    let kind = kinds::kind_of(expected, input.len()) % 16;
    count(counts, k % 2 * 16 + kind);
    if !compare::is_right(file, input, room, expected, tree_file) {
        count(counts, 32 + kind);
    }
}

// The automaton's refusal, if there is one, or that of the text.
fn first(f: File, e: Expected) -> Expected {
    if f.number == 0 {
        e
    } else {
        answer::refused(f.number, 0, f.place)
    }
}

fn compare_text(counts: &mut [usize], k: usize, f: File, file: &[u8], input: &[u8]) {
    let mut stack = [0usize; forest::STACK];
    let mut nodes = [0u8; forest::STACK];
    let mut tree_file = [0u8; 4608];
    let e = answer::expected_of(f.branches, input, &mut stack, &mut nodes, &mut tree_file);
    compare_one(counts, k, file, input, first(f, e), &tree_file);
}

// Makes text k, every second one damaged; its length.
fn make(text: &mut [u8], k: usize, branches: u32) -> usize {
    let mut stack = [0usize; forest::STACK];
    let n = forest::make(text, &mut stack, k, branches);
    if k % 2 == 0 {
        n
    } else {
        damage::make(text, n, k)
    }
}

fn make_and_compare(counts: &mut [usize], k: usize) {
    let mut file = [0u8; 3072];
    let mut input = [0u8; forest::ROOM];
    let f = automata::write(k, &mut file);
    let n = make(&mut input, k, f.branches);
    compare_text(
        counts,
        k,
        f,
        files::front(&file, f.length),
        files::front(&input, n),
    );
}

fn compare_all(counts: &mut [usize]) {
    for k in 0..TEXTS {
        make_and_compare(counts, k);
    }
}

fn main() {
    let mut counts = [0usize; 48];
    compare_all(&mut counts);
    text(b"written; 18: too long, ends early, at a byte; 19: at 0, later; 4; 12; 13; 1 to 9\n");
    row(b"right texts:", &counts, 0, 10);
    row(b"damaged texts:", &counts, 16, 26);
    row(b"differences:", &counts, 32, 42);
}
