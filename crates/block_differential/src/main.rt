// Compares the checks of blocks, the joining of their contents, and the lines 1 to 6 of the refusals of a tree's file with a definition that
// shares nothing with the engine: on a file of nine blocks with each bit damaged, on files of blocks by chance, and on trees' files by
// chance. It writes what each family had, and how often the engine differs.
#![tactic(auto)]

mod compare;

use block_files::files;
use sampling::access::{byte, number, set_byte};
use sampling::report::{count, row};

// A file whose first nine blocks have bytes by chance and right checks.
const NINE: usize = 3;

// Counts: the outcomes of each family, from 16 times its number, and all differences (64).
fn slot(family: usize, outcome: usize) -> usize {
    if outcome == 15 {
        return 64;
    }
    family % 4 * 16 + outcome % 15
}

// The outcome of a file with one bit damaged, or with none where the bit is after its end. The bit is put right again.
fn bit_outcome(file: &mut [u8], bit: usize) -> usize {
    let at = bit / 8;
    let right = byte(file, at);
    set_byte(file, at, right ^ (1usize << (bit % 8)));
    let outcome = compare::check_outcome(file);
    set_byte(file, at, right);
    outcome
}

// A file with each of its bits damaged alone, and as it is.
fn compare_bits(counts: &mut [usize], file: &mut [u8]) {
    for bit in 0..36865usize {
        count(counts, slot(3, bit_outcome(file, bit)));
    }
}

fn compare_files(counts: &mut [usize]) {
    for k in 0..24000usize {
        count(counts, slot(k / 8000, compare::outcome(k)));
    }
}

fn print(counts: &[usize]) {
    row(b"each bit: right, block 0 wrong, later:", counts, 48, 51);
    row(b"blocks: right, block 0 wrong, later:", counts, 0, 3);
    row(b"joined: 0 to 12 blocks:", counts, 16, 29);
    row(b"trees: accepted, refused 1 to 12:", counts, 32, 45);
    row(b"differences", counts, 64, 65);
}

fn main() {
    let mut counts = [0usize; 65];
    let mut nine = [0u8; 4608];
    files::fill(&mut nine, NINE, 4608);
    compare_bits(&mut counts, &mut nine);
    compare_files(&mut counts);
    print(&counts);
}
