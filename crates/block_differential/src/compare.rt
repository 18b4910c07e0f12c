// The engine beside the definition. An outcome is a number below 15 that tells the kind of the file, or 15 where the engine differs.
use block_files::definition::LINE;
use block_files::{definition, files};
use model::Signature;
use refusal::Refusal;
use sampling::access::byte;

const SIGNATURE: Signature = Signature {
    symbols: 2,
    branches: 2,
};

// What a table that the engine writes to holds before.
const BEFORE: u8 = 165;

// The first n bytes of a table, or none where it has fewer.
fn front(table: &[u8], n: usize) -> &[u8] {
    if n <= table.len() {
        &table[..n]
    } else {
        &table[..0]
    }
}

// The outcome of a search for a wrong check: none (0), that of block 0 (1), that of a later one (2).
pub fn check_outcome(file: &[u8]) -> usize {
    let found = blocks::first_bad_block(file);
    if found != definition::lowest_wrong(file) {
        return 15;
    }
    match found {
        None => 0,
        Some(0) => 1,
        Some(_) => 2,
    }
}

// What is to stand at a place of a table after so many bytes of the contents, from an offset on, were written to its front. Where the
// number is that of a refusal, nothing was.
fn after(file: &[u8], from: usize, count: usize, i: usize) -> usize {
    if LINE <= count {
        return BEFORE as usize;
    }
    if count <= i {
        return BEFORE as usize;
    }
    byte(file, definition::place_of(from % 8 + i))
}

fn is_written(table: &[u8], file: &[u8], from: usize, count: usize) -> bool {
    let end = table.len();
    for i in 0..end {
        if byte(table, i) != after(file, from, count, i) {
            return false;
        }
    }
    true
}

// The length that the engine gives back.
fn join(file: &[u8], out: &mut [u8]) -> usize {
    if file.len() / 512 * 508 <= out.len() {
        blocks::join(file, out)
    } else {
        0
    }
}

// The outcome of a joining: the number of blocks.
fn join_outcome(file: &[u8]) -> usize {
    let mut out = [BEFORE; 6400];
    let length = join(file, &mut out);
    if length != file.len() / 512 * 508 {
        return 15;
    }
    if is_written(&out, file, 0, length) {
        return length / 508 % 15;
    }
    15
}

// What the engine tells of a tree's file: the nodes, or a refusal as the definition tells it.
fn told(parsed: Result<usize, Refusal>) -> usize {
    match parsed {
        Ok(k) => k % 65536,
        Err(refusal) => {
            let line = refusal.file as usize * 16 + refusal.number as usize;
            line * LINE + refusal.place % 65536
        }
    }
}

// From FIRST on and before AFTER are the refusals by the lines 10 to 12.
const FIRST: usize = 26 * 65536;

const AFTER: usize = 29 * 65536;

// Whether what was told is right. Where none of the lines 1 to 6 applies, the nodes are accepted or refused by the lines 10 to 12.
fn is_right(file: &[u8], found: usize) -> bool {
    let expected = definition::refusal(file);
    if expected != 0 {
        return found == expected;
    }
    if found < FIRST {
        return found == definition::sum_of(file, 0, 1) / 65536;
    }
    found < AFTER
}

// The outcome of a reading: accepted (0), or refused by that number.
fn read(file: &[u8], nodes: &mut [u8; 4096]) -> usize {
    let found = told(tree::file::read_tree(file, SIGNATURE, nodes));
    if !is_right(file, found) {
        return 15;
    }
    if is_written(nodes, file, 4, found) {
        return found / LINE % 16;
    }
    15
}

fn read_outcome(file: &[u8]) -> usize {
    let mut nodes = [BEFORE; 4096];
    read(file, &mut nodes)
}

// The outcome of comparison k: of 8000 files of blocks, of the same joined, and of 8000 files of trees.
pub fn outcome(k: usize) -> usize {
    let n = k % 8000 + k / 16000 * 16000;
    let mut table = [0u8; 6656];
    let length = files::length_of(n);
    files::fill(&mut table, n, length);
    let file = front(&table, length);
    match k / 8000 {
        0 => check_outcome(file),
        1 => join_outcome(file),
        _ => read_outcome(file),
    }
}
