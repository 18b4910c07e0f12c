// Files by chance: of blocks before TREES, and of trees from there on. However a block was damaged, what matters is its contents and by how
// much its check is off: words of one block that change places, or of which one gains what another loses, put no check off.
use crate::chance::pick;
use crate::definition::{check_of, sum_of};
use crate::trees;
use sampling::access::set_byte;
use sampling::random::scattered;

const TREES: usize = 16000;

// A word of contents: all bytes by chance (0), all 255 (1), or nearly all zero but for some words.
fn word_of(kind: usize, x: usize) -> usize {
    if kind == 0 {
        return x;
    }
    if kind == 1 {
        return 4294967295;
    }
    if x % 100 == 0 { x } else { 0 }
}

// By how much a damaged check is off: the number of the next block or of the one before, no number, 1 alone, a bit or a word that changed,
// the check summed too, the last three words not.
fn off(way: usize, block: usize, x: usize, check: usize, last: usize) -> usize {
    match way {
        0 => 1,
        1 => 4294967295,
        2 => 4294967295 - block % 64,
        3 => 4294967296 - block % 64,
        4 => 1usize << (x % 32),
        5 => x % 4294967296,
        6 => check % 4294967296,
        _ => 4294967296 - last % 4294967296,
    }
}

// The check that a block has. Half of the files of blocks, and some of trees, are damaged from a block on.
fn stored(file: &[u8], n: usize, block: usize) -> usize {
    let check = check_of(file, block);
    let x = pick(n, 1, 4294967295);
    let last = sum_of(file, block % 64 * 512 + 496, 3);
    if block < pick(n, 2, n / TREES * 88 + 12) {
        return check;
    }
    check + off(x % 8, block, x, check, last) % 8589934592
}

// The byte at a place of a file whose bytes before it are written.
fn byte_of(file: &[u8], n: usize, i: usize) -> usize {
    if 507 < i % 512 {
        return stored(file, n, i / 512) >> (i % 4 * 8);
    }
    if n < TREES {
        return word_of(n % 3, scattered(n * 2048 + i / 4 % 2048)) >> (i % 4 * 8);
    }
    trees::byte_of(n, i)
}

// Writes the first bytes of a file.
pub fn fill(file: &mut [u8], n: usize, len: usize) {
    for i in 0..len {
        set_byte(file, i, byte_of(file, n, i));
    }
}

// The length of a file. A third of those of blocks have bytes after these.
pub fn length_of(n: usize) -> usize {
    if TREES <= n {
        return trees::length_of(n);
    }
    let x = pick(n, 3, 6656);
    if n % 9 < 3 { x } else { x / 512 * 512 }
}
