// The contents and the lengths of trees' files by chance, right or damaged. Symbol 1 is the one branch symbol, and 0 the one leaf symbol.
use crate::chance::pick;
use crate::definition::needed;

// The number of nodes of a file, from 1 to 4096: any, 1 more than 64 times a number up to 33, where a block ends, the most, or few.
fn count_of(n: usize) -> usize {
    let x = pick(n, 20, 4294967295);
    match x % 5 {
        0 => x / 8 % 4096 + 1,
        1 => x / 8 % 34 * 64 + 1,
        2 => 508 * (x / 8 % 8) + 501 + x / 64 % 7,
        3 => 4092 + x / 8 % 5,
        _ => x / 8 % 48 + 1,
    }
}

// The symbol at an offset. A multiple of 64 and one node more are a tree: of each 64 the first is on a chain of right children, and the
// others are its left part, a chain of left children; the last node is a leaf. The height is at most 64. Other nodes are bytes by chance.
fn symbol(n: usize, nodes: usize, offset: usize) -> usize {
    if nodes % 64 != 1 {
        return pick(offset, n, 256);
    }
    if offset == nodes % 65536 + 3 {
        return 0;
    }
    if (offset % 64 + 60) % 64 < 32 { 1 } else { 0 }
}

// The header as a word. Some files have offset 1, the kind, or the number of nodes wrong: none, any, or one more.
fn header(nodes: usize, x: usize) -> usize {
    let right = nodes % 8192 * 65536 + 84;
    match x % 32 {
        0 => right + 256,
        1 => right + x / 32 % 64,
        2 => 84,
        3 => x % 4294967296 / 65536 * 65536 + 84,
        4 => x / 32 % 4096 * 65536 + 84,
        5 => right + 65536,
        _ => right,
    }
}

// Which of each 300 offsets the bytes of the filler that are not zero have, one or two: those of its first byte, of the last of the block, or
// any; 300 where all are zero.
fn spot(nodes: usize, x: usize) -> usize {
    let first = nodes % 65536 + 4;
    match x % 8 {
        0 => first % 300,
        1 => (first / 508 * 508 + 507) % 300,
        2 => x / 8 % 300,
        _ => 300,
    }
}

// The byte at a place of a file that is no check's.
pub fn byte_of(n: usize, i: usize) -> usize {
    let nodes = count_of(n);
    let offset = i % 65536 - i % 65536 / 512 * 4;
    if offset < 4 {
        return header(nodes, pick(n, 21, 4294967295)) >> (8 * offset);
    }
    if offset < nodes % 65536 + 4 {
        return symbol(n, nodes, offset);
    }
    if offset % 300 == spot(nodes, pick(n, 22, 4294967295)) {
        return 1 + n % 255;
    }
    0
}

// The length of a file: some have a block more or fewer than are needed, or bytes after the blocks.
pub fn length_of(n: usize) -> usize {
    let x = pick(n, 23, 65536);
    let end = 512 * needed(count_of(n));
    match x % 32 {
        0 => end + 512,
        1 => end - 512,
        2 => end + x / 32 % 512,
        _ => end,
    }
}
