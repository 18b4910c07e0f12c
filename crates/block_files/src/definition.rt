// Document 01's blocks and the lines 1 to 6 of its refusals of a tree's file, written anew: a block is summed by columns of bytes, and
// nothing here is the engine's.
ghost use Rattle.std.specs.Prelude.{◌<◌, ◌≤◌, IfSome};

use sampling::access::byte;

// A refusal is told as 16 times its file, which is 1, and its number, times this, and its place.
pub const LINE: usize = 65536;

const LENGTH: usize = 17 * 65536;

const CHECK: usize = 18 * 65536;

const KIND: usize = 19 * 65536;

const COUNT: usize = 20 * 65536 + 2;

const SIZE: usize = 21 * 65536;

const FILLER: usize = 22 * 65536;

const FILLER_1: usize = 22 * 65536 + 1;

// The sum of the bytes at an offset and at each fourth one after it.
fn column(file: &[u8], at: usize, words: usize) -> usize
    ensures { result ≤ 32640 }
{
    let first = at % 65536;
    let count = words % 129;
    let mut sum = 0;
    for k in 0..count {
        sum += byte(file, first + 4 * k);
    }
    sum
}

// The sum of the words that begin at an offset, lowest byte first, modulo 2^32. There are at most 128.
pub fn sum_of(file: &[u8], at: usize, words: usize) -> usize
    ensures { result ≤ 4294967295 }
{
    let a = at % 65536;
    let low = column(file, a, words) + 256 * column(file, a + 1, words);
    let high = column(file, a + 2, words) + 256 * column(file, a + 3, words);
    (low + 65536 * high) % 4294967296
}

// The check that a block ought to have.
pub fn check_of(file: &[u8], block: usize) -> usize
    ensures { result ≤ 4294967295 }
{
    let b = block % 64;
    (sum_of(file, 512 * b, 127) + b + 1) % 4294967296
}

// The lowest block whose check is wrong.
pub fn lowest_wrong(file: &[u8]) -> Option<usize>
    ensures { IfSome result (λ b. b < 64) }
{
    let blocks = file.len() / 512 % 64;
    for b in 0..blocks {
        if sum_of(file, 512 * b + 508, 1) != check_of(file, b) {
            return Some(b);
        }
    }
    None
}

// Where a byte of the contents stands: four bytes further for each check before it.
pub fn place_of(offset: usize) -> usize {
    let o = offset % 65536;
    o + 4 * (o / 508)
}

// The fewest blocks that hold so many nodes and the header.
pub fn needed(nodes: usize) -> usize
    ensures { (1 ≤ result) × (result ≤ 130) }
{
    (nodes % 65536 + 3) / 508 + 1
}

// Line 1.
fn length_line(length: usize) -> usize {
    if length == 0 {
        return LENGTH;
    }
    if length % 512 != 0 {
        return LENGTH;
    }
    if 4608 < length { LENGTH } else { 0 }
}

// Line 2.
fn check_line(file: &[u8]) -> usize {
    match lowest_wrong(file) {
        Some(b) => CHECK + b,
        None => 0,
    }
}

// Lines 3 to 5, and line 6 at offset 1, of a header's first half and its number of nodes, in so many blocks.
fn header_line(half: usize, nodes: usize, blocks: usize) -> usize {
    let fewest = needed(nodes);
    if half % 256 != 84 {
        return KIND;
    }
    if nodes == 0 {
        return COUNT;
    }
    if 4096 < nodes {
        return COUNT;
    }
    if blocks != fewest {
        return SIZE + fewest;
    }
    if half == 84 { 0 } else { FILLER_1 }
}

// Line 6 of the filler, from one offset to another.
fn filler_line(file: &[u8], from: usize, to: usize) -> usize {
    for at in from..to {
        if byte(file, place_of(at)) != 0 {
            return FILLER + at % 65536;
        }
    }
    0
}

// The first of two lines that applies.
fn first(line: usize, other: usize) -> usize {
    if line == 0 { other } else { line }
}

// The first of the lines 1 to 6 that applies to a tree's file; 0 where none does.
pub fn refusal(file: &[u8]) -> usize {
    let length = file.len();
    let header = sum_of(file, 0, 1);
    let filler = filler_line(file, header / 65536 + 4, length / 512 * 508);
    let content = first(
        header_line(header % 65536, header / 65536, length / 512),
        filler,
    );
    first(first(length_line(length), check_line(file)), content)
}
