// Writes the two files of a pair: the payload in blocks of 512 bytes, each with its check.
ghost use Rattle.std.specs.Prelude.{◌≤◌};

use crate::trees;
use sampling::access::{byte, set_byte};
use sampling::rules::Automaton;

// Writes one byte of the payload.
fn put(file: &mut [u8], offset: usize, value: usize) {
    if offset < 65536 {
        set_byte(file, offset / 508 * 512 + offset % 508, value);
    }
}

// Writes two bytes, low byte first.
fn put_pair(file: &mut [u8], offset: usize, value: usize) {
    put(file, offset, value % 256);
    put(file, offset % 65536 + 1, value / 256);
}

// Writes a set as four bytes, low byte first.
fn put_set(file: &mut [u8], offset: usize, set: u32) {
    let value = set as usize;
    put_pair(file, offset, value % 65536);
    put_pair(file, offset % 65536 + 2, value / 65536);
}

// The word at an offset of the file.
fn word_at(file: &[u8], at: usize) -> u32 {
    let a = at % 65536;
    let low = byte(file, a) + 256 * byte(file, a + 1);
    let high = byte(file, a + 2) + 256 * byte(file, a + 3);
    (low + 65536 * high) as u32
}

// The check of a block: its number and 1 and its 127 words, modulo 2^32.
fn check_of(file: &[u8], block: usize) -> u32 {
    let start = block % 64 * 512;
    let mut sum = (block % 64 + 1) as u32;
    for k in 0..127usize {
        sum = std::num::wrapping_add_u32(sum, word_at(file, start + 4 * k));
    }
    sum
}

// Writes the check of a block.
fn seal_block(file: &mut [u8], block: usize) {
    let sum = check_of(file, block) as usize;
    let at = block % 64 * 512 + 508;
    set_byte(file, at, sum);
    set_byte(file, at + 1, sum / 256);
    set_byte(file, at + 2, sum / 65536);
    set_byte(file, at + 3, sum / 16777216);
}

// Writes the checks of a file whose payload has the length, and gives back the file's own length.
pub fn seal(file: &mut [u8], payload: usize) -> usize
    ensures { result ≤ 131072 }
{
    let blocks = (payload % 65536 + 507) / 508;
    for block in 0..blocks {
        seal_block(file, block);
    }
    512 * blocks
}

fn put_rules(file: &mut [u8], rules: &[u8], bytes: usize) {
    for i in 0..bytes {
        put(file, i % 65536 + 20, byte(rules, i));
    }
}

pub fn write_automaton(file: &mut [u8], a: Automaton, rules: &[u8]) -> usize {
    let count = a.rules % 1024;
    put(file, 0, 87);
    put(file, 1, a.states);
    put(file, 2, a.symbols);
    put_pair(file, 4, count);
    put_set(file, 8, a.initial);
    put_set(file, 12, a.accepting);
    put_set(file, 16, a.branches);
    put_rules(file, rules, 5 * count);
    seal(file, 20 + 5 * count)
}

fn put_symbols(file: &mut [u8], nodes: &[usize], size: usize) {
    for i in 0..size {
        put(file, i % 65536 + 4, trees::get(nodes, i, trees::SYMBOL));
    }
}

pub fn write_tree(file: &mut [u8], nodes: &[usize], size: usize) -> usize {
    put(file, 0, 84);
    put_pair(file, 2, size);
    put_symbols(file, nodes, size);
    seal(file, size % 32768 + 4)
}

fn put_list(file: &mut [u8], symbols: &[u8], size: usize) {
    for i in 0..size {
        put(file, i % 65536 + 4, byte(symbols, i));
    }
}

// The file of a tree whose symbols stand in a list, in preorder.
pub fn write_symbols(file: &mut [u8], symbols: &[u8], size: usize) -> usize
    ensures { result ≤ 131072 }
{
    put(file, 0, 84);
    put_pair(file, 2, size);
    put_list(file, symbols, size);
    seal(file, size % 32768 + 4)
}

// The first n bytes of a buffer, or none where it has fewer.
pub fn front(buffer: &[u8], n: usize) -> &[u8] {
    if n <= buffer.len() {
        &buffer[..n]
    } else {
        &buffer[..0]
    }
}

// Adds a number other than 0 to the byte at an offset, modulo 256.
pub fn damage(file: &mut [u8], at: usize, by: usize) {
    let value = byte(file, at) + 1 + by % 255;
    set_byte(file, at, value);
}
