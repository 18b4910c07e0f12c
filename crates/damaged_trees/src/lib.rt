// Files of trees, right and damaged. A damaged one has the refusal that document 01 has for it, from the way it was damaged: nothing reads
// the file. It has nothing of the engine.
#![tactic(auto)]

ghost use Rattle.std.specs.Prelude.{◌≤◌};

use damaged::Damaged;
use sampling::access::set_byte;
use sampling::random::{chance, draw};
use sampling::rules::Automaton;
use search::files;
use search::trees::{SYMBOL, Shape, grow};

// The room for a file, and for one that is too long.
pub const ROOM: usize = 5632;

pub fn refused(length: usize, number: usize, place: usize) -> Damaged {
    Damaged {
        length,
        number,
        place,
    }
}

fn list(nodes: &[usize], symbols: &mut [u8], size: usize) {
    for i in 0..size {
        set_byte(symbols, i, large_trees::get(nodes, i, SYMBOL));
    }
}

// Writes a tree's file to a buffer that was all zero; its length.
pub fn write(file: &mut [u8], nodes: &[usize], size: usize) -> usize
    ensures { result ≤ 131072 }
{
    let mut symbols = [0u8; 4096];
    list(nodes, &mut symbols, size);
    files::write_symbols(file, &symbols, size)
}

// Where the byte at an offset of the contents stands.
fn place_of(offset: usize) -> usize {
    let o = offset % 65536;
    o / 508 * 512 + o % 508
}

// ---- a file of n bytes

// The file is cut, empty or too long, or a byte of it is another.
fn spoiled(random: &mut u64, file: &mut [u8], n: usize) -> Damaged {
    match draw(random, 6) {
        0 => refused(0, 1, 0),
        1 => refused(5120, 1, 0),
        2 => refused(draw(random, n) / 512 * 512 + 1, 1, 0),
        _ => {
            let at = draw(random, n);
            files::damage(file, at, draw(random, 255));
            refused(n, 2, at / 512)
        }
    }
}

// A block too many or, where there are more than one, too few.
fn wrong_length(random: &mut u64, file: &mut [u8], n: usize, size: usize) -> Damaged {
    if n > 512 && (n >= 4608 || chance(random, 1, 2)) {
        return refused(n - 512, 5, n / 512);
    }
    refused(files::seal(file, size % 65536 + 512), 5, n / 512)
}

// A byte of the contents that is another, its value, and the refusal.
#[derive(Clone, Copy)]
struct Change {
    offset: usize,
    value: usize,
    number: usize,
    place: usize,
}

fn changed_to(offset: usize, value: usize, number: usize, place: usize) -> Change {
    Change {
        offset,
        value,
        number,
        place,
    }
}

// A byte of the filler, or offset 1 where there is none.
fn filler(random: &mut u64, n: usize, size: usize) -> usize {
    let first = size % 65536 + 4;
    let end = n / 512 * 508;
    if first < end {
        first + draw(random, end - first)
    } else {
        1
    }
}

// The kind, the number of nodes, offset 1, the filler, or a node with a symbol that there is none of.
fn choose(random: &mut u64, n: usize, size: usize, symbols: usize) -> Change {
    let value = 17 + draw(random, 239);
    let offset = filler(random, n, size);
    let node = draw(random, size % 65536);
    match draw(random, 6) {
        0 => changed_to(0, value + 68, 3, 0),
        1 => changed_to(3, value, 4, 2),
        2 => changed_to(1, value, 6, 1),
        3 => changed_to(offset, value, 6, offset),
        _ => changed_to(node + 4, symbols % 64 + value % 128, 10, node),
    }
}

// The file has such a change, and its checks are right.
fn sealed(random: &mut u64, file: &mut [u8], n: usize, size: usize, symbols: usize) -> Damaged {
    let made = choose(random, n, size, symbols);
    set_byte(file, place_of(made.offset), made.value);
    files::seal(file, size % 65536 + 4);
    refused(n, made.number, made.place)
}

// ---- files of other nodes

// Nodes at the end are missing, or there are more.
fn wrong_count(random: &mut u64, file: &mut [u8], nodes: &[usize], size: usize) -> Damaged {
    let s = size % 4096;
    if s > 1 && chance(random, 1, 2) {
        let k = 1 + draw(random, s - 1);
        return refused(write(file, nodes, k), 11, k);
    }
    let more = 1 + draw(random, 4096 - s) % 9;
    refused(write(file, nodes, s + more), 11, s)
}

// A comb or a zigzag that is too high.
fn wrong_height(random: &mut u64, file: &mut [u8], a: Automaton) -> Damaged {
    let mut nodes = [0usize; large_trees::ROOM];
    let kind = 1 + draw(random, 3);
    let height = 65 + draw(random, 8);
    let shape = Shape {
        kind,
        height,
        most: 0,
        eighths: 0,
    };
    let size = grow(random, &mut nodes, shape, a.symbols, a.branches);
    refused(
        write(file, &nodes, size),
        12,
        large_trees::first_at(&nodes, size, 65),
    )
}

fn in_blocks(
    random: &mut u64,
    file: &mut [u8],
    nodes: &[usize],
    size: usize,
    symbols: usize,
    way: usize,
) -> Damaged {
    let n = write(file, nodes, size);
    match way {
        0 => spoiled(random, file, n),
        1 => wrong_length(random, file, n, size),
        _ => sealed(random, file, n, size, symbols),
    }
}

// A damaged file of a tree, in a buffer that was all zero.
pub fn make(
    random: &mut u64,
    a: Automaton,
    nodes: &[usize],
    size: usize,
    file: &mut [u8],
) -> Damaged {
    let way = draw(random, if a.branches == 0 { 7 } else { 8 });
    match way {
        6 => wrong_count(random, file, nodes, size),
        7 => wrong_height(random, file, a),
        _ => in_blocks(random, file, nodes, size, a.symbols, way),
    }
}
