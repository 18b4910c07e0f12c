// Trees by chance of up to 4,095 nodes: those of `search`, and branches over two copies of one. A node has the eight numbers that it has there, so
// that the search can go over a tree of at most 1,024 nodes as it stands. It has nothing of the engine.
#![tactic(auto)]

use sampling::access::{number, set_number};
use sampling::random::{chance, draw};
use search::trees;
use search::trees::Shape;

// The room for the numbers of a tree.
pub const ROOM: usize = 32768;

pub fn get(nodes: &[usize], node: usize, field: usize) -> usize {
    number(nodes, node % 4096 * 8 + field % 8)
}

fn set(nodes: &mut [usize], node: usize, field: usize, value: usize) {
    set_number(nodes, node % 4096 * 8 + field % 8, value);
}

// The first node so many steps below the root, or the number of nodes.
pub fn first_at(nodes: &[usize], size: usize, depth: usize) -> usize {
    for node in 0..size {
        if get(nodes, node, trees::DEPTH) == depth {
            return node;
        }
    }
    size
}

// ---- copies

// What is added to a number of a node that comes behind so many others and so much deeper.
fn added(field: usize, behind: usize, deeper: usize) -> usize {
    match field {
        trees::PARENT | trees::LEFT | trees::RIGHT => behind,
        trees::DEPTH => deeper,
        _ => 0,
    }
}

// Copies so many nodes.
fn copy(nodes: &mut [usize], from: &[usize], size: usize, behind: usize, deeper: usize) {
    for i in 0..size % 4096 * 8 {
        let value = number(from, i) % 4096 + added(i % 8, behind, deeper) % 4096;
        set_number(nodes, behind % 4096 * 8 + i, value);
    }
}

// Copies a tree as the left (1) or right (2) part of the root.
fn copy_part(nodes: &mut [usize], from: &[usize], size: usize, behind: usize, side: usize) {
    copy(nodes, from, size, behind, 1);
    set(nodes, behind, trees::PARENT, 0);
    set(nodes, behind, trees::SIDE, side);
    set(nodes, 0, side % 4 + 1, behind);
}

// The tree becomes a branch of its root's symbol over two copies of it; the number of nodes.
fn double(nodes: &mut [usize], size: usize) -> usize {
    let mut whole = [0usize; ROOM];
    let right = size % 2048 + 1;
    copy_part(&mut whole, nodes, size, 1, 1);
    copy_part(&mut whole, nodes, size, right, 2);
    set(&mut whole, 0, trees::SYMBOL, get(nodes, 0, trees::SYMBOL));
    set(&mut whole, 0, trees::BRANCH, 1);
    copy(nodes, &whole, 2 * right - 1, 0, 0);
    2 * right - 1
}

// The same, unless it is a leaf, has too many nodes or is too high.
fn may_double(nodes: &mut [usize], size: usize) -> usize {
    if size > 1 && size < 2048 && first_at(nodes, size, 64) == size {
        double(nodes, size)
    } else {
        size
    }
}

// ---- trees

// More often by chance or full than another.
fn large(random: &mut u64) -> Shape {
    let kind = if chance(random, 1, 2) {
        draw(random, 5)
    } else {
        4 * draw(random, 2)
    };
    let height = if kind == 4 {
        7 + draw(random, 3)
    } else {
        40 + draw(random, 25)
    };
    let most = 300 + draw(random, 724);
    Shape {
        kind,
        height,
        most,
        eighths: 4,
    }
}

fn make_large(random: &mut u64, nodes: &mut [usize], symbols: usize, branches: u32) -> usize {
    let shape = large(random);
    let size = trees::grow(random, nodes, shape, symbols, branches);
    let doubled = may_double(nodes, size);
    may_double(nodes, doubled)
}

// Makes a tree over the symbols in an array that was all zero, and gives back the number of its nodes.
pub fn make(random: &mut u64, nodes: &mut [usize], symbols: usize, branches: u32) -> usize {
    if chance(random, 1, 6) {
        make_large(random, nodes, symbols, branches)
    } else {
        let shape = trees::choose(random);
        trees::grow(random, nodes, shape, symbols, branches)
    }
}
