// Trees as rows: three numbers a row, its symbol and the rows of its left and right parts. The tree of a row is written out as nodes, level
// by level.
use sampling::access::{number, set_number};
use search::trees;

// Stands for both parts of a leaf.
pub const LEAF: usize = 65535;

// The field of a node that has the number of its row.
const ROW: usize = 7;

const SYMBOL: usize = 0;

const LEFT: usize = 1;

const RIGHT: usize = 2;

fn get(rows: &[usize], row: usize, field: usize) -> usize {
    number(rows, row % 65536 * 3 + field % 3)
}

pub fn put(rows: &mut [usize], row: usize, symbol: usize, left: usize, right: usize) {
    let at = row % 65536 * 3;
    set_number(rows, at, symbol);
    set_number(rows, at + 1, left);
    set_number(rows, at + 2, right);
}

// Makes a node the root of a row's tree; its parts are not there yet.
fn stand(rows: &[usize], row: usize, nodes: &mut [usize], node: usize) {
    trees::set(nodes, node, ROW, row);
    trees::set(nodes, node, trees::SYMBOL, get(rows, row, SYMBOL));
}

// Adds the parts of a node as the next two nodes, where it has parts and there is room; how many nodes there are then.
fn add_parts(rows: &[usize], nodes: &mut [usize], node: usize, size: usize) -> usize {
    let row = trees::get(nodes, node, ROW);
    let left = get(rows, row, LEFT);
    let right = get(rows, row, RIGHT);
    if left == LEAF {
        return size;
    }
    if size >= trees::ROOM - 1 {
        return trees::ROOM + 1;
    }
    trees::link(nodes, size, node, 1);
    stand(rows, left, nodes, size);
    trees::link(nodes, size + 1, node, 2);
    stand(rows, right, nodes, size + 1);
    size + 2
}

// Writes the tree of a row, and gives back the number of its nodes, or 0 where there is no room.
pub fn unfold(rows: &[usize], row: usize, nodes: &mut [usize]) -> usize {
    let mut size: usize = 1;
    stand(rows, row, nodes, 0);
    for node in 0..trees::ROOM {
        if node >= size {
            return size;
        }
        size = add_parts(rows, nodes, node, size);
        if size > trees::ROOM {
            return 0;
        }
    }
    0
}

// The height of a tree that was written level by level: how deep its last node is.
pub fn height(nodes: &[usize], size: usize) -> usize {
    if size > 0 {
        trees::get(nodes, size - 1, trees::DEPTH)
    } else {
        0
    }
}
