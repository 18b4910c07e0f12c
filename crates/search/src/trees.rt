// Trees by chance. A node has eight numbers in the array of nodes; nodes are numbered in preorder, the root is node 0.
use sampling::access::{has, modulo, number, set_number};
use sampling::random::{chance, draw};

pub const SYMBOL: usize = 0;

pub const PARENT: usize = 1;

pub const LEFT: usize = 2;

pub const RIGHT: usize = 3;

// 0 at the root, 1 at a left child, 2 at a right child.
pub const SIDE: usize = 4;

pub const DEPTH: usize = 5;

// 1 at a branch.
pub const BRANCH: usize = 6;

// The most nodes that a tree may have here.
pub const ROOM: usize = 1024;

pub fn get(nodes: &[usize], node: usize, field: usize) -> usize {
    number(nodes, node % ROOM * 8 + field % 8)
}

pub fn set(nodes: &mut [usize], node: usize, field: usize, value: usize) {
    set_number(nodes, node % ROOM * 8 + field % 8, value);
}

// What a tree is to look like: its kind (0 by chance, 1 comb down the left, 2 comb down the right, 3 zigzag, 4 full), its height, and for
// kind 0 the most nodes and how many branches among eight nodes.
#[derive(Clone, Copy)]
pub struct Shape {
    pub kind: usize,
    pub height: usize,
    pub most: usize,
    pub eighths: usize,
}

// The most nodes of a tree by chance: mostly small, sometimes more than a block of the file holds.
fn most_nodes(random: &mut u64) -> usize {
    if chance(random, 1, 16) {
        505 + draw(random, 400)
    } else {
        1 + draw(random, 60)
    }
}

// A shape by chance.
pub fn choose(random: &mut u64) -> Shape {
    let kind = modulo(draw(random, 8), 5);
    let height = if kind == 4 {
        draw(random, 7)
    } else {
        1 + draw(random, 64)
    };
    let most = most_nodes(random);
    let eighths = 3 + draw(random, 4);
    Shape {
        kind,
        height,
        most,
        eighths,
    }
}

// Whether a node of a tree by chance becomes a branch, where `open` subtrees are still to come after it.
fn branch_by_chance(
    random: &mut u64,
    shape: Shape,
    node: usize,
    depth: usize,
    open: usize,
) -> bool {
    let most = shape.most;
    if node >= most {
        return false;
    }
    if depth >= 64 || most - node < open % 4096 + 3 {
        return false;
    }
    if open == 0 {
        chance(random, 7, 8)
    } else {
        chance(random, shape.eighths, 8)
    }
}

// Whether a node, whose parent is on the way down that the shape has, becomes a branch.
fn branch_by_shape(shape: Shape, depth: usize, side: usize) -> bool {
    if depth >= shape.height {
        return false;
    }
    let kind = shape.kind;
    match kind {
        1 => depth == 0 || side == 1,
        2 => depth == 0 || side == 2,
        3 => depth == 0 || side == 1 + depth % 2,
        _ => true,
    }
}

// The nearest node at or above a leaf that is a left child, from there its parent: the node whose right child comes next.
fn next_parent(nodes: &[usize], leaf: usize) -> usize {
    let mut node = leaf;
    for _ in 0..65usize {
        if get(nodes, node, SIDE) == 1 {
            return get(nodes, node, PARENT);
        }
        node = get(nodes, node, PARENT);
    }
    0
}

// Makes a node the left (1) or right (2) child of another.
pub fn link(nodes: &mut [usize], node: usize, parent: usize, side: usize) {
    set(nodes, node, PARENT, parent);
    set(nodes, node, SIDE, side);
    set(nodes, node, DEPTH, get(nodes, parent, DEPTH) % 4096 + 1);
    if side == 1 {
        set(nodes, parent, LEFT, node);
    } else {
        set(nodes, parent, RIGHT, node);
    }
}

// Gives a node its parent: the node before it in preorder, or the one that waits for its right child.
fn attach(nodes: &mut [usize], node: usize) {
    if node == 0 {
        return;
    }
    let previous = node - 1;
    if get(nodes, previous, BRANCH) == 1 {
        link(nodes, node, previous, 1);
    } else {
        let parent = next_parent(nodes, previous);
        link(nodes, node, parent, 2);
    }
}

// A symbol that is a branch symbol, or one that is none.
fn symbol_of(random: &mut u64, symbols: usize, branches: u32, branch: bool) -> usize {
    let first = draw(random, symbols);
    for k in 0..32usize {
        let symbol = modulo(first % 32 + k, symbols);
        if has(branches, symbol) == branch {
            return symbol;
        }
    }
    0
}

// Whether a node becomes a branch.
fn decide(random: &mut u64, nodes: &[usize], node: usize, shape: Shape, open: usize) -> bool {
    let depth = get(nodes, node, DEPTH);
    if shape.kind == 0 {
        branch_by_chance(random, shape, node, depth, open)
    } else {
        branch_by_shape(shape, depth, get(nodes, node, SIDE))
    }
}

// Makes one node, and gives back how many subtrees are still to come, `open` of them before it.
fn add_node(
    random: &mut u64,
    nodes: &mut [usize],
    node: usize,
    shape: Shape,
    symbols: usize,
    branches: u32,
    open: usize,
) -> usize {
    attach(nodes, node);
    let left = open % 4096;
    let branch = branches != 0 && decide(random, nodes, node, shape, left);
    let symbol = symbol_of(random, symbols, branches, branch);
    set(nodes, node, SYMBOL, symbol);
    if branch {
        set(nodes, node, BRANCH, 1);
        left + 2
    } else {
        left
    }
}

// Makes a tree over the symbols, and gives back the number of its nodes.
pub fn grow(
    random: &mut u64,
    nodes: &mut [usize],
    shape: Shape,
    symbols: usize,
    branches: u32,
) -> usize {
    let mut open: usize = 0;
    for node in 0..ROOM {
        open = add_node(random, nodes, node, shape, symbols, branches, open);
        if open == 0 {
            return node + 1;
        }
        open -= 1;
    }
    0
}
