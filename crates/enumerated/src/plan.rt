// The buffer of a survey: filled with a pattern before, read back after.
use crate::rows;
use sampling::access::{byte, has, set_byte};
use sampling::rules::Automaton;
use search::walk;

// The pattern.
fn mark(i: usize, salt: usize) -> usize {
    (i % 4096 * 7 + salt % 256) % 256
}

pub fn fill(plan: &mut [u8], salt: usize) {
    for i in 0..plan.len() {
        set_byte(plan, i, mark(i, salt));
    }
}

// Whether the bytes from a place on have the pattern still.
pub fn unchanged(plan: &[u8], from: usize, salt: usize) -> bool {
    for i in from..plan.len() {
        if byte(plan, i) != mark(i, salt) {
            return false;
        }
    }
    true
}

// Reads row i; whether it is a leaf symbol alone, or a branch symbol over two earlier rows.
fn read_row(a: Automaton, plan: &[u8], i: usize, list: &mut [usize]) -> bool {
    let at = i % 256 * 3;
    let symbol = byte(plan, at);
    let left = byte(plan, at + 1);
    let right = byte(plan, at + 2);
    if symbol >= a.symbols {
        return false;
    }
    if has(a.branches, symbol) {
        rows::put(list, i, symbol, left, right);
        left < i && right < i
    } else {
        rows::put(list, i, symbol, rows::LEAF, rows::LEAF);
        left == 255 && right == 255
    }
}

fn read(a: Automaton, plan: &[u8], n: usize, list: &mut [usize]) -> bool {
    for i in 0..n {
        if !read_row(a, plan, i, list) {
            return false;
        }
    }
    true
}

// Whether a plan of n rows builds an accepted tree of the height.
pub fn builds(a: Automaton, rules: &[u8], plan: &[u8], height: usize, n: usize) -> bool {
    let mut list = [0usize; 195];
    let mut nodes = [0usize; 8192];
    let mut reached = [0u32; 1024];
    if n == 0 || n > 65 {
        return false;
    }
    if !read(a, plan, n, &mut list) {
        return false;
    }
    let size = rows::unfold(&list, n - 1, &mut nodes);
    size > 0
        && rows::height(&nodes, size) == height
        && walk::accepts(a, rules, &nodes, size, &mut reached)
}
