// A plan as bytes, three a row: refusal 15, the size of its tree, and the tree's nodes.
ghost use Rattle.std.specs.Prelude.{◌≡◌, ◌++◌, ◌+◌, ◌*◌, ◌/◌, ◌<◌, ◌≤◌, min, length, drop};
ghost use Rattle.std.proofs.lemmas.List.Edits.{sets};
ghost use Rattle.blocks.specs.Search.{lowest};
ghost use Rattle.witness.specs.Plan.{rows_in, row_tree, plan_tree, length_wrong, parts_wrong, row_wrong, plan_check};
ghost use Rattle.witness.specs.Sound.{Sound, Sized};
ghost use Rattle.model.specs.Trees.{size};
ghost use Rattle.nodes.specs.Preorder.{preorder};

use algorithms::is_branch;
use model::{Signature, Symbol};
use refusal::lines::refuse_at;
use refusal::{Fault, Refusal, refused};
use representatives::Row;

// Whether a plan cannot have so many bytes.
fn length_wrong(n: usize) -> bool
    ensures { result ≡ length_wrong n }
{
    if n == 0 {
        return true;
    }
    if n % 3 != 0 {
        return true;
    }
    195 < n
}

// Whether a row of a branch or of a leaf symbol has the wrong bytes for its parts.
fn parts_wrong(branch: bool, row: Row, left: u8, right: u8) -> bool
    ensures { result ≡ parts_wrong branch row.0 left right }
{
    if branch {
        if row.0 <= left {
            return true;
        }
        return row.0 <= right;
    }
    if left != 255 {
        return true;
    }
    right != 255
}

// Whether a row is wrong.
fn row_wrong(signature: Signature, plan: &[u8], row: Row) -> bool
    requires { 3 * row.0 + 3 ≤ length plan.now }
    ensures { result ≡ row_wrong signature plan.now row.0 }
{
    let at = 3 * row.0 as usize;
    let symbol = plan[at];
    if signature.symbols <= symbol {
        return true;
    }
    let branch = is_branch(signature.branches, Symbol(symbol));
    parts_wrong(branch, row, plan[at + 1], plan[at + 2])
}

// The first wrong row.
fn first_wrong(signature: Signature, plan: &[u8]) -> Option<usize>
    requires { length plan.now ≤ 195 }
    ensures { result ≡ lowest (row_wrong signature plan.now) (length plan.now / 3) }
{
    let rows = plan.len() / 3;
    for i in 0..rows {
        if row_wrong(signature, plan, Row(i as u8)) {
            return Some(i);
        }
    }
    None
}

// Refusal 15.
pub fn plan_check(signature: Signature, plan: &[u8]) -> Result<(), Refusal>
    ensures { result ≡ plan_check signature plan.now }
{
    if length_wrong(plan.len()) {
        return refused(Fault::Plan, 2, 0);
    }
    refuse_at(Fault::Plan, 2, first_wrong(signature, plan))
}

// The size of a row's tree, at most 4,097, from the sizes of the earlier rows.
fn row_size(plan: &[u8], sizes: &[usize; 65], row: Row) -> usize
    requires { Sound plan.now × (row.0 < rows_in plan.now) × Sized plan.now sizes.now row.0 }
    ensures { result ≡ min (size (row_tree plan.now row.0)) 4097 }
{
    let at = 3 * row.0 as usize;
    let left = plan[at + 1];
    if left == 255 {
        return 1;
    }
    let right = plan[at + 2];
    let all = 1 + sizes[left as usize] + sizes[right as usize];
    if 4097 < all {
        return 4097;
    }
    all
}

// The size of the last row's tree, at most 4,097.
pub fn plan_size(plan: &[u8]) -> usize
    requires { Sound plan.now }
    ensures { result ≡ min (size (plan_tree plan.now)) 4097 }
{
    let mut sizes = [0usize; 65];
    let rows = plan.len() / 3;
    for i in 0..rows {
        let here = row_size(plan, &sizes, Row(i as u8));
        sizes[i] = here;
    }
    sizes[rows - 1]
}

// Writes the nodes of a row's tree, in preorder, from `at` on, and returns the place after them.
fn write_row(plan: &[u8], row: Row, nodes: &mut [u8], at: usize) -> usize
    requires { Sound plan.now × (row.0 < rows_in plan.now) × (at + size (row_tree plan.now row.0) ≤ length nodes.old) }
    ensures { (result ≡ at + size (row_tree plan.now row.0))
        × (nodes.new ≡ sets nodes.old at (preorder (row_tree plan.now row.0))) }
{
    let start = 3 * row.0 as usize;
    let left = plan[start + 1];
    nodes[at] = plan[start];
    let below = at + 1;
    if left == 255 {
        return below;
    }
    let right = plan[start + 2];
    let middle = write_row(plan, Row(left), nodes, below);
    write_row(plan, Row(right), nodes, middle)
}

// Writes the nodes of the last row's tree to the front of `nodes`, and returns how many there are.
pub fn write_nodes(plan: &[u8], nodes: &mut [u8]) -> usize
    requires { Sound plan.now × (size (plan_tree plan.now) ≤ length nodes.old) }
    ensures { (result ≡ size (plan_tree plan.now)) × (nodes.new ≡ preorder (plan_tree plan.now) ++ drop result nodes.old) }
{
    let last = plan.len() / 3 - 1;
    write_row(plan, Row(last as u8), nodes, 0)
}
