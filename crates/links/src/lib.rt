// The links of a node list: the parent, the side and the right part of each node, by its preorder index.
#![tactic(auto)]

ghost use Rattle.std.specs.Prelude.{◌≡◌, ◌++◌, ◌+◌, ◌<◌, ◌≤◌, length, drop};
ghost use Rattle.std.proofs.lemmas.List.Edits.{sets};
ghost use Rattle.model.specs.Trees.{Tree, size};
ghost use Rattle.nodes.specs.Preorder.{Stands};
ghost use Rattle.links.specs.Links.{parents_from, rights_from, parents_of, rights_of, place_in};

use algorithms::is_branch;
use model::{Place, Side, Symbol};

// Fills the tables for the tree at node `at`, which is a part of node `parent`, and gives the node after it.
fn link_part(
    symbols: &[u8],
    branches: u32,
    at: usize,
    parent: u16,
    parents: &mut [u16],
    rights: &mut [u16],
) -> usize
    requires { (length symbols.now ≤ 4096) × (at ≤ length symbols.now) × (length symbols.now ≤ length parents.old)
        × (length symbols.now ≤ length rights.old) }
    ensures { (at ≤ result) × (result ≤ length symbols.now) × ((u : Tree) → Stands branches symbols.now at u
        → (result ≡ at + size u) × (parents.new ≡ sets parents.old at (parents_from parent at u))
        × (rights.new ≡ sets rights.old at (rights_from at u))) }
{
    if symbols.len() <= at {
        return at;
    }
    parents[at] = parent;
    if !is_branch(branches, Symbol(symbols[at])) {
        rights[at] = 0;
        return at + 1;
    }
    let here = at as u16;
    let right = link_part(symbols, branches, at + 1, here, parents, rights);
    rights[at] = right as u16;
    link_part(symbols, branches, right, here, parents, rights)
}

// Writes the links of the tree that a node list writes to the front of two tables: the parent of each node, and the right part of each branch.
pub fn link(symbols: &[u8], branches: u32, parents: &mut [u16], rights: &mut [u16])
    requires { (length symbols.now ≤ 4096) × (length symbols.now ≤ length parents.old) × (length symbols.now ≤ length rights.old) }
    ensures { (t : Tree) → Stands branches symbols.now 0 t
        → (parents.new ≡ parents_of t ++ drop (size t) parents.old)
        × (rights.new ≡ rights_of t ++ drop (size t) rights.old) }
{
    link_part(symbols, branches, 0, 0, parents, rights);
}

// The place of a node, from the table of parents: a left part follows its parent.
pub fn place_at(parents: &[u16], node: usize) -> Place
    requires { node < length parents.now }
    ensures { result ≡ place_in parents.now node }
{
    if node == 0 {
        return Place::Root;
    }
    if (parents[node] as usize) + 1 == node {
        return Place::Child(Side::Left);
    }
    Place::Child(Side::Right)
}
