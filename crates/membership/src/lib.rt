// Membership: whether an automaton accepts a tree, and the sum of the growths of closing over its nodes, by the overloops of its parts, from the
// leaves up.
#![tactic(auto)]

pub mod leaves;

ghost use Rattle.std.specs.Prelude.{◌≡◌, ℕ, ◌+◌, ◌*◌, ◌<◌, ◌≤◌, length, get_or};
ghost use Rattle.model.specs.Trees.{Tree, size};
ghost use Rattle.algorithms.specs.Automaton.{Automaton};
ghost use Rattle.algorithms.specs.Overloops.{overloops, loops, accepts?};
ghost use Rattle.algorithms.specs.Growth.{growths};
ghost use Rattle.nodes.specs.Preorder.{Stands};
ghost use Rattle.automaton.specs.File.{WithinLimits};
ghost use Rattle.overloops.specs.Tables.{Tabled};
ghost use Rattle.overloops.specs.Ready.{Headed};
ghost use Rattle.membership.specs.Judged.{accepted_if, judged_by};
ghost use Rattle.membership.specs.Grown.{growth_by};
ghost use Rattle.membership.specs.LeafTables.{LeafParts};

use crate::leaves::{LeafGrowths, fill, leaf_at};
use algorithms::is_branch;
use automaton::Header;
use model::{Place, Side, Signature, Symbol};
use overloops::{LeafTable, close_leaf, close_node, part_in};
use refusal::Refusal;
use relation::{Closed, Relation};
use transitions::TransitionTable;

// What judging answers of a tree that is not refused: accepted or not.
#[derive(Clone, Copy)]
pub enum Answer {
    Accepted,
    Other,
}

// An answer with the sum of growths over the nodes of the tree; 0 where it is refused.
#[derive(Clone, Copy)]
pub struct Judged {
    pub answer: Result<Answer, Refusal>,
    pub growth: u32,
}

// The overloops of the tree at a node, the sum of growths over its nodes, and the node after it.
#[derive(Clone, Copy)]
struct Part {
    overloops: Relation,
    growth: u32,
    next: usize,
}

// The tree at node `at`, as the part of its parent on a side.
fn part_at(
    symbols: &[u8],
    branches: u32,
    states: usize,
    table: &TransitionTable,
    leaves: &LeafTable,
    grown: &LeafGrowths,
    at: usize,
    side: Side,
) -> Part
    requires { (states ≤ 24) × (length symbols.now ≤ 4096) × (at ≤ length symbols.now) × ((i : ℕ) → get_or symbols.now i 0 < 32) }
    ensures { (at ≤ result.next) × (result.next ≤ length symbols.now) × (result.growth + 1024 * at ≤ 1024 * result.next)
        × ((A : Automaton) (n : ℕ) → Tabled A states table.now → LeafParts n branches A leaves.now grown.now
        → ((i : ℕ) → i < length symbols.now → get_or symbols.now i 0 < n) → (t : Tree) → Stands branches symbols.now at t
        → (result.overloops.rows ≡ overloops A (Place.Child side) t) × (result.growth ≡ growths A (Place.Child side) t) × (result.next ≡ at + size t)) }
{
    if symbols.len() <= at {
        return Part {
            overloops: Relation::empty(),
            growth: 0,
            next: at,
        };
    }
    let symbol = Symbol(symbols[at]);
    if !is_branch(branches, symbol) {
        let leaf = leaf_at(leaves, grown, symbol, side);
        let overloops = leaf.overloops;
        return Part {
            overloops,
            growth: leaf.growth,
            next: at + 1,
        };
    }
    let left = part_at(
        symbols,
        branches,
        states,
        table,
        leaves,
        grown,
        at + 1,
        Side::Left,
    );
    let right = part_at(
        symbols,
        branches,
        states,
        table,
        leaves,
        grown,
        left.next,
        Side::Right,
    );
    let l = left.overloops;
    let r = right.overloops;
    let part = part_in(table, states, symbol, side, &l.rows, &r.rows);
    let overloops = part.overloops;
    Part {
        overloops,
        growth: part.growth + left.growth + right.growth,
        next: right.next,
    }
}

// The loops at the root of the whole tree, and the sum of growths over all nodes.
fn close_tree(
    symbols: &[u8],
    branches: u32,
    states: usize,
    table: &TransitionTable,
    leaves: &LeafTable,
    grown: &LeafGrowths,
) -> Closed
    requires { (0 < length symbols.now) × (length symbols.now ≤ 4096) × (states ≤ 24) × ((i : ℕ) → get_or symbols.now i 0 < 32) }
    ensures { (A : Automaton) (n : ℕ) → Tabled A states table.now → LeafParts n branches A leaves.now grown.now
        → ((i : ℕ) → i < length symbols.now → get_or symbols.now i 0 < n) → (t : Tree) → Stands branches symbols.now 0 t
        → (result.relation.rows ≡ loops A Place.Root t) × (result.growth ≡ growths A Place.Root t) }
{
    let symbol = Symbol(symbols[0]);
    if !is_branch(branches, symbol) {
        return close_leaf(table, states, symbol, Place::Root);
    }
    let left = part_at(
        symbols,
        branches,
        states,
        table,
        leaves,
        grown,
        1,
        Side::Left,
    );
    let right = part_at(
        symbols,
        branches,
        states,
        table,
        leaves,
        grown,
        left.next,
        Side::Right,
    );
    let l = left.overloops;
    let r = right.overloops;
    let root = close_node(table, states, symbol, Place::Root, l, r);
    let relation = root.relation;
    Closed {
        relation,
        growth: root.growth + left.growth + right.growth,
    }
}

// Whether the tree that a node list writes is accepted, with the sum of growths.
#[derive(Clone, Copy)]
struct Weighed {
    accepted: bool,
    growth: u32,
}

fn weigh(symbols: &[u8], header: Header, table: &TransitionTable) -> Weighed
    requires { (0 < length symbols.now) × (length symbols.now ≤ 4096) × WithinLimits header × ((i : ℕ) → get_or symbols.now i 0 < 32) }
    ensures { (A : Automaton) → Headed A header table.now
        → ((i : ℕ) → i < length symbols.now → get_or symbols.now i 0 < header.symbols)
        → (t : Tree) → Stands header.branches symbols.now 0 t → (result.accepted ≡ accepts? A t) × (result.growth ≡ growths A Place.Root t) }
{
    let states = header.states as usize;
    let mut leaves = [0u32; 1536];
    let mut growths = [0u32; 64];
    fill(
        table,
        states,
        header.symbols,
        header.branches,
        &mut leaves,
        &mut growths,
    );
    let closed = close_tree(symbols, header.branches, states, table, &leaves, &growths);
    let loops = closed.relation;
    Weighed {
        accepted: loops.meets(header.initial, header.accepting),
        growth: closed.growth,
    }
}

// The answer of a tree that was read.
fn answer_of(accepted: bool) -> Answer
    ensures { result ≡ accepted_if accepted }
{
    if accepted {
        Answer::Accepted
    } else {
        Answer::Other
    }
}

// Judges a tree's file by an automaton that was read, with the sum of growths.
pub fn judge_file(header: Header, table: &TransitionTable, file: &[u8]) -> Judged
    requires { WithinLimits header }
    ensures { (A : Automaton) → Headed A header table.now
        → (result.answer ≡ judged_by A file.now) × (result.growth ≡ growth_by A file.now) }
{
    let mut nodes = [0u8; 4096];
    let signature = Signature::from(header);
    match tree::file::read_tree(file, signature, &mut nodes) {
        Err(refusal) => {
            Judged {
                answer: Err(refusal),
                growth: 0,
            }
        }
        Ok(k) => {
            let weighed = weigh(&nodes[..k], header, table);
            Judged {
                answer: Ok(answer_of(weighed.accepted)),
                growth: weighed.growth,
            }
        }
    }
}
