// The pass over a node list from its end, a look-up a node: the classes of the trees that it writes, whether the tree is accepted, and the sum of
// the growths of closing at its nodes. Lines 10 to 12 hold of every list for which it answers.
#![tactic(auto)]

mod steps;

ghost use Rattle.std.specs.Prelude.{Some, ◌≡◌, List, ◌∷◌, ℕ, ◌+◌, ◌<◌, ◌≤◌, length, get_or};
ghost use Rattle.model.specs.Trees.{Tree, leaf, node};
ghost use Rattle.algorithms.specs.Automaton.{Automaton};
ghost use Rattle.algorithms.specs.Overloops.{overloops, accepts?};
ghost use Rattle.algorithms.specs.Growth.{growths};
ghost use Rattle.model.specs.declared.Signature.{Signature};
ghost use Rattle.automaton.specs.File.{signature_in};
ghost use Rattle.overloops.specs.Tables.{Tabled};
ghost use Rattle.overloops.specs.Ready.{Headed};
ghost use Rattle.nodes.specs.Preorder.{Writes};
ghost use Rattle.class_tables.specs.Cache.{classes, Cached};
ghost use Rattle.class_tables.specs.declared.Cache.{Cache};
ghost use Rattle.bottom_up.specs.Told.{below_growths, PassedRight, PassedFew, Weighs};
ghost use Rattle.bottom_up.specs.Steps.{Loaded};

use crate::steps::{id, node_step};
use algorithms::is_branch;
use automaton::Header;
use class_tables::{Cache, Store, class_rows, growth_of};
use model::{Place, Side, Symbol};
use nodes::reader::read_at;
use overloops::{close_leaf, close_node};
use passes::{Stack, Verdict, height_over};
use relation::Relation;
use transitions::TransitionTable;

// What the pass found: the classes of the root's parts, and the sum of the growths below the root; or that the root is a leaf, and all.
#[derive(Clone, Copy)]
enum Passed {
    Parts(u32, u32, u32),
    Leaf,
}

// The end of the pass, at the root: the growths at the roots of its parts are added.
fn ended(header: Header, symbol: Symbol, stack: Stack, growth: u32) -> Option<Passed>
    requires { growth ≤ 8388608 }
    ensures { ((A : Automaton) (cache : Cache) (leaves words s : List ℕ)
        → Loaded A (signature_in header) cache leaves words s stack growth
        → PassedRight A (signature_in header) (classes cache.counts) cache.store (symbol.0 ∷ s) result) × PassedFew (growth + 2047) result }
{
    if header.symbols <= symbol.0 {
        return None;
    }
    let top = stack.top;
    if is_branch(header.branches, symbol) {
        if top != 126 {
            return None;
        }
        let first = stack.first;
        let second = stack.second;
        if 64 < height_over(first, second) {
            return None;
        }
        return Some(Passed::Parts(id(first), id(second), growth + growth_of(first, second)));
    }
    if top != 128 {
        return None;
    }
    Some(Passed::Leaf)
}

// The pass over a node list, from its end, each node read by a reader.
fn pass(
    symbols: &[u8],
    header: Header,
    table: &TransitionTable,
    cache: &mut Cache,
) -> Option<Passed>
    requires { (0 < length symbols.now) × (length symbols.now ≤ 4096) × (header.states ≤ 24) × (header.symbols ≤ 32) }
    ensures { ((A : Automaton) → Tabled A header.states table.now → Cached A cache.old
        → Cached A cache.new × PassedRight A (signature_in header) (classes cache.new.counts) cache.new.store symbols.now result) × PassedFew 8388608 result }
{
    let mut words = [0u64; 128];
    let mut leaves = [0u32; 32];
    let mut stack = Stack {
        top: 128,
        first: 0,
        second: 0,
    };
    let mut growth = 0u32;
    for at in (1..symbols.len()).rev() {
        let symbol = read_at(symbols, at)?;
        let (next, sum) = node_step(
            header,
            table,
            symbol,
            stack,
            growth,
            &mut words,
            &mut leaves,
            cache,
        )?;
        stack = next;
        growth = sum;
    }
    ended(header, Symbol(symbols[0]), stack, growth)
}

// Whether a tree is accepted, with the sum of the growths of closing at its nodes; the sum is 0 where it is not known.
#[derive(Clone, Copy)]
pub struct Weighed {
    pub verdict: Verdict,
    pub growth: u32,
}

fn unknown() -> Weighed
    ensures { (A : Automaton) (sg : Signature) (s : List ℕ) → Weighs A sg s result.verdict result.growth }
{
    Weighed {
        verdict: Verdict::Unknown,
        growth: 0,
    }
}

fn verdict_with(accepted: bool, growth: u32) -> Weighed
    ensures { (A : Automaton) (sg : Signature) (s : List ℕ) (t : Tree) → Writes sg s t → accepted ≡ accepts? A t → growth ≡ growths A Place.Root t
        → Weighs A sg s result.verdict result.growth }
{
    let verdict = if accepted {
        Verdict::Accepted
    } else {
        Verdict::Other
    };
    Weighed { verdict, growth }
}

// A branch, from the overloops of its parts and the sum below it.
fn node_weighed(
    header: Header,
    table: &TransitionTable,
    symbol: Symbol,
    left: Relation,
    right: Relation,
    growth: u32,
) -> Weighed
    requires { (header.states ≤ 24) × (symbol.0 < 32) × (growth ≤ 8388608) }
    ensures { (A : Automaton) (sg : Signature) (s : List ℕ) → Headed A header table.now → (t u : Tree)
        → left.rows ≡ overloops A (Place.Child Side.Left) t → right.rows ≡ overloops A (Place.Child Side.Right) u → Writes sg s (node symbol.0 t u)
        → growth ≡ below_growths A (node symbol.0 t u) → Weighs A sg s result.verdict result.growth }
{
    let closed = close_node(
        table,
        header.states as usize,
        symbol,
        Place::Root,
        left,
        right,
    );
    verdict_with(
        closed.relation.meets(header.initial, header.accepting),
        growth + closed.growth,
    )
}

// A leaf.
fn leaf_weighed(header: Header, table: &TransitionTable, symbol: Symbol) -> Weighed
    requires { (header.states ≤ 24) × (symbol.0 < 32) }
    ensures { (A : Automaton) (sg : Signature) (s : List ℕ) → Headed A header table.now → Writes sg s (leaf symbol.0)
        → Weighs A sg s result.verdict result.growth }
{
    let closed = close_leaf(table, header.states as usize, symbol, Place::Root);
    verdict_with(
        closed.relation.meets(header.initial, header.accepting),
        closed.growth,
    )
}

// The verdict at the root, and the sum over the tree, from what the pass found.
fn concluded(
    symbol: Symbol,
    header: Header,
    table: &TransitionTable,
    store: &Store,
    passed: Passed,
) -> Weighed
    requires { (header.states ≤ 24) × PassedFew 8388608 (Some passed) }
    ensures { (A : Automaton) (count : ℕ) (s : List ℕ) → Headed A header table.now → symbol.0 ≡ get_or s 0 0
        → PassedRight A (signature_in header) count store.now s (Some passed) → Weighs A (signature_in header) s result.verdict result.growth }
{
    if 31 < symbol.0 {
        return unknown();
    }
    match passed {
        Passed::Parts(left, right, growth) => {
            if 1023 < left {
                return unknown();
            }
            if 1023 < right {
                return unknown();
            }
            node_weighed(
                header,
                table,
                symbol,
                class_rows(store, left, Side::Left),
                class_rows(store, right, Side::Right),
                growth,
            )
        }
        Passed::Leaf => leaf_weighed(header, table, symbol),
    }
}

// Whether the tree that a node list writes is accepted, and the sum of the growths of closing at its nodes, by a cache.
pub fn judge_nodes(
    symbols: &[u8],
    header: Header,
    table: &TransitionTable,
    cache: &mut Cache,
) -> Weighed
    requires { (0 < length symbols.now) × (length symbols.now ≤ 4096) × (header.states ≤ 24) × (header.symbols ≤ 32) }
    ensures { (A : Automaton) → Headed A header table.now → Cached A cache.old
        → Cached A cache.new × Weighs A (signature_in header) symbols.now result.verdict result.growth }
{
    let symbol = Symbol(symbols[0]);
    match pass(symbols, header, table, cache) {
        Some(passed) => concluded(symbol, header, table, &cache.store, passed),
        None => unknown(),
    }
}
