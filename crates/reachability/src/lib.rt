// Whether an automaton accepts a tree, by a search over its configurations: a word of states for each node, by its preorder index.
#![tactic(auto)]

ghost use Rattle.std.specs.Prelude.{◌≡◌, true, ◌↔◌, [], ℕ, ◌+◌, ◌<◌, ◌≤◌, length, get_or};
ghost use Rattle.model.specs.declared.Side.TheVariants.{Left, Right};
ghost use Rattle.model.specs.declared.Move.TheVariants.{Up, Down};
ghost use Rattle.algorithms.specs.Automaton.{Automaton};
ghost use Rattle.automaton.specs.File.{signature_in};
ghost use Rattle.transitions.specs.Compiled.{next_in};
ghost use Rattle.overloops.specs.Ready.{Headed};
ghost use Rattle.passes.specs.Verdicts.{Tells};
ghost use Rattle.reachability.specs.Reached.{Found};
ghost use Rattle.reachability.specs.Growth.{Image, Spread, Here, Sent, Either};
ghost use Rattle.reachability.specs.Searched.{Turned, Swept, Taken};

use automaton::Header;
use linking::link_tree;
use links::place_at;
use model::{Move, Signature, State, Symbol};
use passes::{Verdict, verdict_of};
use relation::{lowest, without_lowest};
use transitions::{TransitionTable, cell};

// The states that the steps from some states of a node lead to, by each move.
#[derive(Clone, Copy)]
struct Successors {
    stay: u32,
    up: u32,
    left: u32,
    right: u32,
}

// A node with fresh states, and how many nodes are left on the stack.
#[derive(Clone, Copy)]
struct Popped {
    node: usize,
    height: usize,
}

// The next states of some states, from the rows of a symbol and a place: those of stay begin at `at`.
fn images(table: &TransitionTable, at: usize, states: u32) -> Successors
    requires { at + 96 ≤ 9216 }
    ensures { Image table.now at states result.stay × Image table.now (at + 24) states result.up
        × Image table.now (at + 48) states result.left × Image table.now (at + 72) states result.right }
{
    let mut stay: u32 = 0;
    let mut up: u32 = 0;
    let mut left: u32 = 0;
    let mut right: u32 = 0;
    let mut rest = states % 16777216;
    while rest != 0 {
        let row = at + lowest(rest);
        stay |= table[row];
        up |= table[row + 24];
        left |= table[row + 48];
        right |= table[row + 72];
        rest = without_lowest(rest);
    }
    Successors {
        stay,
        up,
        left,
        right,
    }
}

// Puts a node on the stack, where there is room.
fn push(waiting: &mut [u16], height: usize, node: usize) -> usize
    requires { (height ≤ length waiting.old) × (node < 65536) }
    ensures { result ≤ length waiting.old }
{
    if height == waiting.len() {
        return height;
    }
    waiting[height] = node as u16;
    height + 1
}

// Adds states at a node: those that were not reached yet are fresh.
fn add(
    nodes: usize,
    node: usize,
    states: u32,
    reached: &mut [u32],
    fresh: &mut [u32],
    waiting: &mut [u16],
    height: usize,
) -> usize
    requires { (nodes ≤ 4096) × (nodes ≤ length reached.old) × (nodes ≤ length fresh.old) × (height ≤ length waiting.old) }
    ensures { (result ≤ length waiting.old)
        × Spread nodes (Here node states) reached.old fresh.old reached.new fresh.new }
{
    if nodes <= node {
        return height;
    }
    let old = reached[node];
    let all = old | states;
    if all == old {
        return height;
    }
    let before = fresh[node];
    reached[node] = all;
    fresh[node] = before | (all - old);
    if before != 0 {
        return height;
    }
    push(waiting, height, node)
}

// Adds the states that a step up leads to at the parent of a node; the root has none.
fn climb(
    parents: &[u16],
    nodes: usize,
    node: usize,
    next: Successors,
    reached: &mut [u32],
    fresh: &mut [u32],
    waiting: &mut [u16],
    height: usize,
) -> usize
    requires { (nodes ≤ 4096) × (nodes ≤ length reached.old) × (nodes ≤ length fresh.old) × (height ≤ length waiting.old)
        × (node < length parents.now) }
    ensures { (result ≤ length waiting.old)
        × Spread nodes (Sent parents.now [] node Up next.up) reached.old fresh.old reached.new fresh.new }
{
    if node == 0 {
        return height;
    }
    let parent = parents[node] as usize;
    add(nodes, parent, next.up, reached, fresh, waiting, height)
}

// Adds the states that a step down leads to at the two parts of a node; a leaf has none.
fn descend(
    rights: &[u16],
    nodes: usize,
    node: usize,
    next: Successors,
    reached: &mut [u32],
    fresh: &mut [u32],
    waiting: &mut [u16],
    height: usize,
) -> usize
    requires { (nodes ≤ 4096) × (nodes ≤ length reached.old) × (nodes ≤ length fresh.old) × (height ≤ length waiting.old)
        × (node < length rights.now) × (node < 4096) }
    ensures { (result ≤ length waiting.old)
        × Spread nodes (Either (Sent [] rights.now node (Down Left) next.left) (Sent [] rights.now node (Down Right) next.right))
        reached.old fresh.old reached.new fresh.new }
{
    let part = rights[node] as usize;
    if part == 0 {
        return height;
    }
    let height = add(nodes, node + 1, next.left, reached, fresh, waiting, height);
    add(nodes, part, next.right, reached, fresh, waiting, height)
}

// Takes the steps from the fresh states of a node.
fn turn(
    symbols: &[u8],
    table: &TransitionTable,
    parents: &[u16],
    rights: &[u16],
    node: usize,
    reached: &mut [u32],
    fresh: &mut [u32],
    waiting: &mut [u16],
    height: usize,
) -> usize
    requires { (node < length symbols.now) × (length symbols.now ≤ 4096) × (length symbols.now ≤ length parents.now)
        × (length symbols.now ≤ length rights.now) × (length symbols.now ≤ length reached.old) × (length symbols.now ≤ length fresh.old)
        × (height ≤ length waiting.old) × (get_or symbols.now node 0 < 32) }
    ensures { (result ≤ length waiting.old)
        × Turned (next_in table.now) symbols.now parents.now rights.now node
        reached.old fresh.old reached.new fresh.new }
{
    let nodes = symbols.len();
    let symbol = Symbol(symbols[node]);
    let place = place_at(parents, node);
    let at = cell(symbol, place, Move::Stay, State(0));
    let next = images(table, at, fresh[node]);
    fresh[node] = 0;
    let height = climb(parents, nodes, node, next, reached, fresh, waiting, height);
    let height = descend(rights, nodes, node, next, reached, fresh, waiting, height);
    add(nodes, node, next.stay, reached, fresh, waiting, height)
}

// The first node with fresh states.
fn sweep(fresh: &[u32], nodes: usize) -> Option<usize>
    requires { nodes ≤ length fresh.now }
    ensures { Swept fresh.now nodes result }
{
    for node in 0..nodes {
        if fresh[node] != 0 {
            return Some(node);
        }
    }
    None
}

// A node with fresh states, from the stack; where it has none, by a sweep.
fn pop(fresh: &[u32], waiting: &[u16], nodes: usize, height: usize) -> Option<Popped>
    requires { (nodes ≤ length fresh.now) × (height ≤ length waiting.now) }
    ensures { Taken fresh.now nodes (length waiting.now) result }
{
    for top in (0..height).rev() {
        let node = waiting[top] as usize;
        if node < nodes && fresh[node] != 0 {
            return Some(Popped { node, height: top });
        }
    }
    let node = sweep(fresh, nodes)?;
    Some(Popped { node, height: 0 })
}

// Searches from the root in the start states: whether it is reached in a final state.
fn search(
    symbols: &[u8],
    header: Header,
    table: &TransitionTable,
    parents: &[u16],
    rights: &[u16],
    reached: &mut [u32],
    fresh: &mut [u32],
    waiting: &mut [u16],
) -> bool
    requires { (0 < length symbols.now) × (length symbols.now ≤ 4096) × (length symbols.now ≤ length parents.now)
        × (length symbols.now ≤ length rights.now) × (length symbols.now ≤ length reached.old) × (length symbols.now ≤ length fresh.old)
        × ((i : ℕ) → get_or symbols.now i 0 < 32) × ((i : ℕ) → get_or reached.old i 0 ≡ 0) × ((i : ℕ) → get_or fresh.old i 0 ≡ 0) }
    ensures { (result ≡ true) ↔ Found (next_in table.now) symbols.now parents.now rights.now
        header.initial header.accepting }
{
    let mut height: usize = 0;
    reached[0] = header.initial;
    fresh[0] = header.initial;
    while reached[0] & header.accepting == 0 {
        let Some(popped) = pop(fresh, waiting, symbols.len(), height) else {
            return false;
        };
        height = turn(
            symbols,
            table,
            parents,
            rights,
            popped.node,
            reached,
            fresh,
            waiting,
            popped.height,
        );
    }
    true
}

// The search on a tree of at most N nodes. A local array begins as zeros: of a small one less is cleared.
fn judge_within<const N: usize>(symbols: &[u8], header: Header, table: &TransitionTable) -> Verdict
    requires { (0 < length symbols.now) × (length symbols.now ≤ N) × (N ≤ 4096) × (header.symbols ≤ 32) }
    ensures { (A : Automaton) → Headed A header table.now → Tells A (signature_in header) symbols.now result }
{
    let mut parents = [0u16; N];
    let mut rights = [0u16; N];
    let signature = Signature::from(header);
    if !link_tree(symbols, signature, &mut parents, &mut rights) {
        return Verdict::Unknown;
    }
    let mut reached = [0u32; N];
    let mut fresh = [0u32; N];
    let mut waiting = [0u16; N];
    verdict_of(search(
        symbols,
        header,
        table,
        &parents,
        &rights,
        &mut reached,
        &mut fresh,
        &mut waiting,
    ))
}

// Whether the automaton accepts the tree that a node list writes, by the configurations that are reached from the root in its start states; not
// known where the list is not linked.
pub fn judge_nodes(symbols: &[u8], header: Header, table: &TransitionTable) -> Verdict
    requires { (0 < length symbols.now) × (length symbols.now ≤ 4096) × (header.symbols ≤ 32) }
    ensures { (A : Automaton) → Headed A header table.now → Tells A (signature_in header) symbols.now result }
{
    if symbols.len() <= 512 {
        return judge_within::<512>(symbols, header, table);
    }
    judge_within::<4096>(symbols, header, table)
}
