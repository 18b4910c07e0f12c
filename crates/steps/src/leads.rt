// Whether some step leads from one configuration to another.
ghost use Rattle.std.specs.Prelude.{◌≡◌, List, ℕ, ◌<◌, length, get_or};
ghost use Rattle.model.specs.declared.Move.TheVariants.{Up, Down};
ghost use Rattle.transitions.specs.Compiled.{next_in};
ghost use Rattle.steps.specs.Choices.{Makes};
ghost use Rattle.steps.specs.Successors.{goes};
ghost use Rattle.steps.specs.Leads.{arrives, leads_by, leads_in};

pub use crate::Configuration;
use links::place_at;
use model::{Move, Place, Side, Symbol};
use transitions::TransitionTable;

// Whether a node's part is the node `next`.
fn descends(rights: &[u16], node: usize, side: Side, next: usize) -> bool
    requires { (node < length rights.now) × (node < 65536) }
    ensures { (parents : List ℕ) (q : ℕ) → result ≡ arrives (goes parents rights.now node (Makes (Down side) q)) next }
{
    let right = rights[node] as usize;
    if right == 0 {
        return false;
    }
    match side {
        Side::Left => node + 1 == next,
        Side::Right => right == next,
    }
}

// Whether a node's parent is the node `next`.
fn climbs(parents: &[u16], node: usize, next: usize) -> bool
    requires { node < length parents.now }
    ensures { (rights : List ℕ) (q : ℕ) → result ≡ arrives (goes parents.now rights node (Makes Up q)) next }
{
    if node == 0 {
        return false;
    }
    (parents[node] as usize) == next
}

// Whether a move leads from a node to the node `next`.
fn moves(parents: &[u16], rights: &[u16], node: usize, step: Move, next: usize) -> bool
    requires { (node < length parents.now) × (node < length rights.now) × (node < 65536) }
    ensures { (q : ℕ) → result ≡ arrives (goes parents.now rights.now node (Makes step q)) next }
{
    match step {
        Move::Stay => node == next,
        Move::Up => climbs(parents, node, next),
        Move::Down(side) => descends(rights, node, side, next),
    }
}

// Whether a transition with a move leads from one configuration to another, by the node's symbol and place.
fn leads_by(
    table: &TransitionTable,
    parents: &[u16],
    rights: &[u16],
    symbol: Symbol,
    place: Place,
    from: Configuration,
    to: Configuration,
    step: Move,
) -> bool
    requires { (from.node < length parents.now) × (from.node < length rights.now) × (from.node < 65536) × (symbol.0 < 32) × (from.state.0 < 24) }
    ensures { result ≡ leads_by (next_in table.now) parents.now rights.now symbol.0 place
        from.node from.state.0 to.node to.state.0 step }
{
    if !moves(parents, rights, from.node, step, to.node) {
        return false;
    }
    let cell = transitions::cell(symbol, place, step, from.state);
    relation::set::contains(table[cell], to.state.0)
}

// Whether some transition does.
pub fn leads(
    nodes: &[u8],
    table: &TransitionTable,
    parents: &[u16],
    rights: &[u16],
    from: Configuration,
    to: Configuration,
) -> bool
    requires { (from.node < length nodes.now) × (from.node < length parents.now) × (from.node < length rights.now) × (from.node < 65536)
        × (get_or nodes.now from.node 0 < 32) × (from.state.0 < 24) }
    ensures { result ≡ leads_in (next_in table.now) nodes.now parents.now rights.now
        from.node from.state.0 to.node to.state.0 }
{
    let node = from.node;
    let symbol = Symbol(nodes[node]);
    let place = place_at(parents, node);
    if leads_by(table, parents, rights, symbol, place, from, to, Move::Stay) {
        return true;
    }
    if leads_by(table, parents, rights, symbol, place, from, to, Move::Up) {
        return true;
    }
    let left = Move::Down(Side::Left);
    if leads_by(table, parents, rights, symbol, place, from, to, left) {
        return true;
    }
    let right = Move::Down(Side::Right);
    leads_by(table, parents, rights, symbol, place, from, to, right)
}
