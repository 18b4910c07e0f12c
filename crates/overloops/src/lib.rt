// The overloops of nodes, formed from the compiled transitions. One function forms the loops of a node, and everything else goes through it.
#![tactic(auto)]

ghost use Rattle.std.specs.Prelude.{◌≡◌, ◌+◌, ◌<◌, ◌≤◌, length, take, drop, replicate};
ghost use Rattle.algorithms.specs.Automaton.{Automaton, Proper};
ghost use Rattle.algorithms.specs.Overloops as spec;
ghost use Rattle.algorithms.specs.Growth.{leaf_growth, node_growth};
ghost use Rattle.transitions.specs.Compiled.{Compiled};
ghost use Rattle.automaton.specs.File.{parsed};
ghost use Rattle.overloops.specs.Tables.{Tabled, side_number, leaf_cell, Leaves, Put};
ghost use Rattle.overloops.specs.Ready.{PreparedAfter};

use automaton::Header;
use model::{Move, Place, Side, State, Symbol};
use refusal::Refusal;
use relation::{Closed, Relation};
use transitions::TransitionTable;

// The overloops of each of 32 leaf symbols on each side: 24 rows each.
pub type LeafTable = [u32; 1536];

// The 24 rows that stand in a table from a place on.
pub fn rows_at(table: &[u32], at: usize) -> Relation
    requires { at + 24 ≤ length table.now }
    ensures { result.rows ≡ take 24 (drop at table.now) }
{
    let mut rows = [0u32; 24];
    for p in 0..24 {
        rows[p] = table[at + p];
    }
    Relation { rows }
}

// The pairs of the transitions with a symbol, a place and a move.
fn moves(table: &TransitionTable, symbol: Symbol, place: Place, step: Move) -> Relation
    requires { symbol.0 < 32 }
    ensures { (A : Automaton) → Compiled A table.now → result.rows ≡ spec.moves A symbol.0 place step }
{
    rows_at(table, transitions::cell(symbol, place, step, State(0)))
}

// The same pairs, as the rows of the table.
fn moves_in(table: &[u32], symbol: Symbol, place: Place, step: Move) -> &[u32]
    requires { (length table.now ≡ 9216) × (symbol.0 < 32) }
    ensures { (length result.now ≡ 24) × ((A : Automaton) → Compiled A table.now → result.now ≡ spec.moves A symbol.0 place step) }
{
    let at = transitions::cell(symbol, place, step, State(0));
    let end = at + 24;
    &table[at..end]
}

// The table that is given at a node at a place, before it is closed, from the rows of its parts' overloops.
fn simple_in(
    table: &TransitionTable,
    symbol: Symbol,
    place: Place,
    left: &[u32; 24],
    right: &[u32; 24],
) -> Relation
    requires { symbol.0 < 32 }
    ensures { (A : Automaton) → Compiled A table.now
        → result.rows ≡ spec.node_simple A place symbol.0 left.now right.now }
{
    moves(table, symbol, place, Move::Stay)
        .join_follow(moves_in(table, symbol, place, Move::Down(Side::Left)), left)
        .join_follow(
            moves_in(table, symbol, place, Move::Down(Side::Right)),
            right,
        )
}

// The loops of a node at a place: that table, closed.
fn loops_in(
    table: &TransitionTable,
    states: usize,
    symbol: Symbol,
    place: Place,
    left: &[u32; 24],
    right: &[u32; 24],
) -> Relation
    requires { (states ≤ 24) × (symbol.0 < 32) }
    ensures { (A : Automaton) → Tabled A states table.now
        → result.rows ≡ spec.node_loops A place symbol.0 left.now right.now }
{
    simple_in(table, symbol, place, left, right).closure(states)
}

// The same with how many pairs closing added.
fn close_in(
    table: &TransitionTable,
    states: usize,
    symbol: Symbol,
    place: Place,
    left: &[u32; 24],
    right: &[u32; 24],
) -> Closed
    requires { (states ≤ 24) × (symbol.0 < 32) }
    ensures { ((A : Automaton) → Tabled A states table.now
        → (result.relation.rows ≡ spec.node_loops A place symbol.0 left.now right.now)
        × (result.growth ≡ node_growth A place symbol.0 left.now right.now)) × (result.growth ≤ 768) }
{
    simple_in(table, symbol, place, left, right).close(states)
}

// A node as a part of its parent: its overloops, and the growth of closing there.
#[derive(Clone, Copy)]
pub struct Part {
    pub overloops: Relation,
    pub growth: u32,
}

// The same from the rows of its own parts' overloops.
pub fn part_in(
    table: &TransitionTable,
    states: usize,
    symbol: Symbol,
    side: Side,
    left: &[u32; 24],
    right: &[u32; 24],
) -> Part
    requires { (states ≤ 24) × (symbol.0 < 32) }
    ensures { ((A : Automaton) → Tabled A states table.now
        → (result.overloops.rows ≡ spec.node_overloops A (Place.Child side) symbol.0 left.now right.now)
        × (result.growth ≡ node_growth A (Place.Child side) symbol.0 left.now right.now)) × (result.growth ≤ 768) }
{
    let place = Place::Child(side);
    let loops = close_in(table, states, symbol, place, left, right);
    Part {
        overloops: loops
            .relation
            .follow(moves_in(table, symbol, place, Move::Up)),
        growth: loops.growth,
    }
}

// The loops of a node at a place, from the overloops of its parts, and the growth of closing there.
pub fn close_node(
    table: &TransitionTable,
    states: usize,
    symbol: Symbol,
    place: Place,
    left: Relation,
    right: Relation,
) -> Closed
    requires { (states ≤ 24) × (symbol.0 < 32) }
    ensures { ((A : Automaton) → Tabled A states table.now
        → (result.relation.rows ≡ spec.node_loops A place symbol.0 left.rows right.rows)
        × (result.growth ≡ node_growth A place symbol.0 left.rows right.rows)) × (result.growth ≤ 768) }
{
    close_in(table, states, symbol, place, &left.rows, &right.rows)
}

// The loops without the growth, which takes less time.
pub fn node_loops(
    table: &TransitionTable,
    states: usize,
    symbol: Symbol,
    place: Place,
    left: Relation,
    right: Relation,
) -> Relation
    requires { (states ≤ 24) × (symbol.0 < 32) }
    ensures { (A : Automaton) → Tabled A states table.now
        → result.rows ≡ spec.node_loops A place symbol.0 left.rows right.rows }
{
    loops_in(table, states, symbol, place, &left.rows, &right.rows)
}

// The overloops of a node as a part of its parent, from those of its own parts.
pub fn node_overloops(
    table: &TransitionTable,
    states: usize,
    symbol: Symbol,
    side: Side,
    left: Relation,
    right: Relation,
) -> Relation
    requires { (states ≤ 24) × (symbol.0 < 32) }
    ensures { (A : Automaton) → Tabled A states table.now
        → result.rows ≡ spec.node_overloops A (Place.Child side) symbol.0 left.rows right.rows }
{
    let place = Place::Child(side);
    loops_in(table, states, symbol, place, &left.rows, &right.rows).follow(moves_in(
        table,
        symbol,
        place,
        Move::Up,
    ))
}

// The loops of a leaf at a place, and the growth of closing there: a node whose parts have no overloops.
pub fn close_leaf(table: &TransitionTable, states: usize, symbol: Symbol, place: Place) -> Closed
    requires { (states ≤ 24) × (symbol.0 < 32) }
    ensures { ((A : Automaton) → Tabled A states table.now
        → (result.relation.rows ≡ spec.leaf_loops A place symbol.0) × (result.growth ≡ leaf_growth A place symbol.0)) × (result.growth ≤ 768) }
{
    close_node(
        table,
        states,
        symbol,
        place,
        Relation::empty(),
        Relation::empty(),
    )
}

// The loops of a leaf without the growth.
pub fn leaf_loops(table: &TransitionTable, states: usize, symbol: Symbol, place: Place) -> Relation
    requires { (states ≤ 24) × (symbol.0 < 32) }
    ensures { (A : Automaton) → Tabled A states table.now → result.rows ≡ spec.leaf_loops A place symbol.0 }
{
    node_loops(
        table,
        states,
        symbol,
        place,
        Relation::empty(),
        Relation::empty(),
    )
}

// A leaf as a part of its parent.
pub fn leaf_part(table: &TransitionTable, states: usize, symbol: Symbol, side: Side) -> Part
    requires { (states ≤ 24) × (symbol.0 < 32) }
    ensures { ((A : Automaton) → Tabled A states table.now
        → (result.overloops.rows ≡ spec.leaf_overloops A (Place.Child side) symbol.0) × (result.growth ≡ leaf_growth A (Place.Child side) symbol.0))
        × (result.growth ≤ 768) }
{
    let none = Relation::empty();
    part_in(table, states, symbol, side, &none.rows, &none.rows)
}

// A side as the number that stands for it.
pub fn side_number(side: Side) -> usize
    ensures { (result ≡ side_number side) × (result < 2) }
{
    match side {
        Side::Left => 0,
        Side::Right => 1,
    }
}

pub fn leaf_cell(symbol: Symbol, side: Side) -> usize
    requires { symbol.0 < 32 }
    ensures { (result ≡ leaf_cell symbol.0 side) × (result + 24 ≤ 1536) }
{
    ((symbol.0 as usize) * 2 + side_number(side)) * 24
}

// The overloops of a leaf as a part, from the table of leaves.
pub fn leaf_overloops(leaves: &LeafTable, symbol: Symbol, side: Side) -> Relation
    requires { symbol.0 < 32 }
    ensures { (A : Automaton) → Proper A → Leaves A leaves.now → result.rows ≡ spec.leaf_overloops A (Place.Child side) symbol.0 }
{
    rows_at(leaves, leaf_cell(symbol, side))
}

// Writes 24 rows into a table from a place on.
pub fn put_rows(table: &mut [u32], at: usize, rows: Relation)
    requires { at + 24 ≤ length table.old }
    ensures { Put at rows.rows table.old table.new }
{
    for p in 0..24 {
        table[at + p] = rows.rows[p];
    }
}

// Writes the overloops of a leaf as a part into the table of leaves.
fn put_leaf(table: &TransitionTable, states: usize, symbol: Symbol, side: Side, leaves: &mut [u32])
    requires { (states ≤ 24) × (symbol.0 < 32) × (length leaves.old ≡ 1536) }
    ensures { (A : Automaton) → Tabled A states table.now
        → Put (leaf_cell symbol.0 side) (spec.leaf_overloops A (Place.Child side) symbol.0) leaves.old leaves.new }
{
    let none = Relation::empty();
    let rows = node_overloops(table, states, symbol, side, none, none);
    put_rows(leaves, leaf_cell(symbol, side), rows);
}

// Fills the table of leaves.
fn fill_leaves(table: &TransitionTable, states: usize, leaves: &mut [u32])
    requires { (states ≤ 24) × (length leaves.old ≡ 1536) }
    ensures { (A : Automaton) → Tabled A states table.now → Leaves A leaves.new }
{
    for symbol in 0..32u8 {
        put_leaf(table, states, Symbol(symbol), Side::Left, leaves);
        put_leaf(table, states, Symbol(symbol), Side::Right, leaves);
    }
}

// Reads an automaton's file and prepares its tables, of which that of the transitions begins as zeros. A refused file leaves both as they were.
pub fn prepare(
    file: &[u8],
    table: &mut TransitionTable,
    leaves: &mut LeafTable,
) -> Result<Header, Refusal>
    requires { table.old ≡ replicate 9216 0 }
    ensures { (result ≡ parsed file.now)
        × PreparedAfter result file.now table.old leaves.old table.new leaves.new }
{
    let header = transitions::load(file, table)?;
    fill_leaves(table, header.states as usize, leaves);
    Ok(header)
}
