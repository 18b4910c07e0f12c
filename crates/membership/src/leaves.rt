// The leaves of an automaton as parts, formed once for a tree: their overloops, and the growth of closing there.
ghost use Rattle.std.specs.Prelude.{◌≡◌, false, ℕ, ◌+◌, ◌<◌, ◌≤◌, length, set};
ghost use Rattle.relation.specs.Sets.{member};
ghost use Rattle.model.specs.declared.Place.{Place};
ghost use Rattle.algorithms.specs.Automaton.{Automaton, Proper};
ghost use Rattle.algorithms.specs.Overloops.{leaf_overloops};
ghost use Rattle.algorithms.specs.Growth.{leaf_growth};
ghost use Rattle.overloops.specs.Tables.{leaf_cell, Tabled, Put};
ghost use Rattle.membership.specs.LeafTables.{growth_place, LeafParts};

use algorithms::is_branch;
use model::{Side, Symbol};
use overloops::{LeafTable, Part, leaf_cell, leaf_part, put_rows, rows_at, side_number};
use transitions::TransitionTable;

// The growth of closing of each of 32 leaf symbols on each side.
pub type LeafGrowths = [u32; 64];

// Where the growth of a leaf on a side stands.
fn growth_place(symbol: Symbol, side: Side) -> usize
    requires { symbol.0 < 32 }
    ensures { (result ≡ growth_place symbol.0 side) × (result < 64) }
{
    (symbol.0 as usize) * 2 + side_number(side)
}

// A leaf as a part, from the tables.
pub fn leaf_at(leaves: &LeafTable, growths: &LeafGrowths, symbol: Symbol, side: Side) -> Part
    requires { symbol.0 < 32 }
    ensures { ((A : Automaton) (n branches : ℕ) → Proper A → LeafParts n branches A leaves.now growths.now
        → symbol.0 < n → member branches symbol.0 ≡ false → (result.overloops.rows ≡ leaf_overloops A (Place.Child side) symbol.0) × (result.growth ≡ leaf_growth A (Place.Child side) symbol.0))
        × (result.growth < 1024) }
{
    Part {
        overloops: rows_at(leaves, leaf_cell(symbol, side)),
        growth: growths[growth_place(symbol, side)] % 1024,
    }
}

// Writes a leaf as a part into the tables.
fn put_leaf(
    table: &TransitionTable,
    states: usize,
    symbol: Symbol,
    side: Side,
    leaves: &mut [u32],
    growths: &mut [u32],
)
    requires { (states ≤ 24) × (symbol.0 < 32) × (length leaves.old ≡ 1536) × (length growths.old ≡ 64) }
    ensures { ((A : Automaton) → Tabled A states table.now
        → Put (leaf_cell symbol.0 side) (leaf_overloops A (Place.Child side) symbol.0) leaves.old leaves.new
        × (growths.new ≡ set growths.old (growth_place symbol.0 side) (leaf_growth A (Place.Child side) symbol.0)))
        × (length leaves.new ≡ 1536) × (length growths.new ≡ 64) }
{
    let part = leaf_part(table, states, symbol, side);
    put_rows(leaves, leaf_cell(symbol, side), part.overloops);
    growths[growth_place(symbol, side)] = part.growth;
}

// Writes a symbol's leaf into the tables, on both sides, where it is a leaf symbol.
fn put_symbol(
    table: &TransitionTable,
    states: usize,
    symbol: Symbol,
    branches: u32,
    leaves: &mut [u32],
    growths: &mut [u32],
)
    requires { (states ≤ 24) × (symbol.0 < 32) × (length leaves.old ≡ 1536) × (length growths.old ≡ 64) }
    ensures { ((A : Automaton) → Tabled A states table.now → LeafParts symbol.0 branches A leaves.old growths.old
        → LeafParts (symbol.0 + 1) branches A leaves.new growths.new)
        × (length leaves.new ≡ 1536) × (length growths.new ≡ 64) }
{
    if is_branch(branches, symbol) {
        return;
    }
    put_leaf(table, states, symbol, Side::Left, leaves, growths);
    put_leaf(table, states, symbol, Side::Right, leaves, growths);
}

// Fills the tables for the leaf symbols below a number.
pub fn fill(
    table: &TransitionTable,
    states: usize,
    symbols: u8,
    branches: u32,
    leaves: &mut [u32],
    growths: &mut [u32],
)
    requires { (states ≤ 24) × (symbols ≤ 32) × (length leaves.old ≡ 1536) × (length growths.old ≡ 64) }
    ensures { (A : Automaton) → Tabled A states table.now → LeafParts symbols branches A leaves.new growths.new }
{
    for symbol in 0..symbols {
        put_symbol(table, states, Symbol(symbol), branches, leaves, growths);
    }
}
