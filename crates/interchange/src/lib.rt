// Rows of the saturation that are interchangeable: as parts on a side of a node with a symbol they do the same, wherever the node is, so that
// the first of them is enough there. Two rows are that if their overloops on the side agree in every state that a step down to it enters.
#![tactic(auto)]

ghost use Rattle.std.specs.Prelude.{◌≡◌, true, ℕ, ◌+◌, ◌*◌, ◌<◌, ◌≤◌, length, get_or, take, drop};
ghost use Rattle.std.specs.Int.Bits.{bit_and};
ghost use Rattle.relation.specs.Bit.{bit};
ghost use Rattle.algorithms.specs.Automaton.{Automaton};
ghost use Rattle.algorithms.specs.Overloops.{moves};
ghost use Rattle.algorithms.specs.Saturate.{Parts};
ghost use Rattle.overloops.specs.Tables.{side_number};
ghost use Rattle.transitions.specs.Compiled.{Compiled};
ghost use Rattle.representatives.specs.Stored.{class_in};
ghost use Rattle.interchange.specs.Interchange.{Doubled, LeadsInto, word_place, EntersAt, Enters, SameOutside, MarkedAt, Marked};

use model::{Move, Place, Side, State, Symbol};
use overloops::side_number;
use relation::set::contains;
use representatives::{Row, RowTable};
use transitions::{TransitionTable, cell};

// For each of 32 symbols, on the left and on the right: the set of the states that a step down to that side enters.
pub type Entered = [u32; 64];

// For each of 64 rows, on the left and on the right: the set of the symbols at which the row is interchangeable there with an earlier row.
pub type Doubles = [u32; 128];

// The states that the pairs of the 24 rows from a place on lead to.
fn targets(table: &[u32], at: usize) -> u32
    requires { at + 24 ≤ length table.now }
    ensures { LeadsInto (take 24 (drop at table.now)) result }
{
    let mut set: u32 = 0;
    for p in 0..24 {
        set |= table[at + p];
    }
    set
}

// The states that a step down to a side enters at one place.
fn entered_at(table: &TransitionTable, symbol: Symbol, place: Place, side: Side) -> u32
    requires { symbol.0 < 32 }
    ensures { (A : Automaton) → Compiled A table.now → LeadsInto (moves A symbol.0 place (Move.Down side)) result }
{
    targets(table, cell(symbol, place, Move::Down(side), State(0)))
}

// The same at any place.
fn entered_by(table: &TransitionTable, symbol: Symbol, side: Side) -> u32
    requires { symbol.0 < 32 }
    ensures { (A : Automaton) → Compiled A table.now → EntersAt A symbol.0 side result }
{
    let root = entered_at(table, symbol, Place::Root, side);
    let left = entered_at(table, symbol, Place::Child(Side::Left), side);
    let right = entered_at(table, symbol, Place::Child(Side::Right), side);
    root | left | right
}

// Fills the table of entered states for the first symbols.
pub fn fill_entered(table: &TransitionTable, symbols: u8, entered: &mut [u32])
    requires { (symbols ≤ 32) × (length entered.old ≡ 64) }
    ensures { (A : Automaton) → Compiled A table.now → Enters A symbols entered.new }
{
    for symbol in 0..symbols {
        let at = symbol as usize * 2;
        entered[at] = entered_by(table, Symbol(symbol), Side::Left);
        entered[at + 1] = entered_by(table, Symbol(symbol), Side::Right);
    }
}

// The set of p alone where two rows differ, and else the empty set.
fn unlike(x: u32, y: u32, p: usize) -> u32
    requires { p < 24 }
    ensures { bit result p ≡ 0 → x ≡ y }
{
    if x == y { 0 } else { 1 << p }
}

// The states in which two relations differ, whose rows stand from two places on.
fn differing(rows: &[u32], x: usize, y: usize) -> u32
    requires { (x + 24 ≤ length rows.now) × (y + 24 ≤ length rows.now) }
    ensures { SameOutside result (take 24 (drop x rows.now)) (take 24 (drop y rows.now)) }
{
    let mut set: u32 = 0;
    for p in 0..24 {
        set |= unlike(rows[x + p], rows[y + p], p);
    }
    set
}

// The set of a symbol alone where a set is empty, and else the empty set.
fn where_empty(set: u32, symbol: u8) -> u32
    requires { symbol < 32 }
    ensures { (σ : ℕ) → bit result σ ≡ 1 → (σ ≡ symbol) × (set ≡ 0) }
{
    if set == 0 { 1 << symbol } else { 0 }
}

// The symbols at which no step down to a side enters a set.
fn avoiding(entered: &Entered, symbols: u8, side: Side, set: u32) -> u32
    requires { symbols ≤ 32 }
    ensures { (σ : ℕ) → bit result σ ≡ 1 → (σ < symbols) × (bit_and (get_or entered.now (word_place σ side) 0) set ≡ 0) }
{
    let at = side_number(side);
    let mut out: u32 = 0;
    for symbol in 0..symbols {
        out |= where_empty(entered[symbol as usize * 2 + at] & set, symbol);
    }
    out
}

// Where the overloops of a row as a part on a side stand.
fn part_place(row: usize, side: Side) -> usize
    requires { row < 64 }
    ensures { (result ≡ row * 51 + 3 + side_number side * 24) × (result + 24 ≤ 3264) }
{
    row * 51 + 3 + side_number(side) * 24
}

// The symbols at which a row is interchangeable, on a side, with an earlier one.
fn doubled(entered: &Entered, symbols: u8, rows: &RowTable, row: usize, side: Side) -> u32
    requires { (symbols ≤ 32) × (row < 64) }
    ensures { (A : Automaton) → Enters A symbols entered.now → MarkedAt A (class_in rows.now) row side result }
{
    let here = part_place(row, side);
    let mut set: u32 = 0;
    for other in 0..row {
        let differ = differing(rows, part_place(other, side), here);
        set |= avoiding(entered, symbols, side, differ);
    }
    set
}

// Marks the rows from..to, those before being marked.
pub fn mark(
    entered: &Entered,
    symbols: u8,
    rows: &RowTable,
    from: usize,
    to: usize,
    doubles: &mut [u32],
)
    requires { (symbols ≤ 32) × (from ≤ to) × (to ≤ 64) × (length doubles.old ≡ 128) }
    ensures { (A : Automaton) → Enters A symbols entered.now
        → (class : ℕ → Parts) → ((i : ℕ) → i < to → class_in rows.now i ≡ class i)
        → Marked A class from doubles.old → Marked A class to doubles.new }
{
    for row in from..to {
        doubles[row * 2] = doubled(entered, symbols, rows, row, Side::Left);
        doubles[row * 2 + 1] = doubled(entered, symbols, rows, row, Side::Right);
    }
}

// Whether a row is marked at a symbol on a side.
pub fn is_double(doubles: &Doubles, row: Row, side: Side, symbol: Symbol) -> bool
    requires { row.0 < 64 }
    ensures { result ≡ true → (A : Automaton) (class : ℕ → Parts) (n : ℕ) → Marked A class n doubles.now → row.0 < n
        → Doubled A symbol.0 side class row.0 }
{
    contains(doubles[row.0 as usize * 2 + side_number(side)], symbol.0)
}
