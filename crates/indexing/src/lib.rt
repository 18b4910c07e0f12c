// Indices for classes: at a parent's symbol a class has an index on each side, which classes that do the same there share. So the two indices of
// its parts lead to the class of a node.
#![tactic(auto)]

ghost use Rattle.std.specs.Prelude.{◌≡◌, true, List, ℕ, ◌+◌, ◌<◌, ◌≤◌};
ghost use Rattle.relation.specs.Rows.{composed};
ghost use Rattle.algorithms.specs.Automaton.{Automaton};
ghost use Rattle.algorithms.specs.Overloops.{moves};
ghost use Rattle.transitions.specs.Compiled.{Compiled};
ghost use Rattle.class_tables.specs.Classes.{rows_of};
ghost use Rattle.class_tables.specs.Cache.{index_at, classes, CachedIn};

use class_tables::{Cache, class_rows, free_hint, hint_at, hinted, index_of, index_place, mixed};
use model::{Move, Place, Side, State, Symbol};
use overloops::{rows_at, side_number};
use relation::Relation;
use transitions::TransitionTable;

// The pairs of a step down into a side, followed by those of the part there.
fn carried(
    table: &TransitionTable,
    symbol: Symbol,
    place: Place,
    side: Side,
    part: Relation,
) -> Relation
    requires { symbol.0 < 32 }
    ensures { (A : Automaton) → Compiled A table.now
        → result.rows ≡ composed (moves A symbol.0 place (Move.Down side)) part.rows }
{
    rows_at(
        table,
        transitions::cell(symbol, place, Move::Down(side), State(0)),
    )
    .follow(&part.rows)
}

// Whether two relations do the same at one place.
fn alike_at(
    table: &TransitionTable,
    symbol: Symbol,
    place: Place,
    side: Side,
    x: Relation,
    y: Relation,
) -> bool
    requires { symbol.0 < 32 }
    ensures { result ≡ true → (A : Automaton) → Compiled A table.now
        → composed (moves A symbol.0 place (Move.Down side)) x.rows ≡ composed (moves A symbol.0 place (Move.Down side)) y.rows }
{
    carried(table, symbol, place, side, x).same(carried(table, symbol, place, side, y))
}

// Whether two relations of parts do the same on a side of a node, wherever it is.
fn alike(table: &TransitionTable, symbol: Symbol, side: Side, x: Relation, y: Relation) -> bool
    requires { symbol.0 < 32 }
    ensures { result ≡ true → (A : Automaton) → Compiled A table.now → (τ : Place)
        → composed (moves A symbol.0 τ (Move.Down side)) x.rows ≡ composed (moves A symbol.0 τ (Move.Down side)) y.rows }
{
    if !alike_at(table, symbol, Place::Root, side, x, y) {
        return false;
    }
    if !alike_at(table, symbol, Place::Child(Side::Left), side, x, y) {
        return false;
    }
    alike_at(table, symbol, Place::Child(Side::Right), side, x, y)
}

// A number that depends on what a relation does on a side of a node.
fn mark(table: &TransitionTable, symbol: Symbol, side: Side, part: Relation) -> u32
    requires { symbol.0 < 32 }
{
    let root = mixed(
        symbol.0 as u32,
        carried(table, symbol, Place::Root, side, part),
    );
    let left = mixed(
        root,
        carried(table, symbol, Place::Child(Side::Left), side, part),
    );
    mixed(
        left,
        carried(table, symbol, Place::Child(Side::Right), side, part),
    )
}

// Whether a class is there, has an index at a symbol on a side, and does the same there as a relation.
fn is_like(
    table: &TransitionTable,
    symbol: Symbol,
    side: Side,
    cache: &Cache,
    other: u32,
    part: Relation,
) -> bool
    requires { (symbol.0 < 32) × (other < 1024) }
    ensures { result ≡ true → (other < classes cache.now.counts) × (0 < index_at cache.now.maps side symbol.0 other)
        × ((A : Automaton) → Compiled A table.now → (τ : Place)
        → composed (moves A symbol.0 τ (Move.Down side)) (rows_of cache.now.store other side) ≡ composed (moves A symbol.0 τ (Move.Down side)) part.rows) }
{
    if cache.counts[0] <= other {
        return false;
    }
    if index_of(&cache.maps, symbol, side, other) == 0 {
        return false;
    }
    let known = class_rows(&cache.store, other, side);
    alike(table, symbol, side, known, part)
}

// A class that does the same at a symbol on a side as a relation, and has an index there; 1024 where the hints lead to none.
fn class_like(
    table: &TransitionTable,
    symbol: Symbol,
    side: Side,
    cache: &Cache,
    hint: usize,
    part: Relation,
) -> u32
    requires { (symbol.0 < 32) × (hint + 4 ≤ 6144) }
    ensures { result < 1024 → (result < classes cache.now.counts) × (0 < index_at cache.now.maps side symbol.0 result)
        × ((A : Automaton) → Compiled A table.now → (τ : Place)
        → composed (moves A symbol.0 τ (Move.Down side)) (rows_of cache.now.store result side) ≡ composed (moves A symbol.0 τ (Move.Down side)) part.rows) }
{
    for step in 0..4usize {
        let other = hinted(&cache.hints, hint + step);
        if is_like(table, symbol, side, cache, other, part) {
            return other;
        }
    }
    1024
}

// Gives a class an index at a symbol on a side, where it has none and there is room: that of a class that does the same, or a new one.
pub fn map_class(table: &TransitionTable, symbol: Symbol, side: Side, class: u32, cache: &mut Cache)
    requires { (symbol.0 < 32) × (class < 1024) }
    ensures { (cache.new.store ≡ cache.old.store) × (cache.new.cells ≡ cache.old.cells)
        × ((A : Automaton) (cells : List ℕ) → Compiled A table.now
        → CachedIn A cache.old.counts cache.old.store cache.old.maps cells → class < classes cache.old.counts
        → CachedIn A cache.new.counts cache.new.store cache.new.maps cells
        × (classes cache.new.counts ≡ classes cache.old.counts)) }
{
    let place = index_place(symbol, side, class);
    if cache.maps[place] != 0 {
        return;
    }
    let number = side_number(side);
    let part = class_rows(&cache.store, class, side);
    let hint = hint_at(1 + number, mark(table, symbol, side, part));
    let other = class_like(table, symbol, side, cache, hint, part);
    if other < 1024 {
        cache.maps[place] = cache.maps[index_place(symbol, side, other)];
        return;
    }
    let next = cache.counts[1 + number];
    if next < 65536 {
        cache.maps[place] = next as u16;
        cache.counts[1 + number] = next + 1;
        let free = free_hint(&cache.hints, hint);
        cache.hints[free] = class as u16;
    }
}
