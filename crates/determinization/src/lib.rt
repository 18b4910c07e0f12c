// Lazy determinization: the class of a node over parts of two classes, and its growths of closing, looked up under the indices of its parts, or
// computed and kept.
#![tactic(auto)]

ghost use Rattle.std.specs.Prelude.{◌≡◌, true, List, ℕ, ◌+◌, ◌<◌, ◌≤◌};
ghost use Rattle.model.specs.declared.Place.{Place};
ghost use Rattle.algorithms.specs.Automaton.{Automaton};
ghost use Rattle.algorithms.specs.Overloops.{node_overloops};
ghost use Rattle.algorithms.specs.Growth.{node_growth};
ghost use Rattle.overloops.specs.Tables.{Tabled};
ghost use Rattle.class_tables.specs.Classes.{rows_of, IsClass};
ghost use Rattle.class_tables.specs.Cache.{Right, classes, CachedIn, Cached, After, AfterCall};

use class_tables::{
    Cache, Store, class_rows, free_hint, hint_at, hinted, keep, mixed, put_side, word_around,
    word_of, word_with,
};
use indexing::map_class;
use model::{Side, Symbol};
use overloops::{Part, part_in};
use relation::Relation;
use transitions::TransitionTable;

// Whether a class is there and has these two relations.
fn is_class(cache: &Cache, class: u32, left: Relation, right: Relation) -> bool
    requires { class < 1024 }
    ensures { result ≡ true → IsClass (classes cache.now.counts) cache.now.store class left.rows right.rows }
{
    if class == 0 {
        return false;
    }
    if cache.counts[0] <= class {
        return false;
    }
    if !class_rows(&cache.store, class, Side::Left).same(left) {
        return false;
    }
    class_rows(&cache.store, class, Side::Right).same(right)
}

// A class with these two relations; 1024 where the hints lead to none.
fn class_found(cache: &Cache, hint: usize, left: Relation, right: Relation) -> u32
    requires { hint + 4 ≤ 6144 }
    ensures { result < 1024 → IsClass (classes cache.now.counts) cache.now.store result left.rows right.rows }
{
    for step in 0..4usize {
        let class = hinted(&cache.hints, hint + step);
        if is_class(cache, class, left, right) {
            return class;
        }
    }
    1024
}

// The class of two relations: one that is there, or one more; 1024 where there is no room.
fn class_for(cache: &mut Cache, left: Relation, right: Relation) -> u32
    ensures { (cache.new.maps ≡ cache.old.maps) × (cache.new.cells ≡ cache.old.cells)
        × ((A : Automaton) (maps cells : List ℕ) → CachedIn A cache.old.counts cache.old.store maps cells
        → After A cache.old.counts cache.old.store cache.new.counts cache.new.store maps cells
        × (result < 1024 → IsClass (classes cache.new.counts) cache.new.store result left.rows right.rows)) }
{
    let hint = hint_at(0, mixed(mixed(0, left), right));
    let found = class_found(cache, hint, left, right);
    if found < 1024 {
        return found;
    }
    let count = cache.counts[0];
    if cache.counts[3] <= count {
        return 1024;
    }
    if 1023 < count {
        return 1024;
    }
    put_side(&mut cache.store, count, Side::Left, left);
    put_side(&mut cache.store, count, Side::Right, right);
    cache.counts[0] = count + 1;
    let free = free_hint(&cache.hints, hint);
    cache.hints[free] = count as u16;
    count
}

// A node as a part on a side, over parts of two classes: its overloops, and the growth of closing there.
fn node_part(
    table: &TransitionTable,
    states: usize,
    symbol: Symbol,
    side: Side,
    store: &Store,
    left: u32,
    right: u32,
) -> Part
    requires { (states ≤ 24) × (symbol.0 < 32) × (left < 1024) × (right < 1024) }
    ensures { ((A : Automaton) → Tabled A states table.now
        → (result.overloops.rows ≡ node_overloops A (Place.Child side) symbol.0 (rows_of store.now left Side.Left) (rows_of store.now right Side.Right))
        × (result.growth ≡ node_growth A (Place.Child side) symbol.0 (rows_of store.now left Side.Left) (rows_of store.now right Side.Right)))
        × (result.growth < 1024) }
{
    let l = class_rows(store, left, Side::Left);
    let r = class_rows(store, right, Side::Right);
    part_in(table, states, symbol, side, &l.rows, &r.rows)
}

// The word of a node over parts of two classes, computed, and kept if there is room. 0 where there is no room for its class.
fn new_word(
    table: &TransitionTable,
    states: usize,
    symbol: Symbol,
    left: u32,
    right: u32,
    cache: &mut Cache,
) -> u32
    requires { (states ≤ 24) × (symbol.0 < 32) × (left < 1024) × (right < 1024) }
    ensures { (cache.new.maps ≡ cache.old.maps)
        × ((A : Automaton) → Tabled A states table.now → Cached A cache.old → left < classes cache.old.counts → right < classes cache.old.counts
        → AfterCall A cache.old cache.new
        × Right A (classes cache.new.counts) cache.new.store symbol.0 left right result) }
{
    let l = node_part(table, states, symbol, Side::Left, &cache.store, left, right);
    let r = node_part(
        table,
        states,
        symbol,
        Side::Right,
        &cache.store,
        left,
        right,
    );
    let class = class_for(cache, l.overloops, r.overloops);
    if 1023 < class {
        return 0;
    }
    let word = word_with(class, l.growth, r.growth);
    keep(&cache.maps, &mut cache.cells, symbol, left, right, word);
    word
}

// The word of a node over parts of two classes, where it does not stand in the first cell: found near it, or computed.
fn computed(
    table: &TransitionTable,
    states: usize,
    symbol: Symbol,
    left: u32,
    right: u32,
    cache: &mut Cache,
) -> u32
    requires { (states ≤ 24) × (symbol.0 < 32) × (left < 1024) × (right < 1024) }
    ensures { (A : Automaton) → Tabled A states table.now → Cached A cache.old → left < classes cache.old.counts → right < classes cache.old.counts
        → AfterCall A cache.old cache.new
        × Right A (classes cache.new.counts) cache.new.store symbol.0 left right result }
{
    map_class(table, symbol, Side::Left, left, cache);
    map_class(table, symbol, Side::Right, right, cache);
    let word = word_around(&cache.maps, &cache.cells, symbol, left, right);
    if word != 0 {
        return word;
    }
    new_word(table, states, symbol, left, right, cache)
}

// The word of a node over parts of two classes, which names its class and tells its growths; 0 where there is no room for it.
pub fn node_word(
    table: &TransitionTable,
    states: usize,
    symbol: Symbol,
    left: u32,
    right: u32,
    cache: &mut Cache,
) -> u32
    requires { (states ≤ 24) × (symbol.0 < 32) × (left < 1024) × (right < 1024) }
    ensures { (A : Automaton) → Tabled A states table.now → Cached A cache.old → left < classes cache.old.counts → right < classes cache.old.counts
        → AfterCall A cache.old cache.new
        × Right A (classes cache.new.counts) cache.new.store symbol.0 left right result }
{
    let word = word_of(&cache.maps, &cache.cells, symbol, left, right);
    if word != 0 {
        return word;
    }
    computed(table, states, symbol, left, right, cache)
}

// The word of a leaf: a node over two parts of class 0. (A function of its own, so that `computed` has two callers and is called where a word is
// not found, and not copied to where one is.)
pub fn leaf_word(table: &TransitionTable, states: usize, symbol: Symbol, cache: &mut Cache) -> u32
    requires { (states ≤ 24) × (symbol.0 < 32) }
    ensures { (A : Automaton) → Tabled A states table.now → Cached A cache.old → AfterCall A cache.old cache.new
        × Right A (classes cache.new.counts) cache.new.store symbol.0 0 0 result }
{
    let word = word_of(&cache.maps, &cache.cells, symbol, 0, 0);
    if word != 0 {
        return word;
    }
    computed(table, states, symbol, 0, 0, cache)
}
