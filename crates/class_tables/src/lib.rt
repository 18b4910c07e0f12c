// The cache of lazy determinization, tables that are lent: the classes of trees, numbered as they are met, their indices at each symbol on each side, words of
// nodes, under the keys of two indices, and hints at classes. A class is a tree's overloops as a left and as a right part. A word names a class
// and has two growths of closing, as a left and as a right part.
#![tactic(auto)]

ghost use Rattle.std.specs.Prelude.{◌≡◌, ℕ, ◌+◌, ◌<◌, ◌≤◌, List, slice_index};
ghost use Rattle.algorithms.specs.Automaton.{Automaton};
ghost use Rattle.overloops.specs.Tables.{Put};
ghost use Rattle.class_tables.specs.Classes.{rows_place, rows_of, id_of, growth_in, Node};
ghost use Rattle.class_tables.specs.Cache.{index_place, index_at, key, word_under, Right, classes, CachedIn, Fresh};

use model::{Side, Symbol};
use overloops::{put_rows, rows_at, side_number};
use relation::Relation;

// The classes there are; the indices in use on the left and on the right; the most classes that there may be for now; and two numbers that are
// the caller's.
pub type Counts = [u32; 6];

// The rows of 1,024 classes: 24 as a left part, then 24 as a right part.
pub type Store = [u32; 49152];

// The indices of 1,024 classes at 32 symbols on two sides. (1,040 are the classes' places, so that those of two symbols fall on different lines
// of the processor's cache.)
pub type IndexMaps = [u16; 66560];

// Words under the keys of two indices: each has 10 bits of a class, 10 of the growth as a left part and 10 of that as a right part.
pub type Cells = [u64; 16384];

// Where a class may be found by what depends on its pairs: 2,048 for classes, for left and for right indices. Nothing is known of these: what
// they lead to is looked at.
pub type Hints = [u16; 6144];

// The tables together. Whoever judges trees makes one and lends it, so that the trees share it.
#[derive(Drop)]
pub struct Cache {
    pub counts: Counts,
    pub store: Store,
    pub maps: IndexMaps,
    pub cells: Cells,
    pub hints: Hints,
}

impl Cache {
    // One that has no class yet but that of the parts of a leaf, with some credit.
    pub fn fresh() -> Cache
        ensures { Fresh result }
    {
        Cache {
            counts: [1, 1, 1, 1, 2048, 1],
            store: [0; 49152],
            maps: [0; 66560],
            cells: [0; 16384],
            hints: [0; 6144],
        }
    }
}

fn wide(x: u16) -> usize
    ensures { (result ≡ x) × (result < 65536) }
{
    x as usize
}

// Where the index of a class at a symbol on a side stands.
pub fn index_place(symbol: Symbol, side: Side, class: u32) -> usize
    requires { (symbol.0 < 32) × (class < 1024) }
    ensures { (result ≡ index_place side symbol.0 class) × (result < 66560) }
{
    (side_number(side) * 32 + symbol.0 as usize) * 1040 + class as usize
}

pub fn index_of(maps: &IndexMaps, symbol: Symbol, side: Side, class: u32) -> usize
    requires { (symbol.0 < 32) × (class < 1024) }
    ensures { (result ≡ index_at maps.now side symbol.0 class) × (result < 65536) }
{
    wide(maps[index_place(symbol, side, class)])
}

fn key_of(left: usize, right: usize) -> u64
    requires { (left < 65536) × (right < 65536) }
    ensures { (result ≡ key left right) × (result < 4294967296) }
{
    left as u64 * 65536 + right as u64
}

// The cell where the key of two indices is looked for first.
fn home(left: usize, right: usize) -> usize
    requires { (left < 65536) × (right < 65536) }
    ensures { result < 16384 }
{
    (left * 129 + right) % 16384
}

// The word of a cell, where a key is the cell's; else 0.
fn word_under(cells: &Cells, at: usize, key: u64) -> u32
    requires { at < 16384 }
    ensures { result ≡ word_under (slice_index cells.now at) key }
{
    let cell = cells[at];
    if cell / 4294967296 == key {
        return (cell % 4294967296) as u32;
    }
    0
}

// The word of a node over parts of two classes, where it stands in the first cell; else 0.
pub fn word_of(maps: &IndexMaps, cells: &Cells, symbol: Symbol, left: u32, right: u32) -> u32
    requires { (symbol.0 < 32) × (left < 1024) × (right < 1024) }
    ensures { (A : Automaton) (counts store : List ℕ) → CachedIn A counts store maps.now cells.now
        → left < classes counts → right < classes counts → Right A (classes counts) store symbol.0 left right result }
{
    let l = index_of(maps, symbol, Side::Left, left);
    let r = index_of(maps, symbol, Side::Right, right);
    word_under(cells, home(l, r), key_of(l, r))
}

// The word under a key near a cell; 0 where there is none.
fn word_near(cells: &Cells, at: usize, key: u64) -> u32
    requires { at < 16384 }
    ensures { 0 < result → (n : ℕ) × (result ≡ word_under (slice_index cells.now n) key) }
{
    for step in 0..8usize {
        let word = word_under(cells, (at + step) % 16384, key);
        if word != 0 {
            return word;
        }
    }
    0
}

// The same of a node over parts of two classes.
pub fn word_around(maps: &IndexMaps, cells: &Cells, symbol: Symbol, left: u32, right: u32) -> u32
    requires { (symbol.0 < 32) × (left < 1024) × (right < 1024) }
    ensures { (A : Automaton) (counts store : List ℕ) → CachedIn A counts store maps.now cells.now
        → left < classes counts → right < classes counts → Right A (classes counts) store symbol.0 left right result }
{
    let l = index_of(maps, symbol, Side::Left, left);
    let r = index_of(maps, symbol, Side::Right, right);
    word_near(cells, home(l, r), key_of(l, r))
}

// A cell for a word, from a cell on: the first that is free; the cell itself where none near it is.
fn place_near(cells: &Cells, at: usize) -> usize
    requires { at < 16384 }
    ensures { result < 16384 }
{
    for step in 0..8usize {
        let place = (at + step) % 16384;
        if cells[place] == 0 {
            return place;
        }
    }
    at
}

// Keeps the word of a node over parts of two classes, where they have indices.
pub fn keep(maps: &IndexMaps, cells: &mut Cells, symbol: Symbol, left: u32, right: u32, word: u32)
    requires { (symbol.0 < 32) × (left < 1024) × (right < 1024) }
    ensures { (A : Automaton) (counts store : List ℕ) → CachedIn A counts store maps.now cells.old
        → left < classes counts → right < classes counts → id_of word < classes counts → Node A store symbol.0 left right word
        → CachedIn A counts store maps.now cells.new }
{
    let l = index_of(maps, symbol, Side::Left, left);
    let r = index_of(maps, symbol, Side::Right, right);
    if l == 0 {
        return;
    }
    if r == 0 {
        return;
    }
    let place = place_near(cells, home(l, r));
    cells[place] = key_of(l, r) * 4294967296 + word as u64;
}

// A word: a class, and the growths of closing as a left and as a right part.
pub fn word_with(class: u32, left: u32, right: u32) -> u32
    requires { (class < 1024) × (left < 1024) × (right < 1024) }
    ensures { (id_of result ≡ class) × (growth_in Side.Left result ≡ left) × (growth_in Side.Right result ≡ right) }
{
    class + left * 1024 + right * 1048576
}

// The growths of closing of two parts, by their words: the first as a left part, the second as a right one.
pub fn growth_of(first: u64, second: u64) -> u32
    ensures { (result ≡ growth_in Side.Left first + growth_in Side.Right second) × (result < 2048) }
{
    (first / 1024 % 1024) as u32 + (second / 1048576 % 1024) as u32
}

// The relation of a class on a side.
pub fn class_rows(store: &Store, class: u32, side: Side) -> Relation
    requires { class < 1024 }
    ensures { result.rows ≡ rows_of store.now class side }
{
    rows_at(store, class as usize * 48 + side_number(side) * 24)
}

// Writes the relation of a class on a side.
pub fn put_side(store: &mut Store, class: u32, side: Side, rows: Relation)
    requires { class < 1024 }
    ensures { Put (rows_place class side) rows.rows store.old store.new }
{
    put_rows(store, class as usize * 48 + side_number(side) * 24, rows);
}

// A number that depends on a relation's pairs, and on the number before.
pub fn mixed(before: u32, rows: Relation) -> u32 {
    let mut sum = before;
    for p in 0..24 {
        let product = std::num::wrapping_add_u32(sum, rows.rows[p]) as u64 * 2654435761;
        sum = (product / 65536 % 4294967296) as u32;
    }
    sum
}

// Where the hints of a number stand, four from there on.
pub fn hint_at(region: usize, number: u32) -> usize
    requires { region < 3 }
    ensures { result + 4 ≤ 6144 }
{
    region * 2048 + number as usize % 2045
}

pub fn hinted(hints: &Hints, at: usize) -> u32
    requires { at < 6144 }
    ensures { result < 1024 }
{
    (wide(hints[at]) % 1024) as u32
}

// A place for a hint: the first of four that is free, or the first.
pub fn free_hint(hints: &Hints, at: usize) -> usize
    requires { at + 4 ≤ 6144 }
    ensures { result < 6144 }
{
    for step in 0..4usize {
        if hints[at + step] == 0 {
            return at + step;
        }
    }
    at
}
