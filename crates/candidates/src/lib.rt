// The candidates of a round of the saturation, document 01's survey, tried in order: each is tested for acceptance, and kept as a row if its
// class is new. Only candidates over some row of the last round are tried, since all others were tried before; and of those over rows that are
// interchangeable at their symbol, only the first.
#![tactic(auto)]

ghost use Rattle.std.specs.Prelude.{◌≡◌, ℕ, ◌-◌, ◌<◌, ◌≤◌, length, eqb, ltb};
ghost use mathlib.Core.List.{List, [], ◌∷◌, map, flat_map};
ghost use Rattle.relation.specs.Bit.{bit};
ghost use Rattle.model.specs.Lists.{◌∈◌, count_from};
ghost use Rattle.model.specs.Saturation.{Candidate, leaf_candidate, node_candidate};
ghost use Rattle.model.specs.Fresh.{rights, fresh_candidates};
ghost use Rattle.algorithms.specs.Automaton.{Automaton, cons_if, numbered, alphabet_of};
ghost use Rattle.algorithms.specs.Saturate.{algebra_of};
ghost use Rattle.automaton.specs.File.{WithinLimits};
ghost use Rattle.classes.specs.Prepared.{HeadedFor, ReadyFor};
ghost use Rattle.candidates.specs.Tries.{over_rows, Keeps, Settled, Marks, Skips, Tries, Few};

use algorithms::is_branch;
use classes::{Prepared, leaf_accepted, leaf_class, node_accepted, node_class};
use interchange::{Doubles, is_double};
use model::{Side, Symbol};
use representatives::{Origin, Row, RowTable, class_at, keep};

// What trying candidates gives: the first that is accepted, or the count of the rows kept (65 for more than 64). Both are
// outcomes of their own, neither a refusal nor an absence.
#[derive(Clone, Copy)]
pub enum Tried {
    Accepted(Origin),
    Kept(usize),
}

// Tries a leaf.
fn try_leaf(prepared: Prepared, symbol: Symbol, rows: &mut RowTable, n: usize) -> Tried
    requires { (prepared.header.states ≤ 24) × (symbol.0 < 32) × (n ≤ 65) }
    ensures { Few result × ((A : Automaton) → ReadyFor A prepared.entry
        → (base kept : List (Candidate (algebra_of A))) → Keeps A base kept n rows.old
        → Tries A base kept (leaf_candidate (algebra_of A) symbol.0 ∷ []) rows.new result) }
{
    let origin = Origin {
        symbol,
        left: Row(255),
        right: Row(255),
    };
    if leaf_accepted(prepared.table, prepared.header, symbol) {
        return Tried::Accepted(origin);
    }
    Tried::Kept(keep(rows, n, origin, leaf_class(prepared.leaves, symbol)))
}

// Tries a branch symbol over two rows.
fn try_node(
    prepared: Prepared,
    symbol: Symbol,
    left: Row,
    right: Row,
    rows: &mut RowTable,
    n: usize,
) -> Tried
    requires { (prepared.header.states ≤ 24) × (symbol.0 < 32) × (left.0 < 64) × (right.0 < 64) × (n ≤ 65) }
    ensures { Few result × ((A : Automaton) → HeadedFor A prepared.entry
        → (base kept : List (Candidate (algebra_of A))) → Keeps A base kept n rows.old → left.0 < length base → right.0 < length base
        → Tries A base kept (node_candidate (algebra_of A) base symbol.0 left.0 right.0 ∷ []) rows.new result) }
{
    let l = class_at(rows, left);
    let r = class_at(rows, right);
    let origin = Origin {
        symbol,
        left,
        right,
    };
    if node_accepted(prepared.table, prepared.header, symbol, l, r) {
        return Tried::Accepted(origin);
    }
    if n == 65 {
        return Tried::Kept(65);
    }
    Tried::Kept(keep(
        rows,
        n,
        origin,
        node_class(
            prepared.table,
            prepared.header.states as usize,
            symbol,
            l,
            r,
        ),
    ))
}

// The same, unless the right row is a double there: then a candidate that does the same was tried before.
fn try_right(
    prepared: Prepared,
    symbol: Symbol,
    left: Row,
    right: Row,
    doubles: &Doubles,
    rows: &mut RowTable,
    n: usize,
) -> Tried
    requires { (prepared.header.states ≤ 24) × (symbol.0 < 32) × (left.0 < 64) × (right.0 < 64) × (n ≤ 65) }
    ensures { Few result × ((A : Automaton) → HeadedFor A prepared.entry
        → (base kept : List (Candidate (algebra_of A))) → Keeps A base kept n rows.old → left.0 < length base → right.0 < length base
        → Marks A base doubles.now → ((b : ℕ) → b < right.0 → Settled A base kept symbol.0 left.0 b)
        → Tries A base kept (node_candidate (algebra_of A) base symbol.0 left.0 right.0 ∷ []) rows.new result) }
{
    if is_double(doubles, right, Side::Right, symbol) {
        Tried::Kept(n)
    } else {
        try_node(prepared, symbol, left, right, rows, n)
    }
}

// Tries a branch symbol over a left row and the right rows from..to.
fn try_rights(
    prepared: Prepared,
    symbol: Symbol,
    left: Row,
    from: usize,
    to: usize,
    doubles: &Doubles,
    rows: &mut RowTable,
    kept: usize,
) -> Tried
    requires { (prepared.header.states ≤ 24) × (symbol.0 < 32) × (left.0 < to) × (from ≤ to) × (to ≤ 64) × (kept ≤ 65) }
    ensures { Few result × ((A : Automaton) → HeadedFor A prepared.entry
        → (base before : List (Candidate (algebra_of A))) → Keeps A base before kept rows.old → length base ≡ to
        → Marks A base doubles.now → ((b : ℕ) → b < from → Settled A base before symbol.0 left.0 b)
        → Tries A base before (map (λ b. node_candidate (algebra_of A) base symbol.0 left.0 b) (count_from from (to - from))) rows.new result) }
{
    let mut n = kept;
    for right in from..to {
        match try_right(prepared, symbol, left, Row(right as u8), doubles, rows, n) {
            Tried::Accepted(origin) => return Tried::Accepted(origin),
            Tried::Kept(m) => n = m,
        }
    }
    Tried::Kept(n)
}

// Where the range of right rows to try beside a left row begins: beside an old row only the new ones are tried.
fn first_right(left: Row, old: usize) -> usize
    ensures { (result ≤ old) × (0 < result → left.0 < old) × ((n : ℕ) → rights (ltb left.0 old) old n ≡ count_from result (n - result)) }
{
    if (left.0 as usize) < old { old } else { 0 }
}

// Tries a branch symbol over a left row and the rows below `to`, of which those below `old` are old; unless the left row is a double there, so
// that candidates that do the same were tried before.
fn try_left(
    prepared: Prepared,
    symbol: Symbol,
    left: Row,
    old: usize,
    to: usize,
    doubles: &Doubles,
    rows: &mut RowTable,
    n: usize,
) -> Tried
    requires { (prepared.header.states ≤ 24) × (symbol.0 < 32) × (left.0 < to) × (old ≤ to) × (to ≤ 64) × (n ≤ 65) }
    ensures { Few result × ((A : Automaton) → HeadedFor A prepared.entry
        → (base kept : List (Candidate (algebra_of A))) → Keeps A base kept n rows.old → length base ≡ to
        → Marks A base doubles.now → ((b : ℕ) → left.0 < old → b < old → Settled A base kept symbol.0 left.0 b)
        → ((a b : ℕ) → a < left.0 → b < to → Settled A base kept symbol.0 a b)
        → Tries A base kept (map (λ b. node_candidate (algebra_of A) base symbol.0 left.0 b) (rights (ltb left.0 old) old to)) rows.new result) }
{
    if is_double(doubles, left, Side::Left, symbol) {
        Tried::Kept(n)
    } else {
        let from = first_right(left, old);
        try_rights(prepared, symbol, left, from, to, doubles, rows, n)
    }
}

// Tries a branch symbol over the rows below `to`, of which those below `old` are old.
fn try_lefts(
    prepared: Prepared,
    symbol: Symbol,
    old: usize,
    to: usize,
    doubles: &Doubles,
    rows: &mut RowTable,
    kept: usize,
) -> Tried
    requires { (prepared.header.states ≤ 24) × (symbol.0 < 32) × (old ≤ to) × (to ≤ 64) × (kept ≤ 65) }
    ensures { Few result × ((A : Automaton) → HeadedFor A prepared.entry
        → (base before : List (Candidate (algebra_of A))) → Keeps A base before kept rows.old → length base ≡ to
        → Skips A base old doubles.now → symbol.0 ∈ (alphabet_of A).branches
        → Tries A base before (over_rows (algebra_of A) base old to symbol.0) rows.new result) }
{
    let mut n = kept;
    for left in 0..to {
        match try_left(prepared, symbol, Row(left as u8), old, to, doubles, rows, n) {
            Tried::Accepted(origin) => return Tried::Accepted(origin),
            Tried::Kept(m) => n = m,
        }
    }
    Tried::Kept(n)
}

// The same, if the symbol is a branch symbol.
fn try_if_branch(
    prepared: Prepared,
    symbol: Symbol,
    old: usize,
    to: usize,
    doubles: &Doubles,
    rows: &mut RowTable,
    kept: usize,
) -> Tried
    requires { (prepared.header.states ≤ 24) × (symbol.0 < 32) × (old ≤ to) × (to ≤ 64) × (kept ≤ 65) }
    ensures { Few result × ((A : Automaton) → HeadedFor A prepared.entry
        → (base before : List (Candidate (algebra_of A))) → Keeps A base before kept rows.old → length base ≡ to
        → Skips A base old doubles.now → symbol.0 < prepared.entry.header.symbols
        → Tries A base before (flat_map (over_rows (algebra_of A) base old to) (cons_if (eqb (bit prepared.entry.header.branches symbol.0) 1) symbol.0 [])) rows.new result) }
{
    if is_branch(prepared.header.branches, symbol) {
        try_lefts(prepared, symbol, old, to, doubles, rows, kept)
    } else {
        Tried::Kept(kept)
    }
}

// Tries the branch symbols in order.
fn try_branches(
    prepared: Prepared,
    old: usize,
    to: usize,
    doubles: &Doubles,
    rows: &mut RowTable,
) -> Tried
    requires { WithinLimits prepared.header × (old ≤ to) × (to ≤ 64) }
    ensures { Few result × ((A : Automaton) → HeadedFor A prepared.entry
        → (base : List (Candidate (algebra_of A))) → Keeps A base base to rows.old → length base ≡ to → Skips A base old doubles.now
        → Tries A base base (flat_map (over_rows (algebra_of A) base old to) (numbered 1 prepared.entry.header.branches 0 prepared.entry.header.symbols)) rows.new result) }
{
    let mut n = to;
    for symbol in 0..prepared.header.symbols {
        match try_if_branch(prepared, Symbol(symbol), old, to, doubles, rows, n) {
            Tried::Accepted(origin) => return Tried::Accepted(origin),
            Tried::Kept(m) => n = m,
        }
    }
    Tried::Kept(n)
}

// Tries a leaf, if the symbol is a leaf symbol.
fn try_if_leaf(prepared: Prepared, symbol: Symbol, rows: &mut RowTable, kept: usize) -> Tried
    requires { (prepared.header.states ≤ 24) × (symbol.0 < 32) × (kept ≤ 65) }
    ensures { Few result × ((A : Automaton) → ReadyFor A prepared.entry
        → (base before : List (Candidate (algebra_of A))) → Keeps A base before kept rows.old
        → Tries A base before (flat_map (λ σ. leaf_candidate (algebra_of A) σ ∷ []) (cons_if (eqb (bit prepared.entry.header.branches symbol.0) 0) symbol.0 [])) rows.new result) }
{
    if is_branch(prepared.header.branches, symbol) {
        Tried::Kept(kept)
    } else {
        try_leaf(prepared, symbol, rows, kept)
    }
}

// Tries the leaf symbols in order, with no row before.
fn try_leaves(prepared: Prepared, rows: &mut RowTable) -> Tried
    requires { WithinLimits prepared.header }
    ensures { Few result × ((A : Automaton) → ReadyFor A prepared.entry
        → Tries A [] [] (flat_map (λ σ. leaf_candidate (algebra_of A) σ ∷ []) (numbered 0 prepared.entry.header.branches 0 prepared.entry.header.symbols)) rows.new result) }
{
    let mut n: usize = 0;
    for symbol in 0..prepared.header.symbols {
        match try_if_leaf(prepared, Symbol(symbol), rows, n) {
            Tried::Accepted(origin) => return Tried::Accepted(origin),
            Tried::Kept(m) => n = m,
        }
    }
    Tried::Kept(n)
}

// A round: the leaf symbols, or the branch symbols over the n rows, of which the first `old` are old.
pub fn round(
    prepared: Prepared,
    height: usize,
    old: usize,
    n: usize,
    doubles: &Doubles,
    rows: &mut RowTable,
) -> Tried
    requires { WithinLimits prepared.header × (old ≤ n) × (n ≤ 64) }
    ensures { Few result × ((A : Automaton) → ReadyFor A prepared.entry
        → (base : List (Candidate (algebra_of A))) → Keeps A base base n rows.old → length base ≡ n → (height ≡ 0 → base ≡ [])
        → Skips A base old doubles.now
        → Tries A base base (fresh_candidates (algebra_of A) (alphabet_of A) height old base) rows.new result) }
{
    if height == 0 {
        try_leaves(prepared, rows)
    } else {
        try_branches(prepared, old, n, doubles, rows)
    }
}
