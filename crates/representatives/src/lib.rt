// The rows that the saturation keeps, at most 64: inequivalent trees, each with its class and how it is built. They stand in one lent table
// of words, 51 a row: symbol, left row, right row, then the overloops as a left part (24 words) and as a right part.
#![tactic(auto)]

ghost use Rattle.std.specs.Prelude.{◌≡◌, List, [], ◌∷◌, ◌+◌, ◌<◌, ◌≤◌, length};
ghost use Rattle.model.specs.Saturation.{Candidate, known, keep_if_new};
ghost use Rattle.algorithms.specs.Automaton.{Automaton};
ghost use Rattle.algorithms.specs.Saturate.{parts, same_parts, algebra_of};
ghost use Rattle.overloops.specs.Tables.{PutFirst};
ghost use Rattle.classes.specs.Classes.{parts_in};
ghost use Rattle.representatives.specs.Stored.{origin_of, origin_in, class_in, KnownIn, Stored, Written};

use classes::Class;
use model::Symbol;
use overloops::{put_rows, rows_at};
use relation::same_rows;

// 51 words for each of 64 rows.
pub type RowTable = [u32; 3264];

// The number of a row: neither a symbol nor a state.
#[derive(Clone, Copy)]
pub struct Row(pub u8);

// How the tree of a row is built, document 01's plan row: its symbol over the trees of two earlier rows. A leaf has 255 for both.
#[derive(Clone, Copy)]
pub struct Origin {
    pub symbol: Symbol,
    pub left: Row,
    pub right: Row,
}

// The class of a row.
pub fn class_at(rows: &RowTable, row: Row) -> Class
    requires { row.0 < 64 }
    ensures { parts_in result ≡ class_in rows.now row.0 }
{
    let at = row.0 as usize * 51;
    Class {
        left: rows_at(rows, at + 3),
        right: rows_at(rows, at + 27),
    }
}

// How the tree of a row is built.
pub fn origin_at(rows: &RowTable, row: Row) -> Origin
    requires { row.0 < 64 }
    ensures { origin_of result ≡ origin_in rows.now row.0 }
{
    let at = row.0 as usize * 51;
    Origin {
        symbol: Symbol((rows[at] % 256) as u8),
        left: Row((rows[at + 1] % 256) as u8),
        right: Row((rows[at + 2] % 256) as u8),
    }
}

// Whether a class, given by its two relations, is that of a row.
fn same_at(rows: &[u32], row: Row, left: &[u32], right: &[u32]) -> bool
    requires { (length rows.now ≡ 3264) × (row.0 < 64) × (length left.now ≡ 24) × (length right.now ≡ 24) }
    ensures { result ≡ same_parts (parts left.now right.now) (class_in rows.now row.0) }
{
    let at = row.0 as usize * 51;
    let middle = at + 27;
    if same_rows(left, &rows[at + 3..middle]) {
        same_rows(right, &rows[middle..at + 51])
    } else {
        false
    }
}

// Whether a class is that of one of the first n rows.
fn is_known(rows: &RowTable, n: usize, left: &[u32], right: &[u32]) -> bool
    requires { (n ≤ 64) × (length left.now ≡ 24) × (length right.now ≡ 24) }
    ensures { KnownIn result rows.now n (parts left.now right.now) }
{
    for i in 0..n {
        if same_at(rows, Row(i as u8), left, right) {
            return true;
        }
    }
    false
}

// Writes how a tree is built, from a place on.
fn put_origin(rows: &mut [u32], at: usize, origin: Origin)
    requires { at + 3 ≤ length rows.old }
    ensures { PutFirst 3 at (origin.symbol.0 ∷ origin.left.0 ∷ origin.right.0 ∷ []) rows.old rows.new }
{
    rows[at] = origin.symbol.0 as u32;
    rows[at + 1] = origin.left.0 as u32;
    rows[at + 2] = origin.right.0 as u32;
}

// Writes a row.
fn store(rows: &mut RowTable, row: Row, origin: Origin, class: Class)
    requires { row.0 < 64 }
    ensures { Written row.0 (origin_of origin) (parts_in class) rows.old rows.new }
{
    let at = row.0 as usize * 51;
    put_origin(rows, at, origin);
    put_rows(rows, at + 3, class.left);
    put_rows(rows, at + 27, class.right);
}

// Keeps a tree as one more row, if its class is new. The count of the rows goes in and out; over 64 it is 65, and no more are stored.
pub fn keep(rows: &mut RowTable, n: usize, origin: Origin, class: Class) -> usize
    requires { n ≤ 65 }
    ensures { (result ≤ 65) × ((A : Automaton) (kept : List (Candidate (algebra_of A))) (c : Candidate (algebra_of A)) → Stored A rows.old n kept
        → origin_of origin ≡ c.row → parts_in class ≡ c.class
        → Stored A rows.new result (keep_if_new (algebra_of A) (known (algebra_of A) c.class kept) kept c)) }
{
    if 64 < n {
        return 65;
    }
    let left = class.left;
    let right = class.right;
    if is_known(rows, n, &left.rows, &right.rows) {
        return n;
    }
    if n == 64 {
        return 65;
    }
    store(rows, Row(n as u8), origin, class);
    n + 1
}
