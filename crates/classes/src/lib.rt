// The class of a tree: its overloops as a left part and as a right part. Equivalent trees are those of the same class.
#![tactic(auto)]

ghost use Rattle.std.specs.Prelude.{◌≡◌, ◌<◌, ◌≤◌};
ghost use Rattle.algorithms.specs.Automaton.{Automaton, Proper};
ghost use Rattle.algorithms.specs.Saturate.{same_parts, algebra_of};
ghost use Rattle.overloops.specs.Tables.{Tabled, Leaves};
ghost use Rattle.overloops.specs.Ready.{Headed};
ghost use Rattle.classes.specs.Classes.{parts_in};

use automaton::Header;
use model::{Place, Side, Symbol};
use overloops::{LeafTable, leaf_loops, leaf_overloops, node_loops, node_overloops};
use relation::Relation;
use transitions::TransitionTable;

// An automaton as it is ready for use: its header, the table of its transitions and the overloops of its leaves.
#[derive(Clone, Copy)]
pub struct Prepared<'a> {
    pub header: Header,
    pub table: &'a TransitionTable,
    pub leaves: &'a LeafTable,
}

#[derive(Clone, Copy)]
pub struct Class {
    pub left: Relation,
    pub right: Relation,
}

impl Class {
    // Whether two classes are the same.
    pub fn same(self, other: Class) -> bool
        ensures { result ≡ same_parts (parts_in self) (parts_in other) }
    {
        let left = self.left;
        let other_left = other.left;
        let right = self.right;
        let other_right = other.right;
        if left.same(other_left) {
            right.same(other_right)
        } else {
            false
        }
    }
}

// The class of a leaf.
pub fn leaf_class(leaves: &LeafTable, symbol: Symbol) -> Class
    requires { symbol.0 < 32 }
    ensures { (A : Automaton) → Proper A → Leaves A leaves.now → parts_in result ≡ (algebra_of A).leaf_class symbol.0 }
{
    Class {
        left: leaf_overloops(leaves, symbol, Side::Left),
        right: leaf_overloops(leaves, symbol, Side::Right),
    }
}

// The class of a node, from the classes of its parts.
pub fn node_class(
    table: &TransitionTable,
    states: usize,
    symbol: Symbol,
    l: Class,
    r: Class,
) -> Class
    requires { (states ≤ 24) × (symbol.0 < 32) }
    ensures { (A : Automaton) → Tabled A states table.now
        → parts_in result ≡ (algebra_of A).node_class symbol.0 (parts_in l) (parts_in r) }
{
    let left = l.left;
    let right = r.right;
    Class {
        left: node_overloops(table, states, symbol, Side::Left, left, right),
        right: node_overloops(table, states, symbol, Side::Right, left, right),
    }
}

// Whether a leaf alone is accepted.
pub fn leaf_accepted(table: &TransitionTable, header: Header, symbol: Symbol) -> bool
    requires { (header.states ≤ 24) × (symbol.0 < 32) }
    ensures { (A : Automaton) → Headed A header table.now → result ≡ (algebra_of A).leaf_accepted symbol.0 }
{
    leaf_loops(table, header.states as usize, symbol, Place::Root).meets(
        header.initial,
        header.accepting,
    )
}

// Whether a node over parts of two classes is accepted.
pub fn node_accepted(
    table: &TransitionTable,
    header: Header,
    symbol: Symbol,
    l: Class,
    r: Class,
) -> bool
    requires { (header.states ≤ 24) × (symbol.0 < 32) }
    ensures { (A : Automaton) → Headed A header table.now → result ≡ (algebra_of A).node_accepted symbol.0 (parts_in l) (parts_in r) }
{
    let left = l.left;
    let right = r.right;
    node_loops(
        table,
        header.states as usize,
        symbol,
        Place::Root,
        left,
        right,
    )
    .meets(header.initial, header.accepting)
}
