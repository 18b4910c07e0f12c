// The approximation of an automaton's overloops by three sets of pairs, the paper's third algorithm (document 01's quick check): the least
// that hold the overloops of all leaves and what nodes form of them. A `Class` serves as the pair of the left and the right set.
#![tactic(auto)]

ghost use Rattle.std.specs.Prelude.{◌≡◌, ℕ, ◌≤◌, List};
ghost use Rattle.relation.specs.Rows.{joined};
ghost use Rattle.model.specs.declared.Side.{Side};
ghost use Rattle.algorithms.specs.Automaton.{Automaton};
ghost use Rattle.algorithms.specs.Saturate.{parts};
ghost use Rattle.algorithms.specs.Approximate as spec;
ghost use Rattle.automaton.specs.File.{WithinLimits};
ghost use Rattle.overloops.specs.Ready.{Headed, Ready};
ghost use Rattle.classes.specs.Classes.{parts_in};
ghost use Rattle.classes.specs.Prepared.{ReadyFor};

use algorithms::is_branch;
use automaton::Header;
use classes::{Class, Prepared, leaf_class, node_class};
use model::{Place, Symbol};
use overloops::{LeafTable, leaf_loops, node_loops};
use relation::Relation;
use transitions::TransitionTable;

// The pairs of both, on each side.
fn join(sets: Class, other: Class) -> Class
    ensures { parts_in result ≡ parts (joined sets.left.rows other.left.rows) (joined sets.right.rows other.right.rows) }
{
    let left = sets.left;
    let right = sets.right;
    Class {
        left: left.join(other.left),
        right: right.join(other.right),
    }
}

// The overloops of all leaves.
fn leaf_sets(leaves: &LeafTable, header: Header) -> Class
    requires { header.symbols ≤ 32 }
    ensures { (A : Automaton) (table : List ℕ) → Ready A header table leaves.now
        → parts_in result ≡ parts (spec.leaf_side A Side.Left) (spec.leaf_side A Side.Right) }
{
    let mut sets = Class {
        left: Relation::empty(),
        right: Relation::empty(),
    };
    for symbol in 0..header.symbols {
        if !is_branch(header.branches, Symbol(symbol)) {
            sets = join(sets, leaf_class(leaves, Symbol(symbol)));
        }
    }
    sets
}

// The sets, with what every branch symbol forms of them.
fn formed(table: &TransitionTable, header: Header, sets: Class) -> Class
    requires { WithinLimits header }
    ensures { (A : Automaton) → Headed A header table.now → parts_in result ≡ spec.formed A (parts_in sets) }
{
    let states = header.states as usize;
    let mut more = sets;
    for symbol in 0..header.symbols {
        if is_branch(header.branches, Symbol(symbol)) {
            more = join(more, node_class(table, states, Symbol(symbol), sets, sets));
        }
    }
    more
}

// The sets with what is formed of them, again and again until nothing is new. Each turn but the last adds one of 2 · 24 · 24 pairs.
fn settled(table: &TransitionTable, header: Header, start: Class) -> Class
    requires { WithinLimits header }
    ensures { (A : Automaton) → Headed A header table.now → parts_in result ≡ spec.settled A 1153 (parts_in start) }
{
    let mut sets = start;
    for turn in 0..1153usize {
        let more = formed(table, header, sets);
        if more.same(sets) {
            return sets;
        }
        sets = more;
    }
    sets
}

// The loops at the root of a whole tree, with the left and right sets for its parts.
fn root_loops(table: &TransitionTable, header: Header, sets: Class) -> Relation
    requires { WithinLimits header }
    ensures { (A : Automaton) → Headed A header table.now → result.rows ≡ spec.root_side A (parts_in sets) }
{
    let states = header.states as usize;
    let left = sets.left;
    let right = sets.right;
    let mut loops = Relation::empty();
    for symbol in 0..header.symbols {
        if is_branch(header.branches, Symbol(symbol)) {
            loops = loops.join(node_loops(table, states, Symbol(symbol), Place::Root, left, right));
        } else {
            loops = loops.join(leaf_loops(table, states, Symbol(symbol), Place::Root));
        }
    }
    loops
}

// Whether no loop at the root leads from an initial state to a final one, with the least sets for the parts.
pub fn is_clear(prepared: Prepared) -> bool
    requires { WithinLimits prepared.header }
    ensures { (A : Automaton) → ReadyFor A prepared.entry → result ≡ spec.clear? A }
{
    let header = prepared.header;
    let table = prepared.table;
    let sets = settled(table, header, leaf_sets(prepared.leaves, header));
    !root_loops(table, header, sets).meets(header.initial, header.accepting)
}
