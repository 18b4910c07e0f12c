// Automata of all families, single or not, and trees for them.
use generated::families;
use sampling::random::{chance, subset};
use sampling::rules::Automaton;

// The families of `generated`, then those of `walks` twice.
pub const GROUPS: usize = 16;

// An automaton, and how many nodes its tree has.
#[derive(Clone, Copy)]
pub struct Made {
    pub automaton: Automaton,
    pub size: usize,
}

// An automaton of the group with no rule yet and no start or final state.
fn start(random: &mut u64, group: usize) -> Automaton {
    if group < families::FAMILIES {
        families::start(random, group)
    } else {
        walks::start(random, group % walks::FAMILIES)
    }
}

// With rules and sets, for a tree.
fn of_group(
    random: &mut u64,
    nodes: &[usize],
    records: &mut [u8],
    a: Automaton,
    group: usize,
) -> Automaton {
    if group < families::FAMILIES {
        families::make(random, nodes, records, a, group)
    } else {
        walks::make(random, nodes, records, a, group % walks::FAMILIES)
    }
}

// One in three gets any start and final states.
fn with_states(random: &mut u64, a: Automaton) -> Automaton {
    let initial = subset(random, a.states);
    let accepting = subset(random, a.states);
    if chance(random, 1, 3) {
        a.with_sets(initial, accepting)
    } else {
        a
    }
}

// Makes an automaton of the group and a tree for it, in arrays that were all zero.
pub fn make(random: &mut u64, nodes: &mut [usize], records: &mut [u8], group: usize) -> Made {
    let first = start(random, group);
    let size = large_trees::make(random, nodes, first.symbols, first.branches);
    let a = of_group(random, nodes, records, first, group);
    Made {
        automaton: with_states(random, a),
        size,
    }
}
