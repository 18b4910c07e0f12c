// One step by node numbers: the transition that an automaton makes at a node, from a table of them, and the node that it leads to; and whether some
// transition leads from one configuration to another.
#![tactic(auto)]

pub mod leads;

ghost use Rattle.std.specs.Prelude.{◌≡◌, List, ℕ, ◌<◌, ◌≤◌, length, get_or};
ghost use Rattle.relation.specs.Lowest.{lowest_of};
ghost use Rattle.algorithms.specs.Automaton.{Automaton, Proper};
ghost use Rattle.transitions.specs.Compiled.{Compiled};
ghost use Rattle.links.specs.Links.{place_in};
ghost use Rattle.steps.specs.Choices.{code_at, decoded, choice_cell, Chosen};
ghost use Rattle.steps.specs.Successors.{goes};

use links::place_at;
use model::{Place, State, Symbol};
use transitions::{TransitionTable, place_number};

// A node of a node list and a state.
#[derive(Clone, Copy)]
pub struct Configuration {
    pub node: usize,
    pub state: State,
}

// A byte for each of 32 symbols, 3 places and 24 states: a move, 32 times, and a next state; or 255.
pub type ChoiceTable = [u8; 2304];

// The lowest of a set that is not empty.
pub fn lowest(set: u32) -> u8
    ensures { (result ≡ lowest_of set) × (result ≤ 32) }
{
    u32::trailing_zeros(set) as u8
}

// The choice of a cell.
fn code_at(table: &TransitionTable, cell: usize) -> u8
    requires { cell < 2304 }
    ensures { result ≡ code_at table.now cell }
{
    let at = cell / 24 * 96 + cell % 24;
    let stay = table[at];
    if stay != 0 {
        return lowest(stay);
    }
    let up = table[at + 24];
    if up != 0 {
        return 32 + lowest(up);
    }
    let left = table[at + 48];
    if left != 0 {
        return 64 + lowest(left);
    }
    let right = table[at + 72];
    if right != 0 {
        return 96 + lowest(right);
    }
    255
}

// Fills the choices of the first symbols.
pub fn choose(table: &TransitionTable, symbols: usize, choices: &mut [u8])
    requires { (symbols ≤ 32) × (length choices.old ≡ 2304) }
    ensures { (A : Automaton) → Proper A → Compiled A table.now → Chosen symbols A.next choices.new }
{
    let end = symbols * 72;
    for cell in 0..end {
        choices[cell] = code_at(table, cell);
    }
}

// The cell of a symbol, a place and a state.
fn choice_cell(symbol: Symbol, place: Place, state: State) -> usize
    requires { (symbol.0 < 32) × (state.0 < 24) }
    ensures { (result ≡ choice_cell symbol.0 place state.0) × (result < 2304) }
{
    ((symbol.0 as usize) * 3 + place_number(place)) * 24 + (state.0 as usize)
}

// Up to the parent, where there is one.
fn up(parents: &[u16], node: usize, code: u8) -> Option<Configuration>
    requires { (node < length parents.now) × (32 ≤ code) × (code < 64) }
    ensures { (rights : List ℕ) → result ≡ goes parents.now rights node (decoded code) }
{
    if node == 0 {
        return None;
    }
    let parent = parents[node] as usize;
    Some(Configuration {
        node: parent,
        state: State(code - 32),
    })
}

// Down to a part, where there are two.
fn down(rights: &[u16], node: usize, code: u8) -> Option<Configuration>
    requires { (node < length rights.now) × (node < 65536) × (64 ≤ code) × (code < 128) }
    ensures { (parents : List ℕ) → result ≡ goes parents rights.now node (decoded code) }
{
    let right = rights[node] as usize;
    if right == 0 {
        return None;
    }
    if code < 96 {
        return Some(Configuration {
            node: node + 1,
            state: State(code - 64),
        });
    }
    Some(Configuration {
        node: right,
        state: State(code - 96),
    })
}

// Where the choice of a byte leads from a node, where it leads anywhere.
fn go(parents: &[u16], rights: &[u16], node: usize, code: u8) -> Option<Configuration>
    requires { (node < length parents.now) × (node < length rights.now) × (node < 65536) }
    ensures { result ≡ goes parents.now rights.now node (decoded code) }
{
    if code < 32 {
        return Some(Configuration {
            node,
            state: State(code),
        });
    }
    if code < 64 {
        return up(parents, node, code);
    }
    if code < 128 {
        return down(rights, node, code);
    }
    None
}

// The step from a configuration, by the node list and its links, where there is one.
pub fn step(
    nodes: &[u8],
    choices: &ChoiceTable,
    parents: &[u16],
    rights: &[u16],
    from: Configuration,
) -> Option<Configuration>
    requires { (from.node < length nodes.now) × (from.node < length parents.now) × (from.node < length rights.now) × (from.node < 65536)
        × (get_or nodes.now from.node 0 < 32) × (from.state.0 < 24) }
    ensures { result ≡ goes parents.now rights.now from.node
        (decoded (get_or choices.now (choice_cell (get_or nodes.now from.node 0) (place_in parents.now from.node) from.state.0) 0)) }
{
    let node = from.node;
    let symbol = Symbol(nodes[node]);
    let place = place_at(parents, node);
    let cell = choice_cell(symbol, place, from.state);
    go(parents, rights, node, choices[cell])
}
