// Whether an automaton is single. Its compiled transitions are its spread rules, each once: it is single where they are deterministic.
#![tactic(auto)]

ghost use Rattle.std.specs.Prelude.{◌≡◌, ◌<◌, ◌≤◌};
ghost use Rattle.std.specs.Int.Count.{ones};
ghost use Rattle.algorithms.specs.Automaton.{Automaton};
ghost use Rattle.automaton.specs.File.{WithinLimits};
ghost use Rattle.transitions.specs.Compiled.{Compiled, next_in};
ghost use Rattle.determinism.specs.Determined.{one_choice, one_each, one_places, one_symbols, determined};
ghost use Rattle.determinism.specs.Single.{single_if, single_of};
ghost use Rattle.determinism.specs.Singles.{SingleRight};

use automaton::Header;
use model::{Move, Place, Side, State, Symbol};
use refusal::Refusal;
use transitions::{TransitionTable, cell};

// Whether an automaton is single.
#[derive(Clone, Copy)]
pub enum Singleness {
    Single,
    Multiple,
}

// How many members a set has.
fn size(set: u32) -> u32
    ensures { (result ≡ ones set) × (result ≤ 32) }
{
    u32::count_ones(set)
}

// Whether a symbol, a place and a state have at most one move and next state.
#[tactic(auto, unfolding(crate::specs::Determined::one_choice))]
fn one_choice(table: &TransitionTable, symbol: Symbol, place: Place, state: State) -> bool
    requires { (symbol.0 < 32) × (state.0 < 24) }
    ensures { result ≡ one_choice (next_in table.now) symbol.0 place state.0 }
{
    let stay = size(table[cell(symbol, place, Move::Stay, state)]);
    let up = size(table[cell(symbol, place, Move::Up, state)]);
    let left = size(table[cell(symbol, place, Move::Down(Side::Left), state)]);
    let right = size(table[cell(symbol, place, Move::Down(Side::Right), state)]);
    stay + up + left + right <= 1
}

// The same for each state.
fn one_each(table: &TransitionTable, symbol: Symbol, place: Place, states: usize) -> bool
    requires { (symbol.0 < 32) × (states ≤ 24) }
    ensures { result ≡ one_each (next_in table.now) symbol.0 place states }
{
    for p in 0..states {
        if !one_choice(table, symbol, place, State(p as u8)) {
            return false;
        }
    }
    true
}

// The same at each place.
#[tactic(auto, unfolding(crate::specs::Determined::one_places))]
fn one_places(table: &TransitionTable, symbol: Symbol, states: usize) -> bool
    requires { (symbol.0 < 32) × (states ≤ 24) }
    ensures { result ≡ one_places (next_in table.now) states symbol.0 }
{
    if !one_each(table, symbol, Place::Root, states) {
        return false;
    }
    if !one_each(table, symbol, Place::Child(Side::Left), states) {
        return false;
    }
    one_each(table, symbol, Place::Child(Side::Right), states)
}

// The same for each symbol.
fn one_symbols(table: &TransitionTable, symbols: usize, states: usize) -> bool
    requires { (symbols ≤ 32) × (states ≤ 24) }
    ensures { result ≡ one_symbols (next_in table.now) states symbols }
{
    for symbol in 0..symbols {
        if !one_places(table, Symbol(symbol as u8), states) {
            return false;
        }
    }
    true
}

// Whether an automaton is single, by its header and compiled transitions.
pub fn single_prepared(header: Header, table: &TransitionTable) -> Singleness
    requires { WithinLimits header }
    ensures { (A : Automaton) → Compiled A table.now → A.symbols ≡ header.symbols → A.states ≡ header.states
        → result ≡ single_if (determined A) }
{
    if one_symbols(table, header.symbols as usize, header.states as usize) {
        Singleness::Single
    } else {
        Singleness::Multiple
    }
}

// Whether the automaton of a file is single, or the file's refusal.
pub fn single_file(file: &[u8]) -> Result<Singleness, Refusal>
    ensures equals { result ≡ single_of file.now }
    ensures right { SingleRight file.now result }
{
    let mut table = [0u32; 9216];
    let header = transitions::load(file, &mut table)?;
    Ok(single_prepared(header, &table))
}
