// The transitions of an automaton, compiled from its rules into a table of sets of next states: a cell for each symbol, place, move and state.
#![tactic(auto)]

ghost use Rattle.std.specs.Prelude.{◌≡◌, ◌+◌, ◌*◌, ◌<◌, ◌≤◌, length, replicate};
ghost use Rattle.automaton.specs.File.{LaidOut, parsed};
ghost use Rattle.automaton.specs.Payload.{move_byte};
ghost use Rattle.automaton.specs.Rules.{rule_at};
ghost use Rattle.transitions.specs.Transitions.{place_number, automaton_of};
ghost use Rattle.transitions.specs.Compiled.{cell_of, RuleFits, Stepped, Added, Compiled, Loaded};

use automaton::{Header, Rule, Scope};
use model::{Move, Place, Side, State, Symbol};
use refusal::Refusal;

// A set of next states for each of 32 symbols, 3 places, 4 moves and 24 states.
pub type TransitionTable = [u32; 9216];

// A place, and below a move, as the byte that stands for it.
pub fn place_number(place: Place) -> usize
    ensures { (result ≡ place_number place) × (result < 3) }
{
    match place {
        Place::Root => 0,
        Place::Child(side) => match side {
            Side::Left => 1,
            Side::Right => 2,
        },
    }
}

pub fn move_number(step: Move) -> usize
    ensures { (result ≡ move_byte step) × (result < 4) }
{
    match step {
        Move::Stay => 0,
        Move::Up => 1,
        Move::Down(side) => match side {
            Side::Left => 2,
            Side::Right => 3,
        },
    }
}

// The cell of a symbol, a place, a move and a state.
pub fn cell(symbol: Symbol, place: Place, step: Move, state: State) -> usize
    requires { (symbol.0 < 32) × (state.0 < 24) }
    ensures { (result ≡ cell_of symbol.0 place step state.0) × (result < 9216) }
{
    (((symbol.0 as usize) * 3 + place_number(place)) * 4 + move_number(step)) * 24
        + (state.0 as usize)
}

// Adds a rule's transition at one place.
fn add_step(table: &mut [u32], rule: Rule, place: Place)
    requires { (length table.old ≡ 9216) × RuleFits rule }
    ensures { Stepped rule place table.old table.new }
{
    let symbol = rule.symbol;
    let step = rule.step;
    let state = rule.state;
    let next = rule.next.0;
    let at = cell(symbol, place, step, state);
    table[at] = table[at] | (1u32 << next);
}

// Adds a rule's transition at each place of its scope.
fn add_rule(table: &mut [u32], rule: Rule)
    requires { (length table.old ≡ 9216) × RuleFits rule }
    ensures { Added (Some rule) table.old table.new }
{
    let scope = rule.scope;
    match scope {
        Scope::Only(place) => add_step(table, rule, place),
        Scope::Every => {
            add_step(table, rule, Place::Root);
            add_step(table, rule, Place::Child(Side::Left));
            add_step(table, rule, Place::Child(Side::Right));
        }
    }
}

// Adds rule i of a file.
fn add_rule_at(content: &[u8], header: Header, i: usize, table: &mut [u32])
    requires { (25 + 5 * i ≤ length content.now) × (header.states ≤ 24) × (header.symbols ≤ 32) × (length table.old ≡ 9216) }
    ensures { Added (rule_at header content.now i) table.old table.new }
{
    let Some(rule) = automaton::rules::rule_at(content, header, i) else {
        return;
    };
    add_rule(table, rule);
}

// Fills a table of zeros with the transitions that the rules allow.
pub fn compile(content: &[u8], header: Header, table: &mut TransitionTable)
    requires { LaidOut header content.now × (table.old ≡ replicate 9216 0) }
    ensures { Compiled (automaton_of header content.now) table.new }
{
    let rules = header.rules as usize;
    for i in 0..rules {
        add_rule_at(content, header, i, table);
    }
}

// Reads an automaton's file: its compiled transitions go to the table, which begins as zeros. A refused file leaves the table as it was.
pub fn load(file: &[u8], table: &mut TransitionTable) -> Result<Header, Refusal>
    requires { table.old ≡ replicate 9216 0 }
    ensures { (result ≡ parsed file.now) × Loaded result file.now table.old table.new }
{
    let mut contents = [0u8; 3048];
    let header = automaton::file::read(file, &mut contents)?;
    let len = blocks::content_length(file);
    compile(&contents[..len], header, table);
    Ok(header)
}
