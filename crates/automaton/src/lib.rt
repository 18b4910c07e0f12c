// Tree-walking automata from their files (document 01's walker files): the counts, the sets, the rules and the compiled transitions.
#![tactic(auto)]

pub mod file;
pub mod rules;

ghost use Rattle.std.specs.Prelude.{◌≡◌};
ghost use Rattle.automaton.specs.File.{signature_in};

use model::{Move, Place, Signature, State, Symbol};

// Room for the joined contents of the longest file, six blocks.
pub type Contents = [u8; 3048];

// Where a rule applies: at one place, or at all three.
#[derive(Clone, Copy)]
pub enum Scope {
    Only(Place),
    Every,
}

// In `state`, at a node with `symbol` at a place of the scope, go by `step` into `next`.
#[derive(Clone, Copy)]
pub struct Rule {
    pub symbol: Symbol,
    pub state: State,
    pub scope: Scope,
    pub step: Move,
    pub next: State,
}

// The counts and the sets at the start of a file. Bit i of a set stands for number i.
#[derive(Clone, Copy)]
pub struct Header {
    pub states: u8,
    pub symbols: u8,
    pub rules: u16,
    pub initial: u32,
    pub accepting: u32,
    pub branches: u32,
}

// The symbols that trees are read against.
impl From<Header> for Signature {
    ghost from_gives = { λ header signature. signature ≡ signature_in header };

    fn from(header: Header) -> Signature {
        Signature {
            symbols: header.symbols,
            branches: header.branches,
        }
    }
}
