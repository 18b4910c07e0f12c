// The saturation, document 01's survey: rounds of candidates until a tree is accepted, the rows are more than 64, or a round adds none.
#![tactic(auto)]

ghost use Rattle.std.specs.Prelude.{◌≡◌};
ghost use Rattle.algorithms.specs.Automaton.{Automaton};
ghost use Rattle.algorithms.specs.Saturate.{saturation_of};
ghost use Rattle.automaton.specs.File.{WithinLimits};
ghost use Rattle.classes.specs.Prepared.{ReadyFor};
ghost use Rattle.saturation.specs.Ends.{verdict_of, FoundFew};

use candidates::{Tried, round};
use classes::Prepared;
use interchange::{Doubles, Entered, fill_entered, mark};
use representatives::{Origin, RowTable};

// How the rounds end: Found at a height after so many rows, with the accepted tree; Open or Empty at a height. All
// three are outcomes of their own, none a refusal or an absence.
#[derive(Clone, Copy)]
pub enum Saturated {
    Found {
        height: usize,
        rows: usize,
        origin: Origin,
    },
    Open(usize),
    Empty(usize),
}

// The rounds, from no row on. As a round begins, the rows of the last are marked where they are doubles. Each but the last adds a row, so that
// they end.
pub fn saturate(prepared: Prepared, rows: &mut RowTable) -> Saturated
    requires { WithinLimits prepared.header }
    ensures { FoundFew result × ((A : Automaton) → ReadyFor A prepared.entry
        → saturation_of A ≡ verdict_of result rows.new) }
{
    let mut entered: Entered = [0; 64];
    fill_entered(prepared.table, prepared.header.symbols, &mut entered);
    let mut doubles: Doubles = [0; 128];
    let mut old: usize = 0;
    let mut n: usize = 0;
    let mut height: usize = 0;
    loop {
        mark(
            &entered,
            prepared.header.symbols,
            rows,
            old,
            n,
            &mut doubles,
        );
        match round(prepared, height, old, n, &doubles, rows) {
            Tried::Accepted(origin) => return Saturated::Found {
                height,
                rows: n,
                origin,
            },
            Tried::Kept(m) => {
                if 64 < m {
                    return Saturated::Open(height);
                }
                if m <= n {
                    return Saturated::Empty(height);
                }
                old = n;
                n = m;
                height += 1;
            }
        }
    }
}
