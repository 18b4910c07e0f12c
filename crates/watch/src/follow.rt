// Following the run from the root: the loop, and the log's entries.
ghost use Rattle.std.specs.Prelude.{◌≡◌, ◌&&◌, ◌+◌, ◌*◌, ◌<◌, ◌≤◌, eqb, length};
ghost use Rattle.relation.specs.Sets.{member};
ghost use Rattle.watch.specs.Walk.{walk};
ghost use Rattle.watch.specs.Checks.{log_length};
ghost use Rattle.watch.specs.Following.{put_entry, Walkable, Followed};

use crate::Watched;
use model::State;
use steps::{ChoiceTable, Configuration, step};

// Writes entry k of a log: the node, low byte first, then the state.
fn put_entry(log: &mut [u8], k: usize, node: usize, state: State)
    requires { (3 * k + 3 ≤ length log.old) × (node < 65536) }
    ensures { log.new ≡ put_entry log.old k node state.0 }
{
    let at = 3 * k;
    let low = (node % 256) as u8;
    let high = (node / 256) as u8;
    log[at] = low;
    log[at + 1] = high;
    log[at + 2] = state.0;
}

// Whether the automaton is at the root in a final state.
fn is_passing(node: usize, state: State, accepting: u32) -> bool
    ensures { result ≡ (eqb node 0 && member accepting state.0) }
{
    node == 0 && relation::set::contains(accepting, state.0)
}

// Follows the run from the root in a state until it passes, is stuck, goes round or has spent the budget. `most` is nodes × states.
pub fn follow(
    nodes: &[u8],
    choices: &ChoiceTable,
    parents: &[u16],
    rights: &[u16],
    accepting: u32,
    most: usize,
    start: State,
    budget: usize,
    log: &mut [u8],
) -> Watched
    requires { Walkable accepting most start.0 nodes.now choices.now parents.now rights.now × (budget ≤ 20000)
        × (log_length budget ≤ length log.old) }
    ensures { (w : Walkable accepting most start.0 nodes.now choices.now parents.now rights.now)
        → Followed (walk w.automaton w.tree start.0 budget) log.old result log.new }
{
    let mut at = Configuration {
        node: 0,
        state: start,
    };
    let mut made: usize = 0;
    loop {
        put_entry(log, made, at.node, at.state);
        if is_passing(at.node, at.state, accepting) {
            return Watched::Passed(made);
        }
        let Some(next) = step(nodes, choices, parents, rights, at) else {
            return Watched::Stuck(made);
        };
        if made == most {
            return Watched::Circling(made);
        }
        if made == budget {
            return Watched::Spent(made);
        }
        at = next;
        made += 1;
    }
}
