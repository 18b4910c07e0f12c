// How many entries from the start of a log are a run.
ghost use Rattle.std.specs.Prelude.{◌≡◌, ◌+◌, ◌*◌, ◌≤◌, length};
ghost use Rattle.logs.specs.Prefix.{entries_of, begins, run_prefix};
ghost use Rattle.logs.specs.Counting.{entry_at, entry_of, Countable};

use model::State;
use steps::Configuration;
use steps::leads::leads;
use transitions::TransitionTable;

// Entry k of a log: the node, low byte first, then the state.
fn entry_at(log: &[u8], k: usize) -> Configuration
    requires { 3 * k + 3 ≤ length log.now }
    ensures { entry_of result ≡ entry_at log.now k }
{
    let at = 3 * k;
    let low = log[at] as usize;
    let high = log[at + 1] as usize;
    let state = log[at + 2];
    Configuration {
        node: low + 256 * high,
        state: State(state),
    }
}

// Whether an entry is the root in a start state.
fn is_start(initial: u32, entry: Configuration) -> bool
    ensures { result ≡ begins initial (entry_of entry) }
{
    entry.node == 0 && relation::set::contains(initial, entry.state.0)
}

// How many entries from the start on are a run: the root in a start state, then each reached from the one before by a step.
pub fn run_prefix(
    nodes: &[u8],
    table: &TransitionTable,
    parents: &[u16],
    rights: &[u16],
    initial: u32,
    log: &[u8],
) -> usize
    requires { Countable initial nodes.now table.now parents.now rights.now }
    ensures { (w : Countable initial nodes.now table.now parents.now rights.now)
        → result ≡ run_prefix w.automaton w.tree (entries_of log.now) }
{
    let n = log.len() / 3;
    if n == 0 {
        return 0;
    }
    let mut last = entry_at(log, 0);
    if !is_start(initial, last) {
        return 0;
    }
    for k in 1..n {
        let next = entry_at(log, k);
        if !leads(nodes, table, parents, rights, last, next) {
            return k;
        }
        last = next;
    }
    n
}
