// The run of a single automaton on a tree, step by step, into a log of three bytes an entry (document 02, W7).
#![tactic(auto)]

mod follow;

ghost use Rattle.std.specs.Prelude.{◌≡◌, ◌<◌, ◌≤◌, length};
ghost use Rattle.std.specs.Int.Count.{ones};
ghost use Rattle.relation.specs.Lowest.{lowest_of};
ghost use Rattle.algorithms.specs.Automaton.{Automaton};
ghost use Rattle.automaton.specs.File.{WithinLimits};
ghost use Rattle.overloops.specs.Ready.{Headed};
ghost use Rattle.determinism.specs.Determined.{determined};
ghost use Rattle.watch.specs.Walk.{walk};
ghost use Rattle.watch.specs.Checks.{log_length, watch_check};
ghost use Rattle.watch.specs.Watch.{outcome, watch_tree, watch_by, watch_of};
ghost use Rattle.watch.specs.Promise.{Promise};
ghost use Rattle.watch.specs.Following.{Followed, Held};

use crate::follow::follow;
use automaton::Header;
use determinism::{Singleness, single_prepared};
use links::link;
use model::{Signature, State};
use refusal::{Fault, Refusal, refused};
use steps::{choose, lowest};
use transitions::TransitionTable;
use tree::file::read_tree;

// How the run ended, with the steps made.
#[derive(Clone, Copy)]
pub enum Watched {
    Passed(usize),
    Stuck(usize),
    Circling(usize),
    Spent(usize),
}

// Refusals 20, 21, 22 and 13, of an automaton by its header and compiled transitions.
fn watch_check(
    header: Header,
    table: &TransitionTable,
    budget: usize,
    room: usize,
) -> Result<(), Refusal>
    requires { WithinLimits header }
    ensures { (A : Automaton) → Headed A header table.now → result ≡ watch_check (determined A) A budget room }
{
    let Singleness::Single = single_prepared(header, table) else {
        return refused(Fault::Single, 2, 0);
    };
    let starts = u32::count_ones(header.initial);
    if starts != 1 {
        return refused(Fault::Start, 2, starts as usize);
    }
    if 20000 < budget {
        return refused(Fault::Budget, 2, 20000);
    }
    if room < 3 * (budget + 1) {
        return refused(Fault::Buffer, 2, 3 * (budget + 1));
    }
    Ok(())
}

// Follows the run on the tree of a node list from a start state.
fn walk_nodes(
    header: Header,
    table: &TransitionTable,
    nodes: &[u8],
    budget: usize,
    log: &mut [u8],
) -> Watched
    requires { Held header table.now nodes.now × (ones header.initial ≡ 1) × (budget ≤ 20000) × (log_length budget ≤ length log.old) }
    ensures { (w : Held header table.now nodes.now)
        → Followed (walk w.automaton w.tree (lowest_of header.initial) budget) log.old result log.new }
{
    let mut choices = [0u8; 2304];
    let mut parents = [0u16; 4096];
    let mut rights = [0u16; 4096];
    choose(table, header.symbols as usize, &mut choices);
    link(nodes, header.branches, &mut parents, &mut rights);
    let most = nodes.len() * (header.states as usize);
    let start = State(lowest(header.initial));
    let accepting = header.accepting;
    follow(
        nodes, &choices, &parents, &rights, accepting, most, start, budget, log,
    )
}

// The checks, and the run on the tree of a node list.
fn watch_nodes(
    header: Header,
    table: &TransitionTable,
    nodes: &[u8],
    budget: usize,
    log: &mut [u8],
) -> Result<Watched, Refusal>
    requires { Held header table.now nodes.now }
    ensures { (w : Held header table.now nodes.now)
        → outcome result log.new ≡ watch_tree (determined w.automaton) w.automaton w.tree budget log.old }
{
    watch_check(header, table, budget, log.len())?;
    Ok(walk_nodes(header, table, nodes, budget, log))
}

// The same on a tree's file.
fn watch_file(
    header: Header,
    table: &TransitionTable,
    file: &[u8],
    budget: usize,
    log: &mut [u8],
) -> Result<Watched, Refusal>
    requires { WithinLimits header × ((A : Automaton) × Headed A header table.now) }
    ensures { (A : Automaton) → Headed A header table.now
        → outcome result log.new ≡ watch_by (determined A) A file.now budget log.old }
{
    let mut nodes = [0u8; 4096];
    let signature = Signature::from(header);
    let k = read_tree(file, signature, &mut nodes)?;
    watch_nodes(header, table, &nodes[..k], budget, log)
}

// Watches an automaton's file step on a tree's file, for at most so many steps. An entry for each configuration goes to the front of the log: the
// node, low byte first, then the state.
pub fn watch(
    automaton: &[u8],
    tree: &[u8],
    budget: usize,
    log: &mut [u8],
) -> Result<Watched, Refusal>
    ensures equals { outcome result log.new ≡ watch_of automaton.now tree.now budget log.old }
    ensures right { Promise automaton.now tree.now budget log.old (outcome result log.new) }
{
    let mut table = [0u32; 9216];
    let header = transitions::load(automaton, &mut table)?;
    watch_file(header, &table, tree, budget, log)
}
