// Two logs of one automaton and one tree held together: where they part, and how far each is a run (document 02, W8).
#![tactic(auto)]

mod prefix;

ghost use Rattle.std.specs.Prelude.{◌≡◌};
ghost use Rattle.algorithms.specs.Automaton.{Automaton};
ghost use Rattle.automaton.specs.File.{WithinLimits};
ghost use Rattle.overloops.specs.Ready.{Headed};
ghost use Rattle.watch.specs.Following.{Held};
ghost use Rattle.logs.specs.Checks.{logs_check};
ghost use Rattle.logs.specs.Compare.{compared_tree, compared_by, compared_of, part_of, told_of};
ghost use Rattle.logs.specs.Promise.{Promise};

use crate::prefix::run_prefix;
use agreement::common;
use automaton::Header;
use links::link;
use model::Signature;
use refusal::{Fault, Refusal, refused};
use transitions::TransitionTable;
use tree::file::read_tree;

// How many entries from the start of each log are a run.
#[derive(Clone, Copy)]
pub struct Compared {
    pub first: usize,
    pub second: usize,
}

// Refusal 23: the first log is looked at first.
#[tactic(auto, unfolding(crate::specs::Checks::logs_check))]
fn logs_check(first: &[u8], second: &[u8]) -> Result<(), Refusal>
    ensures { result ≡ logs_check first.now second.now }
{
    if first.len() % 3 != 0 {
        return refused(Fault::Log, 2, 0);
    }
    if second.len() % 3 != 0 {
        return refused(Fault::Log, 2, 1);
    }
    Ok(())
}

// The counts of both logs, on the tree of a node list.
fn count_nodes(
    header: Header,
    table: &TransitionTable,
    nodes: &[u8],
    first: &[u8],
    second: &[u8],
) -> Result<Compared, Refusal>
    requires { Held header table.now nodes.now }
    ensures { (w : Held header table.now nodes.now)
        → result ≡ compared_tree w.automaton w.tree first.now second.now }
{
    logs_check(first, second)?;
    let mut parents = [0u16; 4096];
    let mut rights = [0u16; 4096];
    link(nodes, header.branches, &mut parents, &mut rights);
    let initial = header.initial;
    let one = run_prefix(nodes, table, &parents, &rights, initial, first);
    let two = run_prefix(nodes, table, &parents, &rights, initial, second);
    Ok(Compared {
        first: one,
        second: two,
    })
}

// The same on a tree's file.
fn count_file(
    header: Header,
    table: &TransitionTable,
    file: &[u8],
    first: &[u8],
    second: &[u8],
) -> Result<Compared, Refusal>
    requires { WithinLimits header × ((A : Automaton) × Headed A header table.now) }
    ensures { (A : Automaton) → Headed A header table.now
        → result ≡ compared_by A file.now first.now second.now }
{
    let mut nodes = [0u8; 4096];
    let signature = Signature::from(header);
    let k = read_tree(file, signature, &mut nodes)?;
    count_nodes(header, table, &nodes[..k], first, second)
}

// The same on both files: how many entries from the start of each log are a run.
pub fn count(
    automaton: &[u8],
    tree: &[u8],
    first: &[u8],
    second: &[u8],
) -> Result<Compared, Refusal>
    ensures { result ≡ compared_of automaton.now tree.now first.now second.now }
{
    let mut table = [0u32; 9216];
    let header = transitions::load(automaton, &mut table)?;
    count_file(header, &table, tree, first, second)
}

// The part of the first log in which the two agree; of a refusal, an empty part.
fn part<'a, 'b>(compared: Result<Compared, Refusal>, first: &'a [u8], second: &'b [u8]) -> &'a [u8]
    ensures itself { result.ref_ptr ≡ first.entry.ref_ptr }
    ensures equals { result.now ≡ part_of compared first.now second.now }
{
    match compared {
        Ok(_) => common(first, second),
        Err(_) => &first[..0],
    }
}

// The refusal's number, file and place, and the two counts; 0 where there is none.
fn numbers(compared: Result<Compared, Refusal>) -> [usize; 5]
    ensures { result ≡ told_of compared }
{
    match compared {
        Ok(counts) => [0, 0, 0, counts.first, counts.second],
        Err(refusal) => {
            let number = refusal.number as usize;
            let file = refusal.file as usize;
            let place = refusal.place;
            [number, file, place, 0, 0]
        }
    }
}

// Holds two logs of an automaton's file and a tree's file together. The part in which they agree is handed back as that part of the first log itself;
// the refusal, and how many entries from the start of each log are a run, are told.
pub fn compare<'a, 'b>(
    automaton: &[u8],
    tree: &[u8],
    first: &'a [u8],
    second: &'b [u8],
    told: &mut [usize; 5],
) -> &'a [u8]
    ensures itself { result.ref_ptr ≡ first.entry.ref_ptr }
    ensures equals { (result.now ≡ part_of (compared_of automaton.now tree.now first.now second.now)
        first.now second.now)
        × (told.new ≡ told_of (compared_of automaton.now tree.now first.now second.now)) }
    ensures right { Promise automaton.now tree.now first.now second.now result.now told.new }
{
    let compared = count(automaton, tree, first, second);
    *told = numbers(compared);
    part(compared, first, second)
}
