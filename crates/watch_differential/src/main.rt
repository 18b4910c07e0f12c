// Compares the watching of a run with a reading that follows the run record by record, on single automata and trees by chance, of which every second
// pair has a fault or several. All bytes of the log are compared. Where there is no fault the search over all configurations has to accept the tree
// exactly if the run passed, and a budget of nodes times states is never spent. It writes how the runs end, the refusals by number, and how often the
// engine differs.
#![tactic(auto)]

use followed::answer::Question;
use sampling::random::seed;
use sampling::rules::Automaton;
use search::files;
use watch_answers::{PAIRS, compare_answers};
use watch_trials::counts::{COUNTS, SEVERAL, count_if};
use watch_trials::{counts, searched};

// Makes the files and the log's length, and compares.
fn ask(
    counts: &mut [usize],
    random: &mut u64,
    k: usize,
    a: Automaton,
    records: &mut [u8; 2560],
    nodes: &[usize; large_trees::ROOM],
    size: usize,
    budget: usize,
    faults: u32,
) {
    let mut automaton = [0u8; 3072];
    let mut tree = [0u8; damaged_trees::ROOM];
    let first = watch_faults::automaton_file(random, a, records, &mut automaton, faults);
    let second = watch_faults::tree_file(random, a, nodes, size, &mut tree, faults);
    let room = watch_faults::room(random, budget, faults);
    let q = Question {
        automaton: first,
        tree: second,
        budget,
        room,
    };
    let found = compare_answers(
        counts,
        k,
        a,
        records,
        nodes,
        size,
        q,
        files::front(&automaton, first.length),
        files::front(&tree, second.length),
    );
    if faults == 0 {
        searched::compare(counts, a, records, nodes, size, budget, found);
    }
}

// The pair of that number.
fn one(counts: &mut [usize], k: usize, family: usize) {
    let mut random = seed(k);
    let mut nodes = [0usize; large_trees::ROOM];
    let mut records = [0u8; 2560];
    let first = walks::start(&mut random, family);
    let size = large_trees::make(&mut random, &mut nodes, first.symbols, first.branches);
    let a = walks::make(&mut random, &nodes, &mut records, first, family);
    let faults = watch_faults::of_pair(&mut random, k, a);
    let budget = watch_faults::budget(&mut random, a, &records, &nodes, size, faults);
    let b = watch_faults::with_start(&mut random, a, faults);
    let c = watch_faults::with_rules(&mut random, &mut records, b, faults);
    count_if(counts, SEVERAL, watch_faults::several(faults));
    ask(
        counts,
        &mut random,
        k,
        c,
        &mut records,
        &nodes,
        size,
        budget,
        faults,
    );
}

fn run(counts: &mut [usize]) {
    for k in 0..PAIRS * walks::FAMILIES {
        one(counts, k, k / PAIRS);
    }
}

fn main() {
    let mut counts = [0usize; COUNTS];
    run(&mut counts);
    counts::print_endings(&counts);
    counts::print_refusals(&counts);
    counts::print_differences(&counts);
}
