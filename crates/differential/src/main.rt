// Compares the engine with a brute-force run on pairs of an automaton and a tree by chance. A pair is made from its number alone, as data;
// the brute force works on the data, the engine on the two files that are written from it. Some files are damaged, and have to be refused.
// It writes the verdicts that the brute force gives for each family of automata and each shape of trees, and how often the engine differs.
#![tactic(auto)]

use generated::families;
use membership::Answer;
use refusal::Refusal;
use sampling::access::number;
use sampling::random::{chance, draw, seed};
use sampling::report::{count, differences, judgements, labelled, text};
use sampling::rules::Automaton;
use search::{files, trees, walk};

// The pairs of each family.
const PAIRS: usize = 3000;

// What is said of a pair of files: accepted (0), other (1), or refused (2) with the refusal's number, file and place.
#[derive(Clone, Copy, PartialEq, Eq)]
struct Verdict {
    kind: usize,
    number: usize,
    file: usize,
    place: usize,
}

// What was expected of a pair and what the engine found, with the shape of its tree.
#[derive(Clone, Copy)]
struct Outcome {
    shape: usize,
    expected: Verdict,
    found: Verdict,
}

fn refused(number: usize, file: usize, place: usize) -> Verdict {
    Verdict {
        kind: 2,
        number,
        file,
        place,
    }
}

impl From<bool> for Verdict {
    fn from(accepted: bool) -> Self {
        Verdict {
            kind: if accepted { 0 } else { 1 },
            number: 0,
            file: 0,
            place: 0,
        }
    }
}

impl From<Refusal> for Verdict {
    fn from(refusal: Refusal) -> Self {
        refused(
            refusal.number as usize,
            refusal.file as usize,
            refusal.place,
        )
    }
}

// The engine's verdict.
fn engine(automaton: &[u8], tree: &[u8]) -> Verdict {
    match judging::accepts(automaton, tree) {
        Ok(Answer::Accepted) => Verdict::from(true),
        Ok(Answer::Other) => Verdict::from(false),
        Err(refusal) => Verdict::from(refusal),
    }
}

// Damages one byte of one of the files in some pairs; the verdict that is expected then.
fn damaged(
    random: &mut u64,
    automaton: &mut [u8],
    n: usize,
    tree: &mut [u8],
    k: usize,
    verdict: Verdict,
) -> Verdict {
    if !chance(random, 1, 50) {
        return verdict;
    }
    let by = draw(random, 255);
    if chance(random, 1, 2) {
        let at = draw(random, n);
        files::damage(automaton, at, by);
        refused(2, 0, at / 512)
    } else {
        let at = draw(random, k);
        files::damage(tree, at, by);
        refused(2, 1, at / 512)
    }
}

// Writes the files of a pair, and has the engine judge them.
fn compare(
    random: &mut u64,
    a: Automaton,
    rules: &[u8],
    nodes: &[usize],
    size: usize,
    shape: usize,
) -> Outcome {
    let mut reached = [0u32; 1024];
    let mut automaton = [0u8; 3072];
    let mut tree = [0u8; 4608];
    let verdict = Verdict::from(walk::accepts(a, rules, nodes, size, &mut reached));
    let n = files::write_automaton(&mut automaton, a, rules);
    let k = files::write_tree(&mut tree, nodes, size);
    let expected = damaged(random, &mut automaton, n, &mut tree, k, verdict);
    let found = engine(files::front(&automaton, n), files::front(&tree, k));
    Outcome {
        shape,
        expected,
        found,
    }
}

// The pair of that number.
fn one_pair(pair: usize, family: usize) -> Outcome {
    let mut random = seed(pair);
    let mut nodes = [0usize; 8192];
    let mut rules = [0u8; 2560];
    let first = families::start(&mut random, family);
    let shape = trees::choose(&mut random);
    let size = trees::grow(
        &mut random,
        &mut nodes,
        shape,
        first.symbols,
        first.branches,
    );
    let a = families::make(&mut random, &nodes, &mut rules, first, family);
    compare(&mut random, a, &rules, &nodes, size, shape.kind)
}

// Writes a verdict's kind, number, file and place.
fn print_verdict(label: &[u8], verdict: Verdict) {
    labelled(label, verdict.kind);
    labelled(b" ", verdict.number);
    labelled(b" ", verdict.file);
    labelled(b" ", verdict.place);
}

// Writes the pair of a difference, for the first ten.
fn print_difference(counts: &[usize], pair: usize, outcome: Outcome) {
    if number(counts, 63) < 10 {
        labelled(b"difference at pair ", pair);
        print_verdict(b" expected ", outcome.expected);
        print_verdict(b" found ", outcome.found);
        text(b"\n");
    }
}

// Has one pair compared and counts it. Counts: three verdicts for each family (from 0), for each shape (from 32), in all (60); differences
// (63).
fn tally(counts: &mut [usize], pair: usize, family: usize) {
    let outcome = one_pair(pair, family);
    let expected = outcome.expected;
    let kind = expected.kind % 3;
    count(counts, family % 8 * 3 + kind);
    count(counts, outcome.shape % 8 * 3 + 32 + kind);
    count(counts, 60 + kind);
    if expected != outcome.found {
        print_difference(counts, pair, outcome);
        count(counts, 63);
    }
}

fn run(counts: &mut [usize]) {
    for pair in 0..PAIRS * families::FAMILIES {
        tally(counts, pair, pair / PAIRS);
    }
}

fn print_families(counts: &[usize]) {
    for family in 0..families::FAMILIES {
        judgements(families::name(family), counts, 3 * family);
    }
}

fn print_shapes(counts: &[usize]) {
    judgements(b"trees by chance", counts, 32);
    judgements(b"left combs", counts, 35);
    judgements(b"right combs", counts, 38);
    judgements(b"zigzags", counts, 41);
    judgements(b"full trees", counts, 44);
}

fn main() {
    let mut counts = [0usize; 64];
    run(&mut counts);
    print_families(&counts);
    print_shapes(&counts);
    judgements(b"all", &counts, 60);
    differences(number(&counts, 63));
}
