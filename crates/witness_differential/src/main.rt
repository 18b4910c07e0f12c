// Survey, write and judge, on small automata by chance: the plan that the survey finds, or one by chance, is written as the file of a letter,
// which has to be the file of the tree that the plan builds, byte for byte, with the bytes after it as they were; and judging it has to agree
// with runs. Each plan is written once as it is and once damaged, or with a damaged automaton or too short an output. It writes the answers,
// the heights found, and how often one was wrong.
#![tactic(auto)]

use sampling::access::number;
use sampling::random::{chance, seed};
use sampling::report::{differences, labelled, row, text};
use sampling::rules::Automaton;
use search::files;
use trials::{count_height, file_damaged, input, make_plan};

// The automata of each family.
const AUTOMATA: usize = 1000;

const ALL: usize = AUTOMATA * small::FAMILIES;

// The second input: a damaged automaton, or a plan that is damaged or not.
fn second(
    counts: &mut [usize],
    random: &mut u64,
    a: Automaton,
    rules: &[u8],
    file: &mut [u8],
    buffer: &mut [u8],
    length: usize,
    k: usize,
) {
    if chance(random, 1, 8) {
        file_damaged(counts, random, a, file, files::front(buffer, length), k);
        return;
    }
    let n = plans::damage(random, buffer, length);
    input(
        counts,
        12,
        random,
        a,
        rules,
        file,
        files::front(buffer, n),
        k,
    );
}

// The two inputs of an automaton.
fn inputs(
    counts: &mut [usize],
    random: &mut u64,
    a: Automaton,
    rules: &[u8],
    file: &mut [u8],
    buffer: &mut [u8],
    k: usize,
) {
    let made = make_plan(random, a, file, buffer);
    let length = made.length;
    let from = match made.height {
        Some(height) => {
            count_height(counts, height);
            0
        }
        None => 6,
    };
    input(
        counts,
        from,
        random,
        a,
        rules,
        file,
        files::front(buffer, length),
        k,
    );
    second(counts, random, a, rules, file, buffer, length, k);
}

// The automaton of that number.
fn one(counts: &mut [usize], k: usize, family: usize) {
    let mut random = seed(k);
    let mut rules = [0u8; 2560];
    let mut file = [0u8; 3072];
    let mut buffer = [0u8; 256];
    let a = small::make(&mut random, &mut rules, family);
    let n = files::write_automaton(&mut file, a, &rules);
    if n <= 3072 {
        inputs(
            counts,
            &mut random,
            a,
            &rules,
            &mut file[..n],
            &mut buffer,
            k,
        );
    }
}

fn run(counts: &mut [usize]) {
    for k in 0..ALL {
        one(counts, k, k / AUTOMATA);
    }
}

// A line with the six counts of a kind of input.
fn line(label: &[u8], counts: &[usize], at: usize) {
    let a = at % 64;
    text(label);
    labelled(b" accepted=", number(counts, a));
    labelled(b" other=", number(counts, a + 1));
    labelled(b" 15=", number(counts, a + 2));
    labelled(b" 16=", number(counts, a + 3));
    labelled(b" 13=", number(counts, a + 4));
    labelled(b" automaton=", number(counts, a + 5));
    text(b"\n");
}

// How many trees were found at each height, from 7 on together.
fn print_heights(counts: &[usize]) {
    row(b"found at heights 0 to 7:", counts, 18, 26);
}

fn main() {
    let mut counts = [0usize; 27];
    run(&mut counts);
    line(b"found", &counts, 0);
    line(b"by chance", &counts, 6);
    line(b"damaged", &counts, 12);
    print_heights(&counts);
    differences(number(&counts, 26));
}
