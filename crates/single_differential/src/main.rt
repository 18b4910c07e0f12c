// Compares single with a pairwise reading of the records, on automata by chance whose records say rules more than once. Each is asked once as
// it is and once damaged, with the refusal that document 01 has for it. It writes the answers of each family, the refusals by number, and how
// often the engine differs.
#![tactic(auto)]

use determinism::Singleness;
use refusal::Refusal;
use sampling::access::number;
use sampling::random::seed;
use sampling::report::{count, differences, labelled, row, text};
use sampling::rules::Automaton;
use search::files;

// The automata of each family.
const AUTOMATA: usize = 2000;

// What is told of a file: single (0), not single (1), or refused (2) with the refusal's number and place.
#[derive(Clone, Copy, PartialEq, Eq)]
struct Answer {
    kind: usize,
    number: usize,
    place: usize,
}

impl From<bool> for Answer {
    fn from(single: bool) -> Self {
        Answer {
            kind: if single { 0 } else { 1 },
            number: 0,
            place: 0,
        }
    }
}

fn refused(number: usize, place: usize) -> Answer {
    Answer {
        kind: 2,
        number,
        place,
    }
}

// A refusal of another file than the automaton's is told as number 0.
impl From<Refusal> for Answer {
    fn from(refusal: Refusal) -> Answer {
        if refusal.file == 0 {
            refused(refusal.number as usize, refusal.place)
        } else {
            refused(0, 0)
        }
    }
}

fn engine(file: &[u8]) -> Answer {
    match determinism::single_file(file) {
        Ok(Singleness::Single) => Answer::from(true),
        Ok(Singleness::Multiple) => Answer::from(false),
        Err(refusal) => Answer::from(refusal),
    }
}

fn count_if(counts: &mut [usize], at: usize, holds: bool) {
    if holds {
        count(counts, at);
    }
}

// Counts: three kinds for each family (from 0), refusals by number (from 16), differences (31).
fn compare(counts: &mut [usize], family: usize, file: &[u8], expected: Answer) {
    let found = engine(file);
    count(counts, family % 4 * 3 + expected.kind % 3);
    count_if(counts, 16 + expected.number % 15, expected.kind == 2);
    count_if(counts, 31, found != expected);
}

// An automaton's file as its data has it, of which these are expected.
fn compare_data(
    counts: &mut [usize],
    family: usize,
    a: Automaton,
    records: &[u8],
    expected: Answer,
) {
    let mut file = [0u8; 3072];
    let n = files::write_automaton(&mut file, a, records);
    compare(counts, family, files::front(&file, n), expected);
}

fn compare_damaged(
    counts: &mut [usize],
    random: &mut u64,
    family: usize,
    a: Automaton,
    records: &mut [u8],
) {
    let mut file = [0u8; 3072];
    let made = damaged::make(random, a, records, &mut file);
    let expected = refused(made.number, made.place);
    compare(counts, family, files::front(&file, made.length), expected);
}

// The automaton of that number, as it is and damaged.
fn one(counts: &mut [usize], k: usize, family: usize) {
    let mut random = seed(k);
    let mut records = [0u8; 2560];
    let a = repeats::make(&mut random, &mut records, family);
    let expected = Answer::from(repeats::is_single(&records, a));
    compare_data(counts, family, a, &records, expected);
    compare_damaged(counts, &mut random, family, a, &mut records);
}

fn run(counts: &mut [usize]) {
    for k in 0..AUTOMATA * repeats::FAMILIES {
        one(counts, k, k / AUTOMATA);
    }
}

// A line with the three counts that start there.
fn line(label: &[u8], counts: &[usize], at: usize) {
    let a = at % 16;
    text(label);
    labelled(b" single=", number(counts, a));
    labelled(b" not=", number(counts, a + 1));
    labelled(b" refused=", number(counts, a + 2));
    text(b"\n");
}

fn main() {
    let mut counts = [0usize; 32];
    run(&mut counts);
    line(b"copies", &counts, 0);
    line(b"place 3 and copies", &counts, 3);
    line(b"changed copies", &counts, 6);
    line(b"any rules", &counts, 9);
    row(b"refusals 1 to 9:", &counts, 17, 26);
    differences(number(&counts, 31));
}
