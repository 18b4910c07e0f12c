// Compares the one form of an automaton's file with a reading of the records by insertion, on automata by chance whose records say rules more than
// once, and on some whose rules are about 512 or far more once place 3 is spread. Each is written into an output of the length needed, a longer or a
// shorter one, then its form is written again, and then it is damaged. All lent bytes are compared. It writes the answers of each family, how many
// records it had and how many rules remained, and how often the engine differs.
#![tactic(auto)]

use form_trials::counts::{AGAIN, COUNTS, DIFFERENCES, at, count_rules, print_all, print_families};
use forms::{Expected, Form, expected_of, refused};
use sampling::random::{draw, seed};
use sampling::report::count;
use sampling::rules::Automaton;
use search::files;

// The automata of each family.
const AUTOMATA: usize = 2000;

// Has a file written, and counts a difference.
fn compare(counts: &mut [usize], file: &[u8], room: usize, e: Expected, form_file: &[u8]) {
    if !form_trials::is_right(file, room, e, form_file) {
        count(counts, DIFFERENCES);
    }
}

// A file, with any output.
fn compare_first(
    counts: &mut [usize],
    random: &mut u64,
    family: usize,
    file: &[u8],
    form: Form,
    form_file: &[u8],
) {
    let room = forms::room_of(random, form);
    let e = expected_of(form, room);
    count(counts, at(family, e.number));
    compare(counts, file, room, e, form_file);
}

// The form's file, unless there is none, gives itself.
fn compare_again(counts: &mut [usize], form: Form, form_file: &[u8]) {
    if form.rules <= 512 {
        count(counts, AGAIN);
        let file = files::front(form_file, form.length);
        let e = expected_of(form, form.length);
        compare(counts, file, form.length, e, form_file);
    }
}

fn compare_data(
    counts: &mut [usize],
    random: &mut u64,
    family: usize,
    a: Automaton,
    records: &[u8],
) {
    let mut file = [0u8; 3072];
    let mut form_file = [0u8; 3072];
    let n = files::write_automaton(&mut file, a, records);
    let form = forms::write(a, records, &mut form_file);
    count_rules(counts, family, a.rules, form.rules);
    compare_first(
        counts,
        random,
        family,
        files::front(&file, n),
        form,
        &form_file,
    );
    compare_again(counts, form, &form_file);
}

fn compare_damaged(
    counts: &mut [usize],
    random: &mut u64,
    family: usize,
    a: Automaton,
    records: &mut [u8],
) {
    let mut file = [0u8; 3072];
    let made = damaged::make(random, a, records, &mut file);
    let room = draw(random, 4096);
    let e = refused(made.number, 0, made.place);
    count(counts, at(family, e.number));
    compare(counts, files::front(&file, made.length), room, e, b"");
}

// The automaton of that number, as it is and damaged.
fn one(counts: &mut [usize], k: usize, family: usize) {
    let mut random = seed(k);
    let mut records = [0u8; 2560];
    let a = forms::automaton(&mut random, &mut records, family);
    compare_data(counts, &mut random, family, a, &records);
    compare_damaged(counts, &mut random, family, a, &mut records);
}

fn run(counts: &mut [usize]) {
    for k in 0..AUTOMATA * forms::FAMILIES {
        one(counts, k, k / AUTOMATA);
    }
}

fn main() {
    let mut counts = [0usize; COUNTS];
    run(&mut counts);
    print_families(&counts);
    print_all(&counts);
}
