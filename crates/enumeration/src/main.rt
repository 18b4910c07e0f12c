// Compares the survey and the quick check with brute force on small automata by chance. Where the survey finds a tree, its plan is read back
// and the tree judged by runs; and all trees of small heights are listed and judged, which tells the least height of an accepted tree and, by
// the overloops of runs, how many classes there are. Some buffers are too short and some files damaged, and have to be refused. It writes the
// verdicts for each family of automata, the heights found, document 01's case of 256 classes, and how often an answer was wrong.
#![tactic(auto)]

use emptiness::{Quick, Survey};
use enumerated::{lists, plan};
use refusal::Refusal;
use sampling::access::number;
use sampling::random::seed;
use sampling::report::{differences, labelled, text};
use sampling::rules::Automaton;
use search::files;
use transformations::Outcome;
use verdicts::expected::Expected;
use verdicts::{checks, counts, expected};

// The automata of each family.
const AUTOMATA: usize = 1000;

// The automata of all families; those of three passes, and the one of 256 classes, have the numbers after.
const ALL: usize = AUTOMATA * small::FAMILIES;

// The survey with the front of the buffer.
fn survey(file: &[u8], buffer: &mut [u8], room: usize) -> Result<Survey, Refusal> {
    if room <= buffer.len() {
        emptiness::file::survey(file, &mut buffer[..room])
    } else {
        emptiness::file::survey(file, buffer)
    }
}

// Whether the answers are right.
fn right(
    a: Automaton,
    rules: &[u8],
    e: Expected,
    answer: Result<Survey, Refusal>,
    quick: Result<Quick, Refusal>,
    buffer: &[u8],
    salt: usize,
) -> bool {
    if let Some(refusal) = e.survey {
        return checks::survey_refused(answer, refusal, buffer, salt)
            && checks::quick_refused(quick, e.file);
    }
    let mut classes = [lists::UNKNOWN; 8];
    classes[0] = 0;
    let list = lists::enumerate(a, rules, &mut classes);
    checks::survey(a, rules, list, &classes, answer, buffer, salt)
        && checks::quick(list, quick, answer)
}

// Has the file answered, with the front of a buffer that has the pattern.
fn compare(
    a: Automaton,
    rules: &[u8],
    file: &[u8],
    e: Expected,
    buffer: &mut [u8],
    room: usize,
    salt: usize,
) -> Outcome {
    plan::fill(buffer, salt);
    let answer = survey(file, buffer, room);
    let quick = emptiness::file::quick(file);
    Outcome {
        survey: answer,
        quick,
        right: right(a, rules, e, answer, quick, buffer, salt),
    }
}

// The automaton of that number.
fn one(k: usize, family: usize) -> Outcome {
    let mut random = seed(k);
    let mut rules = [0u8; 2560];
    let mut file = [0u8; 3072];
    let mut buffer = [0u8; 256];
    let a = small::make(&mut random, &mut rules, family);
    let n = files::write_automaton(&mut file, a, &rules);
    let refusal = expected::damaged(&mut random, &mut file, n);
    let room = expected::room_of(&mut random, refusal.is_some());
    let e = expected::of(refusal, room);
    compare(a, &rules, files::front(&file, n), e, &mut buffer, room, k)
}

fn tally(counts: &mut [usize], k: usize, family: usize, outcome: Outcome) {
    let answer = outcome.survey;
    let quick = outcome.quick;
    counts::add(counts, k, family, answer, quick, outcome.right);
}

fn run(counts: &mut [usize]) {
    for k in 0..ALL {
        let family = k / AUTOMATA;
        tally(counts, k, family, one(k, family));
    }
}

// The automata of three passes, as one more family.
fn run_passes(counts: &mut [usize], heights: &[usize]) {
    for values in 0..64usize {
        tally(
            counts,
            ALL + values,
            small::FAMILIES,
            transformations::passes(heights, values),
        );
    }
}

// The case of 256 classes.
fn run_functions(counts: &mut [usize], heights: &[usize]) {
    let answer = transformations::surveyed();
    labelled(b"", transformations::made(heights, 254));
    text(b" classes: ");
    counts::print_survey(answer);
    text(b"\n");
    let full = transformations::full_height(heights);
    match answer {
        Ok(Survey::Open(h)) => {
            if h != full {
                counts::differ(counts, ALL + 64, answer);
            }
        }
        _ => counts::differ(counts, ALL + 64, answer),
    }
}

fn main() {
    let mut counts = [0usize; 65];
    let mut heights = [255usize; 256];
    transformations::make_all(&mut heights);
    run(&mut counts);
    run_passes(&mut counts, &heights);
    counts::print_families(&counts);
    counts::print_heights(&counts);
    run_functions(&mut counts, &heights);
    differences(number(&counts, 64));
}
