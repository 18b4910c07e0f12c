// How many answers there were of each kind, for each family of automata: counting, and writing. Counts: six of each family (from 0), heights
// found (from 56), differences (64).
use emptiness::{Quick, Survey};
use refusal::Refusal;
use sampling::access::number;
use sampling::report::{count, labelled, row, text};

// Writes the survey's answer.
pub fn print_survey(answer: Result<Survey, Refusal>) {
    match answer {
        Ok(Survey::Found { height: h, rows: n }) => {
            labelled(b"found height=", h);
            labelled(b" rows=", n);
        }
        Ok(Survey::Open(h)) => labelled(b"open height=", h),
        Ok(Survey::Empty(h)) => labelled(b"empty height=", h),
        Err(refusal) => {
            labelled(b"refused=", refusal.number as usize);
            labelled(b" file=", refusal.file as usize);
            labelled(b" place=", refusal.place);
        }
    }
}

fn count_survey(counts: &mut [usize], from: usize, answer: Result<Survey, Refusal>) {
    let at = from % 64;
    match answer {
        Ok(Survey::Found { height: h, rows: _ }) => {
            count(counts, at);
            if h < 7 {
                count(counts, 56 + h);
            } else {
                count(counts, 63);
            }
        }
        Ok(Survey::Open(_)) => count(counts, at + 1),
        Ok(Survey::Empty(_)) => count(counts, at + 2),
        Err(_) => count(counts, at + 5),
    }
}

fn count_quick(counts: &mut [usize], from: usize, answer: Result<Quick, Refusal>) {
    let at = from % 64;
    match answer {
        Ok(Quick::Clear) => count(counts, at + 3),
        Ok(Quick::Unsure) => count(counts, at + 4),
        Err(_) => {}
    }
}

// Counts a difference, and writes the first ten.
pub fn differ(counts: &mut [usize], k: usize, answer: Result<Survey, Refusal>) {
    if number(counts, 64) < 10 {
        labelled(b"difference at ", k);
        text(b": ");
        print_survey(answer);
        text(b"\n");
    }
    count(counts, 64);
}

// Counts the answers to automaton k, and whether they are right.
pub fn add(
    counts: &mut [usize],
    k: usize,
    family: usize,
    answer: Result<Survey, Refusal>,
    quick: Result<Quick, Refusal>,
    right: bool,
) {
    count_survey(counts, family % 9 * 6, answer);
    count_quick(counts, family % 9 * 6, quick);
    if !right {
        differ(counts, k, answer);
    }
}

// A line with the six counts of a family.
fn line(label: &[u8], counts: &[usize], at: usize) {
    let a = at % 64;
    text(label);
    labelled(b" found=", number(counts, a));
    labelled(b" open=", number(counts, a + 1));
    labelled(b" empty=", number(counts, a + 2));
    labelled(b" clear=", number(counts, a + 3));
    labelled(b" unsure=", number(counts, a + 4));
    labelled(b" refused=", number(counts, a + 5));
    text(b"\n");
}

pub fn print_families(counts: &[usize]) {
    line(b"deterministic", counts, 0);
    line(b"nondeterministic", counts, 6);
    line(b"all places", counts, 12);
    line(b"circling", counts, 18);
    line(b"sided", counts, 24);
    line(b"by chance", counts, 30);
    line(b"relay", counts, 36);
    line(b"deep", counts, 42);
    line(b"three passes", counts, 48);
}

// How many trees were found at each height, from 7 on together.
pub fn print_heights(counts: &[usize]) {
    row(b"found at heights 0 to 7:", counts, 56, 64);
}
