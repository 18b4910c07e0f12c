// Plans, found by the survey or by chance, written as the files of letters, and the letters judged: whether both are what is expected, counted.
#![tactic(auto)]

use emptiness::Survey;
use enumerated::plan;
use membership::Answer;
use plans::Expected;
use refusal::Refusal;
use sampling::access::{number, same_bytes};
use sampling::random::draw;
use sampling::report::{count, labelled, text};
use sampling::rules::Automaton;
use search::files;

// A plan: its length, and where the survey found it the height told.
#[derive(Clone, Copy)]
pub struct Made {
    pub length: usize,
    pub height: Option<usize>,
}

// The plan that the survey finds, or one by chance.
pub fn make_plan(random: &mut u64, a: Automaton, file: &[u8], buffer: &mut [u8]) -> Made {
    match emptiness::file::survey(file, buffer) {
        Ok(Survey::Found { height, rows }) => {
            Made {
                length: rows % 128 * 3,
                height: Some(height),
            }
        }
        _ => {
            Made {
                length: plans::by_chance(random, a, buffer),
                height: None,
            }
        }
    }
}

// Counts a height that was found.
pub fn count_height(counts: &mut [usize], height: usize) {
    if height < 7 {
        count(counts, 18 + height);
    } else {
        count(counts, 25);
    }
}

// Whether judging agrees with runs, where those can be searched; a plan that was found has to be accepted.
fn judged_right(judged: Result<Answer, Refusal>, runs: usize, found: bool) -> bool {
    match judged {
        Ok(Answer::Accepted) => runs != 0,
        Ok(Answer::Other) => !found && runs != 1,
        Err(_) => false,
    }
}

// Whether the answer and the output afterwards are right, but for judging.
fn right(
    answer: Result<usize, Refusal>,
    e: Expected,
    out: &[u8],
    letter: &[u8],
    salt: usize,
) -> bool {
    match answer {
        Err(refusal) => {
            refusal.number == e.number
                && refusal.file == e.file
                && refusal.place == e.place
                && plan::unchanged(out, 0, salt)
        }
        Ok(n) => {
            e.number == 0
                && n == e.length
                && same_bytes(out, letter, n)
                && plan::unchanged(out, n, salt)
        }
    }
}

// Writes into the front of the output.
fn write(file: &[u8], plan: &[u8], out: &mut [u8], room: usize) -> Result<usize, Refusal> {
    if room <= out.len() {
        witness::file::write(file, plan, &mut out[..room])
    } else {
        witness::file::write(file, plan, out)
    }
}

// Whether judging says that a letter is accepted.
fn is_accepted(judged: Result<Answer, Refusal>) -> bool {
    match judged {
        Ok(Answer::Accepted) => true,
        _ => false,
    }
}

// How an input came out: as expected or not, and whether a letter was written that is accepted.
#[derive(Clone, Copy)]
struct Told {
    right: bool,
    accepted: bool,
}

// Has a plan written into an output that has the pattern, and the letter judged.
fn tried(
    a: Automaton,
    rules: &[u8],
    file: &[u8],
    plan: &[u8],
    e: Expected,
    letter: &[u8],
    room: usize,
    found: bool,
    salt: usize,
) -> Told {
    let mut out = [0u8; 4864];
    plan::fill(&mut out, salt);
    let answer = write(file, plan, &mut out, room);
    let good = right(answer, e, &out, letter, salt);
    if e.number != 0 || !good {
        return Told {
            right: good,
            accepted: false,
        };
    }
    let judged = judging::accepts(file, files::front(&out, e.length));
    let runs = plans::accepted(a, rules, plan);
    Told {
        right: judged_right(judged, runs, found),
        accepted: is_accepted(judged),
    }
}

// Counts: six of each kind of input (from 0), heights found (from 18), differences (26).
fn answer_at(e: Expected, accepted: bool) -> usize {
    let number = e.number;
    match number {
        0 => { if accepted { 0 } else { 1 } }
        15 => 2,
        16 => 3,
        13 => 4,
        _ => 5,
    }
}

// Counts an input's answer, and a difference, of which the first ten are written.
fn tally(counts: &mut [usize], from: usize, k: usize, e: Expected, told: Told) {
    count(counts, from % 18 + answer_at(e, told.accepted) % 6);
    if !told.right {
        if number(counts, 26) < 10 {
            labelled(b"difference at ", k);
            labelled(b": ", from % 18);
            text(b"\n");
        }
        count(counts, 26);
    }
}

// An output's length: long enough for a plan as it is; else, mostly, too short.
fn room_of(random: &mut u64, length: usize, from: usize) -> usize {
    let n = length % 8192;
    if from < 12 {
        return n + draw(random, 128);
    }
    match draw(random, 4) {
        0 => n,
        1 => draw(random, n),
        _ => { if n > 0 { n - 1 } else { 0 } }
    }
}

// A plan that was found (from 0), by chance (6) or damaged (12).
pub fn input(
    counts: &mut [usize],
    from: usize,
    random: &mut u64,
    a: Automaton,
    rules: &[u8],
    file: &[u8],
    plan: &[u8],
    k: usize,
) {
    let mut letter = [0u8; 4608];
    let e = plans::expected_of(a, plan, &mut letter);
    let room = room_of(random, e.length, from);
    let with = plans::with_room(e, room);
    let told = tried(a, rules, file, plan, with, &letter, room, from == 0, k);
    tally(counts, from, k, with, told);
}

// A damaged file of an automaton, with any output.
pub fn file_damaged(
    counts: &mut [usize],
    random: &mut u64,
    a: Automaton,
    file: &mut [u8],
    plan: &[u8],
    k: usize,
) {
    let at = draw(random, file.len());
    files::damage(file, at, draw(random, 255));
    let e = plans::refused(2, 0, at / 512);
    let room = draw(random, 1024);
    let told = tried(a, b"", file, plan, e, b"", room, false, k);
    tally(counts, 12, k, e, told);
}
