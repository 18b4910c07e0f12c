// Damaged files of automata by chance, each with the refusal that document 01 has for it, from the way it was damaged: nothing reads the file.
// It shares no code or definition with the engine.
#![tactic(auto)]

use sampling::random::{chance, draw};
use sampling::rules;
use sampling::rules::Automaton;
use search::files;

// A file's length, and the number and the place of the refusal.
#[derive(Clone, Copy)]
pub struct Damaged {
    pub length: usize,
    pub number: usize,
    pub place: usize,
}

fn refused(length: usize, number: usize, place: usize) -> Damaged {
    Damaged {
        length,
        number,
        place,
    }
}

// The file is cut, or a byte of it is another.
fn spoiled(random: &mut u64, a: Automaton, records: &[u8], file: &mut [u8]) -> Damaged {
    let n = files::write_automaton(file, a, records);
    if chance(random, 1, 3) {
        return refused(draw(random, n) / 512 * 512 + 1, 1, 0);
    }
    let at = draw(random, n);
    files::damage(file, at, draw(random, 255));
    refused(n, 2, at / 512)
}

// A refusal for the kind, for a byte that has to be zero or, where there is room, for a block too many.
fn sealed_refusal(random: &mut u64, n: usize) -> Damaged {
    match draw(random, if n < 3072 { 4 } else { 3 }) {
        0 => refused(n, 3, 0),
        1 => refused(n, 6, 3),
        2 => refused(n, 6, 6),
        _ => refused(n, 5, n / 512),
    }
}

// The file has such a fault, and its checks are right.
fn sealed(random: &mut u64, a: Automaton, records: &[u8], file: &mut [u8]) -> Damaged {
    let n = files::write_automaton(file, a, records);
    let payload = 20 + 5 * (a.rules % 1024);
    let by = draw(random, 255);
    let made = sealed_refusal(random, n);
    if made.number == 5 {
        return refused(files::seal(file, payload + 508), 5, made.place);
    }
    files::damage(file, made.place, by);
    files::seal(file, payload);
    made
}

// The states or a set are out of their limits; the records stay.
fn beyond(random: &mut u64, a: Automaton, records: &[u8], file: &mut [u8]) -> Damaged {
    let many = chance(random, 1, 3);
    let changed = Automaton {
        states: if many { 25 } else { a.states },
        symbols: a.symbols,
        rules: a.rules,
        initial: a.initial,
        accepting: a.accepting | 2147483648,
        branches: a.branches,
    };
    let n = files::write_automaton(file, changed, records);
    if many {
        refused(n, 4, 1)
    } else {
        refused(n, 7, 12)
    }
}

// A record gets a byte that has no such value, or a move up at the root; gives back the refusal's number.
fn spoil_record(random: &mut u64, records: &mut [u8], i: usize) -> usize {
    if chance(random, 1, 2) {
        rules::set(records, i, draw(random, 5), 200 + draw(random, 50));
        return 8;
    }
    rules::set(records, i, rules::PLACE, draw(random, 2) * 3);
    rules::set(records, i, rules::MOVE, 1);
    9
}

fn wrong_record(random: &mut u64, a: Automaton, records: &mut [u8], file: &mut [u8]) -> Damaged {
    let i = draw(random, a.rules);
    let number = spoil_record(random, records, i);
    refused(files::write_automaton(file, a, records), number, i)
}

// A damaged file of an automaton, in a buffer that was all zero. A record may be damaged with it, where there is one.
pub fn make(random: &mut u64, a: Automaton, records: &mut [u8], file: &mut [u8]) -> Damaged {
    match draw(random, 6) {
        0 => spoiled(random, a, records, file),
        1 => sealed(random, a, records, file),
        2 => beyond(random, a, records, file),
        _ => {
            if a.rules == 0 {
                beyond(random, a, records, file)
            } else {
                wrong_record(random, a, records, file)
            }
        }
    }
}
