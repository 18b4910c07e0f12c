// Automata by chance, and their files. Symbol 0 is mostly a leaf, and most other symbols are branches.
use crate::chance::pick;
use sampling::access::modulo;
use sampling::random::{scattered, seed};
use sampling::rules;
use sampling::rules::Automaton;
use search::files;

// A set of numbers below n, half of them or three quarters.
fn set_of(key: usize, n: usize, few: bool) -> u32 {
    let a = scattered(key);
    let b = scattered(a);
    let set = if few { a } else { a | b };
    (modulo(set, 1usize << (n % 64)) % 4294967296) as u32
}

// With no rule yet.
fn start(k: usize) -> Automaton {
    let key = k % 65536 * 4;
    let states = 1 + pick(k, 0, 24);
    let symbols = if pick(k, 1, 12) == 0 {
        1 + pick(k, 2, 32)
    } else {
        6 + pick(k, 2, 27)
    };
    let branches = set_of(key, symbols, false);
    Automaton {
        states,
        symbols,
        rules: 0,
        initial: set_of(key + 1, states, true),
        accepting: set_of(key + 2, states, true),
        branches: if pick(k, 3, 12) == 0 {
            branches
        } else {
            branches / 2 * 2
        },
    }
}

// An automaton's file: its branch symbols, its length, and what has to be answered, number 0 for a right one.
#[derive(Clone, Copy)]
pub struct File {
    pub branches: u32,
    pub length: usize,
    pub number: usize,
    pub place: usize,
}

// Writes the file for text k, every twentieth one damaged, to a buffer that was all zero.
pub fn write(k: usize, file: &mut [u8]) -> File {
    let mut random = seed(k);
    let mut records = [0u8; 2560];
    let a = rules::add_some(&mut random, &mut records, start(k), pick(k, 4, 120), false);
    if k % 40 < 2 {
        let made = damaged::make(&mut random, a, &mut records, file);
        return File {
            branches: a.branches,
            length: made.length,
            number: made.number,
            place: made.place,
        };
    }
    File {
        branches: a.branches,
        length: files::write_automaton(file, a, &records),
        number: 0,
        place: 0,
    }
}
