// A log made from another.
use followed::follow::put;
use followed::limits::before;
use log_runs::entries::{MOST, entry};
use sampling::access::set_byte;
use sampling::random::draw;
use sampling::rules::Automaton;
use search::files;

pub const EQUAL: usize = 0;

const BEGINNING: usize = 1;

// A walk that goes on from its end, from an entry before, from the root anew, or after a wrong step.
const LONGER: usize = 2;

const PARTED: usize = 3;

const ANOTHER: usize = 4;

const SLIPPED: usize = 5;

// One byte of an entry is another, the one of this number modulo 3: low, high or state.
const LOW: usize = 6;

const STATE: usize = 8;

// An entry stands twice, is left out, or has changed places with the next.
const REPEATED: usize = 9;

const DROPPED: usize = 10;

const SWAPPED: usize = 11;

// Bytes by chance; the last way leaves no entry.
const RANDOM: usize = 12;

pub const WAYS: usize = 14;

// An entry's number, often that of the first or the last.
fn place(random: &mut u64, n: usize) -> usize {
    match draw(random, 6) {
        0 => 0,
        1 => before(n),
        _ => draw(random, n),
    }
}

// ---- entries

// Which entry becomes entry k, where one is repeated, dropped or swapped.
fn source(way: usize, at: usize, k: usize) -> usize {
    match way {
        REPEATED => { if k > at { before(k) } else { k } }
        DROPPED => { if k < at { k } else { k % MOST + 1 } }
        SWAPPED => {
            if k == at {
                k % MOST + 1
            } else if before(k) == at {
                at
            } else {
                k
            }
        }
        _ => k,
    }
}

// Writes n entries.
fn copy(to: &mut [u8], from: &[u8], n: usize, way: usize, at: usize) {
    for k in 0..n {
        put(to, k, entry(from, source(way, at, k)));
    }
}

fn rearrange(random: &mut u64, to: &mut [u8], from: &[u8], n: usize, way: usize) -> usize {
    let at = if way == SWAPPED {
        draw(random, before(n))
    } else {
        place(random, n)
    };
    let m = match way {
        REPEATED => n % MOST + 1,
        DROPPED => before(n),
        _ => n,
    };
    copy(to, from, m, way, at);
    m
}

// ---- bytes

// Another byte: by one more, one less or any number.
fn change_byte(random: &mut u64, to: &mut [u8], from: &[u8], n: usize, way: usize) -> usize {
    copy(to, from, n, EQUAL, 0);
    let at = place(random, n) % MOST * 3 + way % 3;
    let by = match draw(random, 3) {
        0 => 0,
        1 => 254,
        _ => draw(random, 255),
    };
    files::damage(to, at, by);
    n
}

// Bytes below a bound by chance.
fn scribble(random: &mut u64, to: &mut [u8], n: usize) -> usize {
    let bound = 2usize << draw(random, 8);
    for i in 0..n % MOST * 3 {
        set_byte(to, i, draw(random, bound));
    }
    n % MOST
}

// ---- walks

// How many entries stay before a walk.
fn kept(random: &mut u64, n: usize, way: usize) -> usize {
    match way {
        LONGER => n,
        ANOTHER => 0,
        _ => draw(random, n),
    }
}

// Entries that stay, then a walk.
fn walk_from(
    random: &mut u64,
    a: Automaton,
    records: &[u8],
    nodes: &[usize],
    to: &mut [u8],
    from: &[u8],
    n: usize,
    way: usize,
) -> usize {
    let k = kept(random, n, way);
    copy(to, from, k, EQUAL, 0);
    log_walks::extend(random, a, records, nodes, to, k, way == SLIPPED)
}

// Writes a log to a buffer that was all zero, from one of n entries; how many entries it has.
pub fn make(
    random: &mut u64,
    a: Automaton,
    records: &[u8],
    nodes: &[usize],
    to: &mut [u8],
    from: &[u8],
    n: usize,
    way: usize,
) -> usize {
    let fewer = draw(random, n);
    match way {
        EQUAL => rearrange(random, to, from, n, way),
        BEGINNING => rearrange(random, to, from, fewer, way),
        LONGER..=SLIPPED => walk_from(random, a, records, nodes, to, from, n, way),
        LOW..=STATE => change_byte(random, to, from, n, way),
        REPEATED..=SWAPPED => rearrange(random, to, from, n, way),
        RANDOM => scribble(random, to, fewer),
        _ => 0,
    }
}
