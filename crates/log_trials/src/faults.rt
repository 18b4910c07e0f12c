// What is wrong with a pair. A set of faults has the numbers of these: the automaton's file and the tree's, as in `watch_faults`, and the lengths of the
// two logs.
use followed::limits::before;
use log_runs::entries::MOST;
use sampling::access::only;
use sampling::random::{chance, draw, subset};

pub const FIRST_LOG: usize = 2;

pub const SECOND_LOG: usize = 3;

// The faults of pair k: every second one has some.
pub fn of_pair(random: &mut u64, k: usize) -> u32 {
    let one = only(draw(random, 4));
    let others = subset(random, 4);
    if k % 2 == 0 {
        return 0;
    }
    if chance(random, 1, 3) {
        one | others
    } else {
        one
    }
}

// The length of a log of n entries: right, or with one or two bytes more or fewer.
pub fn length_of(random: &mut u64, n: usize, wrong: bool) -> usize {
    if !wrong {
        return n % MOST * 3;
    }
    let whole = if chance(random, 1, 2) { before(n) } else { n };
    whole % MOST * 3 + 1 + draw(random, 2)
}
