// Budgets, and the lengths of the logs that are lent.
ghost use Rattle.std.specs.Prelude.{◌≤◌};

use sampling::random::draw;

// The largest budget that is not refused.
pub const MOST: usize = 20000;

// The longest log that is lent, and the room for it and some bytes after it.
const LONGEST: usize = 61000;

pub const ROOM: usize = 61440;

// The length that a log needs.
pub fn needed(budget: usize) -> usize
    ensures { result ≤ 196608 }
{
    3 * (budget % 65536) + 3
}

// The number before, or 0.
pub fn before(n: usize) -> usize {
    if n > 0 { n - 1 } else { 0 }
}

// A budget for a tree and an automaton with so many configurations, in which a walk with the largest budget makes so many steps.
fn any_budget(random: &mut u64, full: usize, steps: usize) -> usize {
    match draw(random, 12) {
        0 => 0,
        1 => draw(random, 30),
        2 => before(full),
        3 => full,
        4 => full % 131072 + 1,
        5 => MOST,
        6 => before(steps),
        7 => steps,
        8 => steps % 131072 + 1,
        9 => draw(random, steps),
        10 => draw(random, 2000),
        _ => draw(random, MOST),
    }
}

// The same, at most the largest that is not refused.
pub fn budget(random: &mut u64, full: usize, steps: usize) -> usize {
    let n = any_budget(random, full, steps);
    if n < MOST { n } else { MOST }
}

// A budget that is refused: by one, that of all configurations where there are so many, or far above.
pub fn excess(random: &mut u64, full: usize) -> usize {
    match draw(random, 5) {
        0 => MOST + 1,
        1 => { if full > MOST { full } else { MOST + 1 } }
        2 => MOST + 1 + draw(random, 1000),
        3 => 32768usize << draw(random, 48),
        _ => 18446744073709551615,
    }
}

// A log as long as it needs to be or longer, where it has room.
pub fn room(random: &mut u64, budget: usize) -> usize {
    let n = needed(budget);
    let length = match draw(random, 4) {
        0 => n + 1,
        1 => n + draw(random, 300),
        _ => n,
    };
    if length < LONGEST { length } else { LONGEST }
}

// A log that is too short for a budget that is not refused.
pub fn short_room(random: &mut u64, budget: usize) -> usize {
    let n = needed(budget);
    match draw(random, 4) {
        0 => 0,
        1 => draw(random, n),
        _ => before(n),
    }
}
