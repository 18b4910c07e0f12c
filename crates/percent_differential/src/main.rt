// Compares the percent of tallies with a search among the numbers from 0 to 100: of all small tallies, of exact halves by chance, of each of
// these with one number off by one, and of any. It writes how the percents of each family are rounded, and how often the engine differs.
#![tactic(auto)]

ghost use Rattle.std.specs.Prelude.{◌≤◌};

use sampling::access::{divided, number};
use sampling::random::{draw, seed, subset};
use sampling::report::{count, differences, labelled, text};
use tally::Tally;

// Of all small tallies, the most that are judged.
const SMALL: usize = 200;

// The tallies of each other family.
const DRAWN: usize = 8000;

fn times(n: u8, k: u32) -> u64
    ensures { result ≤ 1095216660225 }
{
    n as u64 * k as u64
}

// How far a number is from the percent, times those judged; and whether it is too high.
#[derive(Clone, Copy)]
struct Gap {
    by: u64,
    high: bool,
}

fn distance(accepted: u32, other: u32, n: u8) -> Gap {
    let all = times(100, accepted);
    let part = times(n, accepted) + times(n, other);
    if all < part {
        return Gap {
            by: part - all,
            high: true,
        };
    }
    Gap {
        by: all - part,
        high: false,
    }
}

// The nearer of two numbers, and the even one where they are equally near.
fn nearer(accepted: u32, other: u32, a: u8, b: u8) -> u8 {
    let from_a = distance(accepted, other, a).by;
    let from_b = distance(accepted, other, b).by;
    if from_b < from_a {
        return b;
    }
    if from_a == from_b && b & 1 == 0 {
        return b;
    }
    a
}

fn searched(accepted: u32, other: u32) -> u8 {
    if accepted == 0 && other == 0 {
        return 0;
    }
    let mut best = 0;
    for n in 1..101u8 {
        best = nearer(accepted, other, best, n);
    }
    best
}

// How a percent is rounded: not at all (0); down (1) or up (2) to the nearer number; from the middle of two numbers down (3) or up (4).
fn rounding(accepted: u32, other: u32, percent: u8) -> usize {
    let found = distance(accepted, other, percent);
    if found.by == 0 {
        return 0;
    }
    let half = std::num::wrapping_add_u64(found.by, found.by) == accepted as u64 + other as u64;
    if half {
        return if found.high { 4 } else { 3 };
    }
    if found.high { 2 } else { 1 }
}

// Counts: five roundings for each family (from 0), differences (31). How many were refused does not matter.
fn compare(counts: &mut [usize], random: &mut u64, family: usize, accepted: u32, other: u32) {
    let expected = searched(accepted, other);
    let refused = subset(random, 32);
    let found = tally::percent(Tally {
        accepted,
        other,
        refused,
    });
    let at = rounding(accepted, other, expected) % 5;
    count(counts, family % 4 * 5 + at);
    if found != expected as u32 {
        count(counts, 31);
    }
}

fn compare_judged(counts: &mut [usize], random: &mut u64, judged: u32) {
    for accepted in 0..judged {
        compare(counts, random, 0, accepted, judged - accepted);
    }
    compare(counts, random, 0, judged, 0);
}

fn compare_small(counts: &mut [usize], random: &mut u64) {
    for judged in 0..SMALL + 1 {
        compare_judged(counts, random, judged as u32);
    }
}

// One of the two numbers one more or one less.
fn compare_off(counts: &mut [usize], random: &mut u64, accepted: u32, other: u32) {
    let more = std::num::wrapping_add_u32(accepted, 1);
    let less = std::num::wrapping_sub_u32(accepted, 1);
    let other_more = std::num::wrapping_add_u32(other, 1);
    let other_less = std::num::wrapping_sub_u32(other, 1);
    match draw(random, 4) {
        0 => compare(counts, random, 2, more, other),
        1 => compare(counts, random, 2, less, other),
        2 => compare(counts, random, 2, accepted, other_more),
        _ => compare(counts, random, 2, accepted, other_less),
    }
}

// Of 200 equal parts of those judged an odd number is accepted: a half. The parts are as large as both numbers allow, or smaller.
fn compare_half(counts: &mut [usize], random: &mut u64) {
    let odd = 2 * (draw(random, 100) % 100) + 1;
    let rest = 200 - odd;
    let most = divided(4294967295, if odd < rest { rest } else { odd });
    let part = (draw(random, most) % 4294967295) as u32 + 1;
    let accepted = (times(odd as u8, part) % 4294967296) as u32;
    let other = (times(rest as u8, part) % 4294967296) as u32;
    compare(counts, random, 1, accepted, other);
    compare_off(counts, random, accepted, other);
}

// Numbers of any length up to 32 bits.
fn compare_any(counts: &mut [usize], random: &mut u64) {
    let a = draw(random, 33);
    let accepted = subset(random, a);
    let b = draw(random, 33);
    let other = subset(random, b);
    compare(counts, random, 3, accepted, other);
}

fn compare_drawn(counts: &mut [usize], random: &mut u64) {
    for _ in 0..DRAWN {
        compare_half(counts, random);
        compare_any(counts, random);
    }
}

// A line with the five counts that start there.
fn line(label: &[u8], counts: &[usize], at: usize) {
    let a = at % 16;
    text(label);
    labelled(b" exact=", number(counts, a));
    labelled(b" down=", number(counts, a + 1));
    labelled(b" up=", number(counts, a + 2));
    labelled(b" half-down=", number(counts, a + 3));
    labelled(b" half-up=", number(counts, a + 4));
    text(b"\n");
}

fn main() {
    let mut counts = [0usize; 32];
    let mut random = seed(1);
    compare_small(&mut counts, &mut random);
    compare_drawn(&mut counts, &mut random);
    line(b"small", &counts, 0);
    line(b"halves", &counts, 5);
    line(b"halves, one off", &counts, 10);
    line(b"any", &counts, 15);
    differences(number(&counts, 31));
}
