// Pseudo-random numbers by xorshift64, the state lent.
ghost use Rattle.std.specs.Prelude.{◌≤◌};

use crate::access::modulo;

// The next number of the sequence.
fn next(random: &mut u64) -> u64 {
    let mut x = *random;
    x ^= x << 13;
    x ^= x >> 7;
    x ^= x << 17;
    *random = x;
    x
}

// A number below n, or 0.
pub fn draw(random: &mut u64, n: usize) -> usize
    ensures { result ≤ n }
{
    let x = next(random);
    modulo((x >> 16) as usize, n)
}

// True in k of n draws.
pub fn chance(random: &mut u64, k: usize, n: usize) -> bool {
    draw(random, n) < k
}

// A subset of the numbers below n.
pub fn subset(random: &mut u64, n: usize) -> u32 {
    if n < 32 {
        (draw(random, 1usize << n) % 4294967296) as u32
    } else {
        (next(random) >> 32) as u32
    }
}

// The state from which pair number k is made.
pub fn seed(k: usize) -> u64 {
    let mut random = (k % 1048576) as u64 * 11400714819 + 88172645463325252;
    for _ in 0..12usize {
        next(&mut random);
    }
    random
}

// A number below 2^32, made of another alone: it hangs on no draw before it.
pub fn scattered(n: usize) -> usize
    ensures { result ≤ 4294967295 }
{
    let a = n % 268435456 * 2654435761;
    let b = (a ^ (a >> 29)) % 4294967296 * 2246822507;
    (b ^ (b >> 31)) / 65536 % 4294967296
}
