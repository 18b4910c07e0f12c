// Logs that have a pattern before, also after the part that is lent.
ghost use Rattle.std.specs.Prelude.{◌≤◌};

use followed::limits;

// The bytes after the part that is lent, which are looked at too.
const AFTER: usize = 300;

// The lower of two numbers.
pub fn lower(a: usize, b: usize) -> usize
    ensures { (result ≤ a) × (result ≤ b) }
{
    if a < b { a } else { b }
}

// How many bytes are looked at where so many are lent.
pub fn end(room: usize) -> usize {
    lower(room, limits::ROOM - AFTER) + AFTER
}

fn mark(i: usize, salt: usize) -> u8 {
    ((i % 65536 * 7 + salt % 256) % 256) as u8
}

// Writes the pattern.
pub fn fill(log: &mut [u8], n: usize, salt: usize) {
    for i in 0..lower(n, log.len()) {
        log[i] = mark(i, salt);
    }
}
