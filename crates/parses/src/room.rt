// The output that is lent.
use crate::answer::{Expected, refused};
use texts::chance::pick;

// An output's length for a file's length: any that is too short, one byte or some blocks too short, longer by one, longer, or as needed; any where
// there is no file.
pub fn room_of(k: usize, length: usize) -> usize {
    let n = length % 8192;
    if n == 0 {
        return pick(k, 20, 5120);
    }
    match pick(k, 21, 16) {
        0 => pick(k, 22, n),
        1 => n - 1,
        2 => n / 1024 * 512,
        3 | 4 => n + 1,
        5 | 6 | 7 => n + pick(k, 23, 600),
        _ => n,
    }
}

// What has to be answered with an output of a length.
pub fn in_room(e: Expected, room: usize) -> Expected {
    if room < e.length {
        refused(13, 2, e.length)
    } else {
        e
    }
}
