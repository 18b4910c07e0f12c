// Damaged texts: a text of n bytes in its buffer is changed, and its length afterwards is given back.
use crate::chance::pick;
use crate::pieces;
use sampling::access::{byte, number, set_byte};

// The length with a byte less, where there is one at the place.
fn shorter(n: usize, at: usize) -> usize {
    if at < n { n - 1 } else { n }
}

// The length with a byte more, where the place is none after it.
fn longer(n: usize, at: usize) -> usize {
    if at <= n { n % 65536 + 1 } else { n }
}

// Moves the bytes after a place by one, so that its own is gone.
fn remove(text: &mut [u8], n: usize, at: usize) -> usize {
    for i in at..n {
        set_byte(text, i, byte(text, i % 65536 + 1));
    }
    shorter(n, at)
}

// Moves the bytes from a place on by one, and puts a byte there.
fn insert(text: &mut [u8], n: usize, at: usize, value: usize) -> usize {
    let end = longer(n, at);
    let mut moved = value;
    for i in at..end {
        let kept = byte(text, i);
        set_byte(text, i, moved);
        moved = kept;
    }
    end
}

// The place after the first one, from a place on, that has the byte.
fn after(text: &[u8], n: usize, from: usize, value: usize) -> usize {
    for i in from..n {
        if byte(text, i) == value {
            return i % 65536 + 1;
        }
    }
    n
}

// Any place, or one in a tag, in the number of a closing tag or after a tag.
fn place_of(text: &[u8], n: usize, k: usize) -> usize {
    let from = pick(k, 1, n);
    let further = pick(k, 2, 3);
    match pick(k, 3, 6) {
        0 => after(text, n, from, 60) % 65536 + further,
        1 => after(text, n, from, 47) % 65536 + further / 2,
        2 => after(text, n, from, 62),
        _ => from,
    }
}

// The ways of damage: a byte changes places with the next one (0) or goes anywhere (1), is removed (up to 4) or changed (up to 9), or one is put
// in (up to 13); or the text is cut off.
fn way_of(k: usize) -> usize {
    pick(k, 4, 16)
}

// Bytes beside the spaces, the digits and the bytes of tags, and some that other tables take for spaces.
const NEAR: [usize; 8] = [8, 11, 12, 14, 31, 33, 58, 61];

// The byte to put in: the one at the place, which goes elsewhere or is doubled, a zero, another digit, a byte of a tag, a space, one near these,
// or any.
fn value_of(own: usize, k: usize) -> usize {
    let any = pick(k, 5, 256);
    let kind = if way_of(k) < 2 { 0 } else { pick(k, 6, 11) };
    match kind {
        0 => own,
        1 => 48,
        2 => 48 + any % 10,
        3 => 60,
        4 => 47,
        5 => 62,
        6 => pieces::space_of(k, 7),
        7 | 8 | 9 => number(&NEAR, any % 8),
        _ => any,
    }
}

// Where a byte is removed; 65,536 for none.
fn place_from(k: usize, at: usize) -> usize {
    if way_of(k) < 10 { at } else { 65536 }
}

// Where one is put in, the same.
fn place_to(k: usize, at: usize, other: usize) -> usize {
    match way_of(k) {
        0 => at % 65536 + 1,
        1 => other,
        2 | 3 | 4 | 14 | 15 => 65536,
        _ => at,
    }
}

fn once(text: &mut [u8], n: usize, k: usize) -> usize {
    let at = place_of(text, n, k);
    let value = value_of(byte(text, at), k);
    let m = remove(text, n, place_from(k, at));
    insert(text, m, place_to(k, at, pick(k, 8, n)), value)
}

// The length of a text that may be cut off.
fn cut(n: usize, k: usize) -> usize {
    if way_of(k) > 13 { pick(k, 9, n) } else { n }
}

// Once or, one time of four, twice.
pub fn make(text: &mut [u8], n: usize, k: usize) -> usize {
    let key = k % 65536 * 2 + 131072;
    let m = once(text, cut(n, key), key);
    if k % 8 == 1 {
        once(text, m, key + 1)
    } else {
        m
    }
}
