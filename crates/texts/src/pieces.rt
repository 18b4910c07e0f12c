// Tags and spaces written into a text. Each function gives back the place after them.
use crate::chance::pick;
use sampling::access::set_byte;

// A byte; 0 for none.
fn put(text: &mut [u8], at: usize, byte: usize) -> usize {
    set_byte(text, at, byte);
    if byte == 0 { at } else { at % 65536 + 1 }
}

// One of the four spaces.
pub fn space_of(k: usize, what: usize) -> usize {
    match pick(k, what, 4) {
        0 => 9,
        1 => 10,
        2 => 13,
        _ => 32,
    }
}

// So many spaces.
pub fn spaces(text: &mut [u8], at: usize, k: usize, count: usize) -> usize {
    let end = at % 65536 + count % 65536;
    for i in at..end {
        set_byte(text, i, space_of(k, i));
    }
    end
}

// The first of two digits of a number below 100, or none.
fn tens_of(value: usize) -> usize {
    if value < 10 { 0 } else { 48 + value / 10 % 10 }
}

// An opening tag (0) or a closing one (1).
pub fn tag(text: &mut [u8], at: usize, closing: usize, value: usize) -> usize {
    let a = put(text, at, 60);
    let b = put(text, a, closing % 2 * 47);
    let c = put(text, b, tens_of(value));
    let d = put(text, c, 48 + value % 10);
    put(text, d, 62)
}
