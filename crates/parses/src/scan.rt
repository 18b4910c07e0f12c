// The reading of a text, byte by byte. In the list of nodes an opening tag is its number, and a closing tag and the text's end are the leaf 0 of the
// run that ends there.
use sampling::access::{byte, has, number, set_byte, set_number};

// What was read last: `<`, the first or the second digit of an opening tag or its `>`, the `/`, the first of two digits or the last digit of a
// closing tag or its `>`, no byte or a space, the text's end, or what cannot stand there.
const LESS: usize = 0;

const DIGIT: usize = 1;

const TWO: usize = 2;

const OPENED: usize = 3;

const SLASH: usize = 4;

const FIRST: usize = 5;

const LAST: usize = 6;

const CLOSED: usize = 7;

const SPACE: usize = 8;

const ENDED: usize = 9;

const WRONG: usize = 10;

// The text's end, taken for a byte.
const END: usize = 256;

// The number of an opening tag so far, how many elements are open, how many nodes there are, the depth of the next, and one more than the first
// node of depth 65, or 0. The stack has for each open element its number and 128 times its depth.
#[derive(Clone, Copy)]
struct Reader {
    mode: usize,
    value: usize,
    open: usize,
    nodes: usize,
    depth: usize,
    deep: usize,
}

// Whether a text is right. If so, how many nodes it has, and one more than the first node of depth 65, or 0; else the first byte that cannot stand
// where it does.
#[derive(Clone, Copy)]
pub struct Reading {
    pub right: bool,
    pub place: usize,
    pub nodes: usize,
    pub deep: usize,
}

// ---- bytes

fn is_digit(b: usize) -> bool {
    48 <= b && b < 58
}

// The mode where the byte is the one that has to come.
fn only(b: usize, expected: usize, mode: usize) -> usize {
    if b == expected { mode } else { WRONG }
}

fn after_less(b: usize, open: usize) -> usize {
    if is_digit(b) {
        return DIGIT;
    }
    if open == 0 { WRONG } else { only(b, 47, SLASH) }
}

fn after_digit(b: usize, value: usize) -> usize {
    if value != 0 && is_digit(b) {
        TWO
    } else {
        only(b, 62, OPENED)
    }
}

// The number is that of the element that is open last.
fn after_slash(b: usize, value: usize) -> usize {
    if value < 10 {
        only(b, 48 + value, LAST)
    } else {
        only(b, 48 + value / 10 % 10, FIRST)
    }
}

// The end may come where no element is open and some node is there.
fn between(b: usize, open: usize, nodes: usize) -> usize {
    match b {
        9 | 10 | 13 | 32 => SPACE,
        END => { if open == 0 && nodes > 0 { ENDED } else { WRONG } }
        _ => only(b, 60, LESS),
    }
}

fn mode_after(r: Reader, b: usize, top: usize) -> usize {
    let mode = r.mode;
    match mode {
        LESS => after_less(b, r.open),
        DIGIT => after_digit(b, r.value),
        TWO => only(b, 62, OPENED),
        SLASH => after_slash(b, top % 128),
        FIRST => only(b, 48 + top % 128 % 10, LAST),
        LAST => only(b, 62, CLOSED),
        _ => between(b, r.open, r.nodes),
    }
}

// ---- nodes

// The next node is there; the one after it stands at the depth.
fn with_node(r: Reader, mode: usize, open: usize, depth: usize) -> Reader {
    let nodes = r.nodes % 65536 + 1;
    Reader {
        mode,
        value: 0,
        open,
        nodes,
        depth,
        deep: if r.depth == 65 && r.deep == 0 {
            nodes
        } else {
            r.deep
        },
    }
}

fn step(r: Reader, b: usize, top: usize) -> Reader {
    let mode = mode_after(r, b, top);
    let open = r.open % 65536;
    if mode == OPENED {
        return with_node(r, mode, open + 1, r.depth % 65536 + 1);
    }
    if mode == CLOSED || mode == ENDED {
        return with_node(r, mode, (open + 65535) % 65536, top / 128 + 1);
    }
    let mut next = r;
    next.mode = mode;
    if mode == DIGIT || mode == TWO {
        next.value = r.value % 10 * 10 + b % 48;
    }
    next
}

// One byte more, or the end. The next node, and the next open element, are noted before they are there.
fn read_byte(r: Reader, b: usize, stack: &mut [usize], nodes: &mut [u8]) -> Reader {
    let top = number(stack, (r.open % 65536 + 65535) % 65536);
    set_number(stack, r.open, r.value % 128 + r.depth % 65536 * 128);
    set_byte(nodes, r.nodes, r.value);
    step(r, b, top)
}

// ---- texts

fn byte_or_end(text: &[u8], i: usize) -> usize {
    if i < text.len() { byte(text, i) } else { END }
}

fn start() -> Reader {
    Reader {
        mode: SPACE,
        value: 0,
        open: 0,
        nodes: 0,
        depth: 0,
        deep: 0,
    }
}

// Of a text below 65,536 bytes.
pub fn read(text: &[u8], stack: &mut [usize], nodes: &mut [u8]) -> Reading {
    let mut r = start();
    for i in 0..65536usize {
        r = read_byte(r, byte_or_end(text, i), stack, nodes);
        if r.mode >= ENDED {
            return Reading {
                right: r.mode == ENDED,
                place: i,
                nodes: r.nodes,
                deep: r.deep,
            };
        }
    }
    Reading {
        right: false,
        place: 65536,
        nodes: 0,
        deep: 0,
    }
}

// ---- symbols

// The number of an opening tag with these two bytes after its `<`.
fn value_of(first: usize, second: usize) -> usize {
    if second == 62 {
        first % 48
    } else {
        first % 48 * 10 + second % 48
    }
}

// Whether a right text has an opening tag at a place whose number is no branch symbol.
fn is_stray(branches: u32, text: &[u8], at: usize) -> bool {
    let i = at % 65536;
    let first = byte(text, i + 1);
    let value = value_of(first, byte(text, i + 2));
    byte(text, i) == 60 && first != 47 && !has(branches, value)
}

// The first such place, or the length.
pub fn first_stray(branches: u32, text: &[u8]) -> usize {
    for i in 0..text.len() {
        if is_stray(branches, text, i) {
            return i;
        }
    }
    text.len()
}
