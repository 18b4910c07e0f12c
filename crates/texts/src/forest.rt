// Right texts by chance, tag by tag.
ghost use Rattle.std.specs.Prelude.{◌≤◌};

use crate::chance::pick;
use crate::pieces;
use sampling::access::{has, modulo, number, set_number};

// The room for a text.
pub const ROOM: usize = 34816;

// The room for a stack of open elements.
pub const STACK: usize = 12288;

// From this length on a text is cut off.
const LONGEST: usize = 33000;

// How a text is made: how many elements, all less than `height` below the root; how many of eight tags open an element where they may as well
// close one; how many of sixteen tags have spaces before them; and one of how many elements has any number, none for 0.
#[derive(Clone, Copy)]
struct Shape {
    elements: usize,
    height: usize,
    eighths: usize,
    spaces: usize,
    stray: usize,
}

// ---- shapes

// Eight families of texts: small; all elements nested or nearly; all side by side or nearly; of some blocks; of about as many nodes as fill blocks;
// of about 2,047 elements; of more, in any depth; and of about 2,047 in a tree that may be too high.
//
// Elements: at least so many, and 254 (which fill a block) for each block more, and some more. Of a range any number below it is drawn.
const ELEMENTS: [usize; 8] = [1, 58, 58, 1, 250, 2043, 2048, 2043];

const BLOCK_RANGE: [usize; 8] = [1, 1, 1, 1, 8, 1, 1, 1];

const ELEMENT_RANGE: [usize; 8] = [14, 14, 14, 2047, 4, 9, 9000, 9];

const HEIGHT: [usize; 8] = [64, 200, 200, 65, 64, 64, 20000, 67];

const EIGHTHS: [usize; 8] = [1, 7, 0, 4, 5, 5, 5, 5];

const EIGHTH_RANGE: [usize; 8] = [7, 2, 2, 3, 2, 2, 4, 2];

// A family's number.
fn column(numbers: &[usize], family: usize) -> usize
    ensures { result ≤ 65535 }
{
    number(numbers, family) % 65536
}

// Mostly the first family.
fn family_of(k: usize) -> usize {
    let chosen = pick(k, 8, 20);
    if chosen < 8 { chosen } else { 0 }
}

fn elements_of(k: usize, family: usize) -> usize
    ensures { result ≤ 16777216 }
{
    let blocks = pick(k, 9, column(&BLOCK_RANGE, family));
    column(&ELEMENTS, family) + 254 * blocks + pick(k, 10, column(&ELEMENT_RANGE, family))
}

fn shape_of(k: usize) -> Shape {
    let family = family_of(k);
    let elements = elements_of(k, family);
    Shape {
        elements,
        height: column(&HEIGHT, family),
        eighths: column(&EIGHTHS, family) + pick(k, 12, column(&EIGHTH_RANGE, family)),
        spaces: pick(k, 13, 8),
        stray: if pick(k, 14, 8) == 0 {
            elements / 2 + 2
        } else {
            0
        },
    }
}

// ---- elements

// A text that is being made: its length, how many elements are open, the depth of the next node, and how many elements are to come. The stack has
// for each open element its number and 128 times its depth.
#[derive(Clone, Copy)]
struct Maker {
    length: usize,
    open: usize,
    depth: usize,
    left: usize,
}

// Whether an element may come next.
fn goes_on(m: Maker, s: Shape) -> bool {
    m.left > 0 && m.depth < s.height
}

// A branch symbol, or 0 where there is none.
fn branch_symbol(branches: u32, first: usize) -> usize {
    for i in 0..32usize {
        let symbol = (first % 32 + i) % 32;
        if has(branches, symbol) {
            return symbol;
        }
    }
    0
}

// The number of an opening tag (0), or of a closing one (1) with that of the element.
fn number_of(
    k: usize,
    what: usize,
    branches: u32,
    stray: usize,
    closing: usize,
    own: usize,
) -> usize {
    let x = pick(k, what, 65536);
    if closing == 1 {
        return own;
    }
    if stray > 0 && modulo(x, stray) == 0 {
        pick(k, x, 100)
    } else {
        branch_symbol(branches, x)
    }
}

// How many spaces: none, some or, seldom, many.
fn count_of(k: usize, what: usize, sixteenths: usize) -> usize {
    let x = pick(k, what, 65536);
    if x % 16 >= sixteenths {
        return 0;
    }
    if x % 1024 < 16 {
        x / 1024
    } else {
        x / 1024 % 3 + 1
    }
}

// Whether the next tag opens an element (0) or closes one (1).
fn closes(k: usize, what: usize, m: Maker, s: Shape) -> usize {
    if goes_on(m, s) && (m.open == 0 || pick(k, what, 8) < s.eighths) {
        0
    } else {
        1
    }
}

// What there is after a tag, whose element stood last in the stack if it is a closing one.
fn with_tag(m: Maker, closing: usize, top: usize, length: usize) -> Maker {
    let open = m.open % 65536;
    if m.left > 0 && closing == 0 {
        return Maker {
            length,
            open: open + 1,
            depth: m.depth % 65536 + 1,
            left: m.left - 1,
        };
    }
    Maker {
        length,
        open: (open + 65535) % 65536,
        depth: top / 128 + 1,
        left: m.left,
    }
}

// One tag more. The element, if it opens one, is noted in any case.
fn next(
    text: &mut [u8],
    stack: &mut [usize],
    k: usize,
    m: Maker,
    branches: u32,
    s: Shape,
) -> Maker {
    let what = m.length % 65536 * 8 + 64;
    let closing = closes(k, what, m, s);
    let top = number(stack, (m.open % 65536 + 65535) % 65536);
    let value = number_of(k, what + 1, branches, s.stray, closing, top % 128);
    set_number(stack, m.open, value % 128 + m.depth % 65536 * 128);
    let at = pieces::spaces(text, m.length, k, count_of(k, what + 2, s.spaces));
    with_tag(m, closing, top, pieces::tag(text, at, closing, value))
}

fn is_done(m: Maker, s: Shape) -> bool {
    m.length >= LONGEST || m.open == 0 && !goes_on(m, s)
}

// A text of the shape; its length.
fn elements(text: &mut [u8], stack: &mut [usize], k: usize, branches: u32, s: Shape) -> usize {
    let mut m = Maker {
        length: 0,
        open: 0,
        depth: 0,
        left: s.elements,
    };
    for _ in 0..24000usize {
        if is_done(m, s) {
            return m.length;
        }
        m = next(text, stack, k, m, branches, s);
    }
    m.length
}

// How many spaces end a text; seldom so many that it is about as long as it may be.
fn count_after(k: usize, n: usize) -> usize {
    let length = 32762 + pick(k, 15, 13);
    if n < length && pick(k, 16, 40) == 0 {
        length - n
    } else {
        pick(k, 17, 4)
    }
}

// A text for some branch symbols; its length.
pub fn make(text: &mut [u8], stack: &mut [usize], k: usize, branches: u32) -> usize {
    let n = elements(text, stack, k, branches, shape_of(k));
    pieces::spaces(text, n, k, count_after(k, n))
}
