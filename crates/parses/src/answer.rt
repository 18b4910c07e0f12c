// What has to be answered to a text: the first refusal that applies, or the tree's file.
use crate::scan;
use crate::scan::Reading;
use sampling::access::has;
use search::files;

const LONGEST: usize = 32768;

// A refusal's number, file and place or, number 0, a file of the length.
#[derive(Clone, Copy)]
pub struct Expected {
    pub number: usize,
    pub file: usize,
    pub place: usize,
    pub length: usize,
}

pub fn refused(number: usize, file: usize, place: usize) -> Expected {
    Expected {
        number,
        file,
        place,
        length: 0,
    }
}

fn written(length: usize) -> Expected {
    Expected {
        number: 0,
        file: 0,
        place: 0,
        length,
    }
}

// 4 and 12, or a file of the length.
fn of_tree(r: Reading, length: usize) -> Expected {
    if r.nodes > 4096 {
        return refused(4, 1, 2);
    }
    if r.deep > 0 {
        refused(12, 1, r.deep - 1)
    } else {
        written(length)
    }
}

// 19, or what is next.
fn of_symbols(branches: u32, text: &[u8], r: Reading, length: usize) -> Expected {
    let stray = scan::first_stray(branches, text);
    if has(branches, 0) {
        return refused(19, 2, 0);
    }
    if stray < text.len() {
        refused(19, 2, stray)
    } else {
        of_tree(r, length)
    }
}

// 18, or what is next.
fn of_reading(branches: u32, text: &[u8], r: Reading, length: usize) -> Expected {
    if text.len() > LONGEST {
        return refused(18, 2, LONGEST);
    }
    if r.right {
        of_symbols(branches, text, r, length)
    } else {
        refused(18, 2, r.place)
    }
}

// What has to be answered for some branch symbols where there is room. A file that has to be written is then in its buffer, which was all zero.
// The stack and the list of nodes may hold anything.
pub fn expected_of(
    branches: u32,
    text: &[u8],
    stack: &mut [usize],
    nodes: &mut [u8],
    file: &mut [u8],
) -> Expected {
    let r = scan::read(text, stack, nodes);
    let length = files::write_symbols(file, nodes, r.nodes);
    of_reading(branches, text, r, length)
}
