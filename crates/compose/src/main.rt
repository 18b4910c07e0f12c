// Turns an element text into a tree's file (document 02, W6). Standard input has the length of an automaton's file in two bytes, low byte first, the
// file, and the text; the tree's file goes to standard output. Where it is refused, or the output is lost, a line on standard error says why
// (tools/compose makes the input, and a status of what is said).
#![tactic(auto)]

use telling::{hand_over, read_front, say_refused};

// A tree's file has at most 4,608 bytes, so that 13 is not met.
fn write_tree(file: &[u8], text: &[u8]) {
    let mut out = [0u8; 4608];
    match markup::write(file, text, &mut out) {
        Ok(n) => {
            hand_over(blocks::front(&out, n), b"compose: output lost\n");
        }
        Err(refusal) => say_refused(b"compose: refused=", refusal),
    }
}

// An automaton's file has at most 3,072 bytes and a text 32,768: of each one byte more is read, by which a longer one is refused.
fn main() {
    let mut head = [0u8; 2];
    let mut file = [0u8; 3073];
    let mut text = [0u8; 32769];
    io::read_full(0, &mut head);
    let n = blocks::half_at(&head, 0) as usize;
    if !read_front(&mut file, n) {
        io::write_all(2, b"compose: input cut off\n");
        return;
    }
    let m = io::read_full(0, &mut text);
    write_tree(blocks::front(&file, n), blocks::front(&text, m));
}
