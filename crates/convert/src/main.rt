// Writes an automaton's file in its one form (document 02, W4): the file comes from standard input, and the form goes to standard output. Where it is
// refused, or the output is lost, a line on standard error says why (tools/convert makes a status of it).
#![tactic(auto)]

use telling::{hand_over, say_refused_at};

// The form has at most 3,072 bytes, so that 13 is not met.
fn write_form(file: &[u8]) {
    let mut out = [0u8; 3072];
    match canonical::write(file, &mut out) {
        Ok(n) => {
            hand_over(blocks::front(&out, n), b"convert: output lost\n");
        }
        Err(refusal) => say_refused_at(b"convert: walker refused=", refusal),
    }
}

// An automaton's file has at most 3,072 bytes: one byte more is read, by which a longer file is refused.
fn main() {
    let mut file = [0u8; 3073];
    let n = io::read_full(0, &mut file);
    write_form(blocks::front(&file, n));
}
