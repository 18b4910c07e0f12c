// The engine beside the definition, on one text: the answer, and every byte of an output that has a pattern before, also after the part that is lent.
ghost use Rattle.std.specs.Prelude.{◌≤◌};

use parses::answer::Expected;
use refusal::Refusal;
use sampling::access::{byte, set_byte};

// The pattern.
fn mark(i: usize, salt: usize) -> usize {
    (i % 8192 * 7 + salt % 256) % 256
}

fn fill(out: &mut [u8], salt: usize) {
    for i in 0..out.len() {
        set_byte(out, i, mark(i, salt));
    }
}

// Whether the output begins with so many bytes of the file, and has the pattern after them.
fn is_written(out: &[u8], file: &[u8], length: usize, salt: usize) -> bool {
    for i in 0..out.len() {
        let right = if i < length {
            byte(file, i)
        } else {
            mark(i, salt)
        };
        if byte(out, i) != right {
            return false;
        }
    }
    true
}

// The lower of two numbers.
fn lower(a: usize, b: usize) -> usize
    ensures { result ≤ b }
{
    if a < b { a } else { b }
}

// Writes into the front of the output.
fn write(file: &[u8], text: &[u8], out: &mut [u8], room: usize) -> Result<usize, Refusal> {
    let n = lower(room, out.len());
    markup::write(file, text, &mut out[..n])
}

fn same_answer(answer: Result<usize, Refusal>, e: Expected) -> bool {
    match answer {
        Err(refusal) => {
            refusal.number as usize == e.number
                && refusal.file as usize == e.file
                && refusal.place == e.place
        }
        Ok(n) => e.number == 0 && n == e.length,
    }
}

pub fn is_right(file: &[u8], text: &[u8], room: usize, e: Expected, tree_file: &[u8]) -> bool {
    let mut out = [0u8; 5632];
    fill(&mut out, room);
    let answer = write(file, text, &mut out, room);
    same_answer(answer, e) && is_written(&out, tree_file, e.length, room)
}
