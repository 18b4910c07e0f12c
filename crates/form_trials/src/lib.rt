// A file's one form as the engine writes it into an output of some length, and whether the answer and all bytes of the output are what is expected;
// and what was answered, counted and written (`counts`).
#![tactic(auto)]

pub mod counts;

use enumerated::plan;
use forms::Expected;
use refusal::Refusal;
use sampling::access::same_bytes;

// Writes into the front of the output.
fn write(file: &[u8], out: &mut [u8], room: usize) -> Result<usize, Refusal> {
    if room <= out.len() {
        canonical::write(file, &mut out[..room])
    } else {
        canonical::write(file, out)
    }
}

// Whether the answer and the output afterwards are right.
fn right(
    answer: Result<usize, Refusal>,
    e: Expected,
    form_file: &[u8],
    out: &[u8],
    salt: usize,
) -> bool {
    match answer {
        Err(refusal) => {
            refusal.number as usize == e.number
                && refusal.file as usize == e.file
                && refusal.place == e.place
                && plan::unchanged(out, 0, salt)
        }
        Ok(n) => {
            e.number == 0
                && n == e.length
                && same_bytes(out, form_file, n)
                && plan::unchanged(out, n, salt)
        }
    }
}

// Whether a file is written as expected into an output that has a pattern, of so many bytes: the answer, and every byte afterwards.
pub fn is_right(file: &[u8], room: usize, e: Expected, form_file: &[u8]) -> bool {
    let mut out = [0u8; 4096];
    plan::fill(&mut out, room);
    let answer = write(file, &mut out, room);
    right(answer, e, form_file, &out, room)
}
