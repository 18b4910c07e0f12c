// Reads cases from standard input and writes a line for each: what writing an automaton's file in its one form gives, what the lent bytes are then,
// and whether writing the form again changes anything. A case is five bytes (the length of its label; the lengths of the file and of the lent
// bytes, low byte first), then the label and the file. tools/make_canonical_cases.py makes them.
#![tactic(auto)]

use refusal::Refusal;
use telling::{fill, mix, number, pair_at, print_refusal, read_front};

// Writes the form into the front of a buffer.
fn write(file: &[u8], buffer: &mut [u8], room: usize) -> Result<usize, Refusal> {
    if room <= buffer.len() {
        canonical::write(file, &mut buffer[..room])
    } else {
        canonical::write(file, buffer)
    }
}

// Writes a file that was written once more, where the same lent bytes are expected.
fn print_again(file: &[u8], room: usize, before: u64) {
    let mut buffer = [0u8; 8192];
    fill(&mut buffer);
    let _ = write(file, &mut buffer, room);
    if mix(&buffer) == before {
        io::write_all(1, b" again=same");
    } else {
        io::write_all(1, b" again=other");
    }
}

fn print_written(file: &[u8], room: usize) {
    let mut buffer = [0u8; 8192];
    fill(&mut buffer);
    match write(file, &mut buffer, room) {
        Err(refusal) => print_refusal(refusal),
        Ok(n) => {
            number(b" written=", n as u64);
            number(b" rules=", pair_at(&buffer, 4) as u64);
            print_again(blocks::front(&buffer, n), room, mix(&buffer));
        }
    }
    number(b" mix=", mix(blocks::front(&buffer, room)));
}

// Reads a case and writes its line; false at the end of the input.
fn one_case() -> bool {
    let mut head = [0u8; 5];
    let mut label = [0u8; 256];
    let mut file = [0u8; 8192];
    if !read_front(&mut head, 5) {
        return false;
    }
    if !read_front(&mut label, blocks::wide(head[0]) as usize) {
        return false;
    }
    if !read_front(&mut file, pair_at(&head, 1)) {
        return false;
    }
    io::write_all(1, blocks::front(&label, blocks::wide(head[0]) as usize));
    io::write_all(1, b":");
    print_written(blocks::front(&file, pair_at(&head, 1)), pair_at(&head, 3));
    io::write_all(1, b"\n");
    true
}

fn main() {
    for _ in 0..10000usize {
        if !one_case() {
            return;
        }
    }
}
