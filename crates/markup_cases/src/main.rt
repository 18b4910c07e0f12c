// Reads cases from standard input and writes a line for each: what writing an element text as a tree's file gives, and what the lent bytes are then.
// A case is eight bytes (the length of its label; the length of the automaton's file, 65535 standing for the file of the case before; the number
// of the text's pieces; the length of the lent bytes; and a place in the text, or 65535: two bytes each but for the first and the third, low byte
// first), then the label, the file and the pieces. A piece is how often it comes and its length, two bytes each, and its bytes. Where a place is
// given, each of the 256 bytes is put there in turn, and an answer is written where it is not that of the byte before.
// tools/make_markup_cases.py makes them.
#![tactic(auto)]

ghost use Rattle.std.specs.Prelude.{◌≤◌, length};

use refusal::Refusal;
use telling::{fill, mix, number, pair_at, read_front};

// An answer: the number of a refusal, its file and its place; or 0, the number of nodes and the file's length. And a number for the lent bytes.
#[derive(Clone, Copy, PartialEq)]
struct Outcome {
    number: u64,
    file: u64,
    place: u64,
    mix: u64,
}

fn print_outcome(outcome: Outcome) {
    if outcome.number == 0 {
        number(b" written=", outcome.place);
        number(b" nodes=", outcome.file);
    } else {
        number(b" refused=", outcome.number);
        number(b" file=", outcome.file);
        number(b" place=", outcome.place);
    }
    number(b" mix=", outcome.mix);
}

fn lesser(a: usize, b: usize) -> usize
    ensures { (result ≤ a) × (result ≤ b) }
{
    if a <= b { a } else { b }
}

// Writes the tree's file into the front of a buffer.
fn write(file: &[u8], text: &[u8], buffer: &mut [u8], room: usize) -> Result<usize, Refusal> {
    let n = lesser(room, buffer.len());
    markup::write(file, text, &mut buffer[..n])
}

fn of_refusal(refusal: Refusal, mix: u64) -> Outcome {
    Outcome {
        number: refusal.number as u64,
        file: refusal.file as u64,
        place: refusal.place as u64,
        mix,
    }
}

fn outcome_of(written: Result<usize, Refusal>, buffer: &[u8], mix: u64) -> Outcome
    requires { 4 ≤ length buffer.now }
{
    match written {
        Err(refusal) => of_refusal(refusal, mix),
        Ok(n) => Outcome {
            number: 0,
            file: pair_at(buffer, 2) as u64,
            place: n as u64,
            mix,
        },
    }
}

fn answer(file: &[u8], text: &[u8], room: usize) -> Outcome {
    let mut buffer = [0u8; 8192];
    fill(&mut buffer);
    let written = write(file, text, &mut buffer, room);
    outcome_of(written, &buffer, mix(blocks::front(&buffer, room)))
}

// The answers with each byte at a place of the text.
fn print_each(file: &[u8], text: &mut [u8], at: usize, room: usize) {
    if text.len() <= at {
        return;
    }
    let mut last = Outcome {
        number: 0,
        file: 0,
        place: 0,
        mix: 0,
    };
    for value in 0..256u32 {
        text[at] = value as u8;
        let next = answer(file, text, room);
        if next != last {
            number(b" from=", value as u64);
            print_outcome(next);
        }
        last = next;
    }
}

fn print_answer(file: &[u8], text: &mut [u8], at: usize, room: usize) {
    if at == 65535 {
        print_outcome(answer(file, text, room));
    } else {
        print_each(file, text, at, room);
    }
}

// Copies a piece to a place of the text, as far as there is room; the place after it.
fn append(text: &mut [u8], at: usize, piece: &[u8]) -> usize
    requires { at ≤ length text.old }
    ensures { result ≤ length text.new }
{
    let n = lesser(piece.len(), text.len() - at);
    for i in 0..n {
        text[at + i] = piece[i];
    }
    at + n
}

fn repeat(text: &mut [u8], at: usize, piece: &[u8], count: usize) -> usize
    requires { at ≤ length text.old }
    ensures { result ≤ length text.new }
{
    let mut end = at;
    for _ in 0..count {
        end = append(text, end, piece);
    }
    end
}

// Reads n bytes and puts them at a place of the text so often; the place after them.
fn read_copies(text: &mut [u8], at: usize, n: usize, count: usize) -> usize
    requires { at ≤ length text.old }
    ensures { result ≤ length text.new }
{
    let mut piece = [0u8; 65536];
    if !read_front(&mut piece, n) {
        return at;
    }
    repeat(text, at, blocks::front(&piece, n), count)
}

// Reads a piece and puts it at a place of the text as often as it comes; the place after it.
fn read_piece(text: &mut [u8], at: usize) -> usize
    requires { at ≤ length text.old }
    ensures { result ≤ length text.new }
{
    let mut head = [0u8; 4];
    if !read_front(&mut head, 4) {
        return at;
    }
    read_copies(text, at, pair_at(&head, 2), pair_at(&head, 0))
}

// Reads so many pieces; the length of the text.
fn read_text(text: &mut [u8], pieces: usize) -> usize
    ensures { result ≤ length text.new }
{
    let mut end = 0;
    for _ in 0..pieces {
        end = read_piece(text, end);
    }
    end
}

// Reads the file into the buffer, unless it is the one of the case before; its length, or nothing at the end of the input.
fn read_file(file: &mut [u8], length: usize, kept: usize) -> Option<usize> {
    if length == 65535 {
        return Some(kept);
    }
    if read_front(file, length) {
        Some(length)
    } else {
        None
    }
}

// Reads the text of a case and writes its answer.
fn print_case(head: &[u8; 8], file: &[u8]) {
    let mut text = [0u8; 65536];
    let end = read_text(&mut text, blocks::wide(head[3]) as usize);
    print_answer(file, &mut text[..end], pair_at(head, 6), pair_at(head, 4));
}

fn print_line(label: &[u8], head: &[u8; 8], file: &[u8]) {
    io::write_all(1, label);
    io::write_all(1, b":");
    print_case(head, file);
    io::write_all(1, b"\n");
}

// Reads a case and writes its line; the length of its file, or nothing at the end of the input. The buffer holds the file of the case before, of
// so many bytes.
fn one_case(file: &mut [u8], kept: usize) -> Option<usize> {
    let mut head = [0u8; 8];
    let mut label = [0u8; 256];
    if !read_front(&mut head, 8) {
        return None;
    }
    let n = blocks::wide(head[0]) as usize;
    if !read_front(&mut label, n) {
        return None;
    }
    let length = read_file(file, pair_at(&head, 1), kept)?;
    print_line(blocks::front(&label, n), &head, blocks::front(file, length));
    Some(length)
}

fn main() {
    let mut file = [0u8; 8192];
    let mut kept = 0;
    for _ in 0..10000usize {
        if let Some(length) = one_case(&mut file, kept) {
            kept = length;
        } else {
            return;
        }
    }
}
