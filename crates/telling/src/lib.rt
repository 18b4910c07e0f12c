// Reading cases from standard input, and writing numbers and refusals: for the programs that write a line for each case, and those that write files.
#![tactic(auto)]

ghost use Rattle.std.specs.Prelude.{◌≡◌, ◌+◌, ◌<◌, ◌≤◌, length, true};
ghost use Rattle.blocks.specs.Blocks.{half_at};

use refusal::Refusal;

// ---- reading

// Fills the first n bytes of a buffer from the input; false where either is shorter.
pub fn read_front(buffer: &mut [u8], n: usize) -> bool
    ensures { result ≡ true → n ≤ length buffer.old }
{
    if buffer.len() < n {
        return false;
    }
    io::read_full(0, &mut buffer[..n]) == n
}

// The same, unless the number is at or over a limit: then it stands for what the buffer holds already.
pub fn read_below(buffer: &mut [u8], n: usize, limit: usize) -> bool {
    limit <= n || read_front(buffer, n)
}

// The number of two bytes, low byte first.
pub fn pair_at(bytes: &[u8], at: usize) -> usize
    requires { at + 2 ≤ length bytes.now }
    ensures { result ≡ half_at bytes.now at }
{
    blocks::half_at(bytes, at) as usize
}

// ---- bytes

// A pattern, by which a byte that is written, or moved, is seen.
pub fn fill(bytes: &mut [u8]) {
    for i in 0..bytes.len() {
        bytes[i] = (i % 251) as u8;
    }
}

fn mixed(sum: u64, b: u8) -> u64
    ensures { result < 1000003 }
{
    ((sum % 1000003) * 257 + (b as u64)) % 1000003
}

// A number that depends on each byte and its place.
pub fn mix(bytes: &[u8]) -> u64 {
    let mut sum = 1u64;
    for i in 0..bytes.len() {
        sum = mixed(sum, bytes[i]);
    }
    sum
}

// ---- on standard output

pub fn number(label: &[u8], n: u64) {
    io::write_all(1, label);
    io::print_decimal(1, n);
}

pub fn print_refusal(refusal: Refusal) {
    number(b" refused=", refusal.number as u64);
    number(b" file=", refusal.file as u64);
    number(b" place=", refusal.place as u64);
}

// ---- on standard error

pub fn say(words: &[u8], n: usize) {
    io::write_all(2, words);
    io::print_decimal(2, n as u64);
}

// A line with a refusal.
pub fn say_refused(words: &[u8], refusal: Refusal) {
    say(words, refusal.number as usize);
    say(b" file=", refusal.file as usize);
    say(b" place=", refusal.place);
    io::write_all(2, b"\n");
}

// The same without the file: the words say which it is.
pub fn say_refused_at(words: &[u8], refusal: Refusal) {
    say(words, refusal.number as usize);
    say(b" place=", refusal.place);
    io::write_all(2, b"\n");
}

// Writes a file to standard output; where it is lost, the words say so.
pub fn hand_over(file: &[u8], lost: &[u8]) -> bool {
    if io::write_all(1, file) {
        return true;
    }
    io::write_all(2, lost);
    false
}
