// Writes the file of an automaton from its header and the bytes of its rule records.
#![tactic(auto)]

ghost use Rattle.std.specs.Prelude.{◌≡◌, [], ◌++◌, ◌+◌, ◌*◌, ◌<◌, ◌≤◌, length, get_or, drop};
ghost use Rattle.automaton.specs.Payload.{payload_of};
ghost use Rattle.blocks.specs.FileOf.{blocks_needed, file_of};

use automaton::Header;
use block_writer::{word_byte, write_file};

// A byte of the counts: offsets 0 to 7.
fn count_byte(header: Header, i: usize) -> u8
    requires { i < 8 }
    ensures { result ≡ get_or (payload_of header []) i 0 }
{
    match i {
        0 => 87,
        1 => header.states,
        2 => header.symbols,
        4 => (header.rules % 256) as u8,
        5 => (header.rules / 256) as u8,
        _ => 0,
    }
}

// A byte of the header: the counts, then the three sets.
fn header_byte(header: Header, i: usize) -> u8
    requires { i < 20 }
    ensures { result ≡ get_or (payload_of header []) i 0 }
{
    if i < 8 {
        return count_byte(header, i);
    }
    if i < 12 {
        return word_byte(header.initial, i - 8);
    }
    if i < 16 {
        return word_byte(header.accepting, i - 12);
    }
    word_byte(header.branches, i - 16)
}

// A byte of the payload of an automaton's file.
fn payload_byte(header: Header, records: &[u8], i: usize) -> u8
    requires { i < 20 + length records.now }
    ensures { result ≡ get_or (payload_of header records.now) i 0 }
{
    if i < 20 {
        return header_byte(header, i);
    }
    records[i - 20]
}

// Writes the payload to the front of the buffer, and returns its length.
fn write_payload(header: Header, records: &[u8], payload: &mut [u8]) -> usize
    requires { (length records.now ≤ 2560) × (20 + length records.now ≤ length payload.old) }
    ensures { (result ≡ length (payload_of header records.now))
        × (payload.new ≡ payload_of header records.now ++ drop result payload.old) }
{
    let len = 20 + records.len();
    for i in 0..len {
        payload[i] = payload_byte(header, records, i);
    }
    len
}

// Writes the file of a header and at most 512 rule records to the front of `out`, and returns its length.
pub fn write_automaton(header: Header, records: &[u8], out: &mut [u8]) -> usize
    requires { (length records.now ≤ 2560) × (512 * blocks_needed (20 + length records.now) ≤ length out.old) }
    ensures { (result ≡ length (file_of (payload_of header records.now)))
        × (out.new ≡ file_of (payload_of header records.now) ++ drop result out.old) }
{
    let mut payload = [0u8; 2580];
    let len = write_payload(header, records, &mut payload);
    write_file(&payload[..len], out)
}
