// Writes the file that holds a payload: the fewest blocks, zero filler, right checks.
#![tactic(auto)]

ghost use Rattle.std.specs.Prelude.{◌≡◌, ◌+◌, ◌*◌, ◌/◌, ◌%◌, ◌<◌, ◌≤◌, ◌++◌, length, drop, slice_index};
ghost use Rattle.blocks.specs.Blocks.{word_at};
ghost use Rattle.blocks.specs.FileOf.{blocks_needed, check_for, word_bytes, file_byte, file_of};
ghost use Rattle.block_writer.specs.Written.{room_check};

use blocks::wide;
use refusal::{Fault, Refusal, refused};

// The byte at an offset, 0 past the end.
fn byte_at(payload: &[u8], at: usize) -> u8
    ensures { (result ≡ slice_index payload.now at) × (result < 256) }
{
    if at < payload.len() { payload[at] } else { 0 }
}

// The 32-bit word at an offset, lowest byte first, with zeros past the end.
fn padded_word(payload: &[u8], at: usize) -> u32
    requires { at < 9223372036854775808 }
    ensures { result ≡ word_at payload.now at }
{
    wide(byte_at(payload, at))
        + 256 * wide(byte_at(payload, at + 1))
        + 65536 * wide(byte_at(payload, at + 2))
        + 16777216 * wide(byte_at(payload, at + 3))
}

// The check of block b of the payload's file.
#[tactic(auto, unfolding(blocks::specs::Blocks::word_sum, blocks::specs::FileOf::check_for))]
fn check_for(payload: &[u8], b: usize) -> u32
    requires { b < 18014398509481984 }
    ensures { result ≡ check_for payload.now b }
{
    let start = 508 * b;
    let mut sum = std::num::wrapping_add_u32((b % 4294967296) as u32, 1);
    for k in 0..127 {
        sum = std::num::wrapping_add_u32(sum, padded_word(payload, start + 4 * k));
    }
    sum
}

// Byte k of a word, lowest first.
#[tactic(auto, unfolding(blocks::specs::FileOf::word_bytes))]
pub fn word_byte(word: u32, k: usize) -> u8
    requires { k < 4 }
    ensures { result ≡ slice_index (word_bytes word) k }
{
    if k == 0 {
        return (word % 256) as u8;
    }
    if k == 1 {
        return (word / 256 % 256) as u8;
    }
    if k == 2 {
        return (word / 65536 % 256) as u8;
    }
    (word / 16777216 % 256) as u8
}

// Byte i of the file, where the check of its block is at hand if the byte is one of it.
#[tactic(auto, unfolding(blocks::specs::FileOf::file_byte))]
fn file_byte(payload: &[u8], check: u32, i: usize) -> u8
    requires { (i < 9223372036854775808) × (508 ≤ i % 512 → check ≡ check_for payload.now (i / 512)) }
    ensures { result ≡ file_byte payload.now i }
{
    let at = i % 512;
    if at < 508 {
        byte_at(payload, i / 512 * 508 + at)
    } else {
        word_byte(check, at - 508)
    }
}

// Refusal 13, for the file of a payload of so many bytes.
pub fn room_check(payload: usize, room: usize) -> Result<(), Refusal>
    requires { payload ≤ 4608 }
    ensures { result ≡ room_check (512 * blocks_needed payload) room }
{
    let needed = 512 * ((payload + 507) / 508);
    if room < needed {
        return refused(Fault::Buffer, 2, needed);
    }
    Ok(())
}

// Writes the file to the front of `out`, and returns its length.
pub fn write_file(payload: &[u8], out: &mut [u8]) -> usize
    requires { 512 * blocks_needed (length payload.now) ≤ length out.old }
    ensures { (result ≡ length (file_of payload.now)) × (out.new ≡ file_of payload.now ++ drop result out.old) }
{
    let len = 512 * ((payload.len() + 507) / 508);
    let mut check = 0;
    for i in 0..len {
        if i % 512 == 508 {
            check = check_for(payload, i / 512);
        }
        out[i] = file_byte(payload, check, i);
    }
    len
}
