// A batch: the files of trees, end to end, and their tally. `file` has it over an automaton's file.
#![tactic(auto)]

pub mod file;
pub mod part;

ghost use Rattle.std.specs.Prelude.{◌≡◌, ◌<◌, ◌≤◌, length, drop};
ghost use Rattle.algorithms.specs.Automaton.{Automaton};
ghost use Rattle.automaton.specs.File.{WithinLimits};
ghost use Rattle.overloops.specs.Ready.{Headed};
ghost use Rattle.batch.specs.Batch.{file_blocks, first_length, ends_batch, rest_counted, batch_of};

use crate::part::judge_part;
use automaton::Header;
use class_tables::Cache;
use counting::count_all;
use membership::Answer;
use refusal::Refusal;
use tally::{Outcome, Tally};
use transitions::TransitionTable;

// The blocks of a file by its first block: as many as its nodes need, or one where their number is outside its limits.
fn file_blocks(first: &[u8]) -> usize
    ensures { (result ≡ file_blocks first.now) × (1 ≤ result) × (result ≤ 9) }
{
    if first.len() < 4 {
        return 1;
    }
    let nodes = blocks::half_at(first, 2) as usize;
    if 4096 < nodes {
        return 1;
    }
    (nodes + 511) / 508
}

// The bytes from a place on; none where the place is past the end.
pub fn back(bytes: &[u8], at: usize) -> &[u8]
    ensures { result.now ≡ drop at bytes.now }
{
    if at <= bytes.len() {
        &bytes[at..]
    } else {
        &bytes[..0]
    }
}

// The length of the first file, as its first block tells it.
pub fn first_length(bytes: &[u8]) -> usize
    ensures { (result ≡ first_length bytes.now) × (512 ≤ result) × (result ≤ 4608) }
{
    512 * file_blocks(blocks::front(bytes, 512))
}

// Whether an answer ends the batch: by a refusal of lines 1 to 4 the length of the file is not known.
fn ends_batch(answer: Result<Answer, Refusal>) -> bool
    ensures { result ≡ ends_batch answer }
{
    match answer {
        Ok(Answer::Accepted) => false,
        Ok(Answer::Other) => false,
        Err(refusal) => refusal.number <= 4,
    }
}

// What input that stops inside a file adds to a tally: one refused. Where nothing is left it adds nothing.
pub fn count_rest(tally: Tally, left: usize) -> Tally
    ensures { result ≡ rest_counted tally left }
{
    if left == 0 {
        return tally;
    }
    let counted = tally::counted(tally, Outcome::Refused);
    counted.tally
}

// The tally of all files, onto a tally. 128 files at a time are judged, and then their answers are counted.
pub fn tally_all(before: Tally, header: Header, table: &TransitionTable, bytes: &[u8]) -> Tally
    requires { WithinLimits header }
    ensures { (A : Automaton) → Headed A header table.now → result ≡ batch_of A before bytes.now }
{
    let mut cache = Cache::fresh();
    let mut answers = [0usize; 384];
    let mut tally = before;
    let mut at: usize = 0;
    loop {
        let part = judge_part(header, table, back(bytes, at), &mut answers, &mut cache);
        let numbers = 3 * part.files;
        tally = count_all(tally, &answers[..numbers]);
        at += part.bytes;
        if !part.more {
            return tally;
        }
        if part.files < 128 {
            return count_rest(tally, bytes.len() - at);
        }
    }
}
