// The files at the front of a batch, judged one after another by a cache, their answers written to a lent slice, and to another their sums of growths.
ghost use Rattle.std.specs.Prelude.{ℕ, Some, None, ◌≡◌, true, not, ◌∷◌, [], ◌+◌, ◌*◌, ◌<◌, ◌≤◌, length, drop, set};
ghost use Rattle.std.proofs.lemmas.List.Edits.{sets};
ghost use Rattle.algorithms.specs.Automaton.{Automaton};
ghost use Rattle.automaton.specs.File.{WithinLimits};
ghost use Rattle.overloops.specs.Ready.{Headed};
ghost use Rattle.class_tables.specs.Cache.{Cached};
ghost use Rattle.membership.specs.Judged.{judged_by};
ghost use Rattle.membership.specs.Grown.{growth_by};
ghost use Rattle.batch.specs.Batch.{first_length, ends_batch};
ghost use Rattle.batch.specs.Answers.{answer_numbers, after_files, growths_after, Part, Stopped};

use crate::{back, ends_batch, first_length};
use automaton::Header;
use class_tables::Cache;
use judging::judge_with;
use membership::Answer;
use refusal::Refusal;
use transitions::TransitionTable;

// How many files were judged, how many bytes they are, and whether the batch goes on after them.
#[derive(Clone, Copy)]
pub struct Judged {
    pub files: usize,
    pub bytes: usize,
    pub more: bool,
}

// The length of the file at a place, where it is whole.
fn whole_length(bytes: &[u8], at: usize) -> Option<usize>
    ensures { ((n : ℕ) → result ≡ Some n → (n ≡ first_length (drop at bytes.now)) × (512 ≤ n) × (at + n ≤ length bytes.now))
        × (result ≡ None → length (drop at bytes.now) < first_length (drop at bytes.now)) }
{
    let rest = back(bytes, at);
    let length = first_length(rest);
    if rest.len() < length {
        return None;
    }
    Some(length)
}

// An answer as three numbers.
fn numbers_of(answer: Result<Answer, Refusal>) -> [usize; 3]
    ensures { result ≡ answer_numbers answer }
{
    match answer {
        Ok(Answer::Accepted) => [0, 0, 0],
        Ok(Answer::Other) => [1, 0, 0],
        Err(refusal) => [2, refusal.number as usize, refusal.place],
    }
}

// Writes three numbers from a place on.
fn put_numbers(answers: &mut [usize], at: usize, kind: usize, number: usize, place: usize)
    requires { at + 3 ≤ length answers.old }
    ensures { answers.new ≡ sets answers.old at (kind ∷ number ∷ place ∷ []) }
{
    answers[at] = kind;
    answers[at + 1] = number;
    answers[at + 2] = place;
}

// Writes a number at a place, where there is one.
fn put_growth(growths: &mut [usize], at: usize, growth: u32)
    ensures { growths.new ≡ set growths.old at growth }
{
    if at < growths.len() {
        growths[at] = growth as usize;
    }
}

// Judges a file and writes its answer and, where there is room, its sum of growths; whether the batch goes on after it.
pub fn judge_one(
    header: Header,
    table: &TransitionTable,
    file: &[u8],
    answers: &mut [usize],
    at: usize,
    growths: &mut [usize],
    place: usize,
    cache: &mut Cache,
) -> bool
    requires { WithinLimits header × (at + 3 ≤ length answers.old) }
    ensures { (length answers.new ≡ length answers.old) × (length growths.new ≡ length growths.old)
        × ((A : Automaton) → Headed A header table.now → Cached A cache.old
        → Cached A cache.new × (answers.new ≡ sets answers.old at (answer_numbers (judged_by A file.now)))
        × (result ≡ not (ends_batch (judged_by A file.now)))
        × (growths.new ≡ set growths.old place (growth_by A file.now))) }
{
    let sums = place < growths.len();
    let judged = judge_with(header, table, file, sums, cache);
    let answer = judged.answer;
    let numbers = numbers_of(answer);
    put_numbers(answers, at, numbers[0], numbers[1], numbers[2]);
    put_growth(growths, place, judged.growth);
    let last = ends_batch(answer);
    !last
}

// Judges the whole files at the front, as many as there is room for their answers, until one ends the batch. As far as there is room for sums of
// growths these are formed and written as well.
pub fn weigh_part(
    header: Header,
    table: &TransitionTable,
    bytes: &[u8],
    answers: &mut [usize],
    growths: &mut [usize],
    cache: &mut Cache,
) -> Judged
    requires { WithinLimits header }
    ensures { (3 * result.files ≤ length answers.new) × (length answers.new ≡ length answers.old)
        × (512 * result.files ≤ result.bytes) × (result.bytes ≤ length bytes.now)
        × (result.more ≡ true → Stopped bytes.now answers.old result)
        × ((A : Automaton) → Headed A header table.now → Cached A cache.old
        → Cached A cache.new × Part A bytes.now answers.old answers.new result
        × (growths.new ≡ growths_after A result.files bytes.now growths.old)) × (result.bytes ≤ 4608 * result.files)
        × (length growths.new ≡ length growths.old)
        × (drop result.bytes bytes.now ≡ after_files result.files bytes.now) }
{
    let mut files: usize = 0;
    let mut at: usize = 0;
    let mut more = true;
    while more {
        let room = answers.len() - 3 * files;
        if room < 3 {
            return Judged {
                files,
                bytes: at,
                more,
            };
        }
        let Some(length) = whole_length(bytes, at) else {
            return Judged {
                files,
                bytes: at,
                more,
            };
        };
        let end = at + length;
        more = judge_one(
            header,
            table,
            &bytes[at..end],
            answers,
            3 * files,
            growths,
            files,
            cache,
        );
        files += 1;
        at = end;
    }
    Judged {
        files,
        bytes: at,
        more,
    }
}

// The same without sums.
pub fn judge_part(
    header: Header,
    table: &TransitionTable,
    bytes: &[u8],
    answers: &mut [usize],
    cache: &mut Cache,
) -> Judged
    requires { WithinLimits header }
    ensures { (3 * result.files ≤ length answers.new) × (length answers.new ≡ length answers.old)
        × (512 * result.files ≤ result.bytes) × (result.bytes ≤ length bytes.now)
        × (result.more ≡ true → Stopped bytes.now answers.old result)
        × ((A : Automaton) → Headed A header table.now → Cached A cache.old
        → Cached A cache.new × Part A bytes.now answers.old answers.new result) × (result.bytes ≤ 4608 * result.files) }
{
    let mut none = [0usize; 1];
    weigh_part(header, table, bytes, answers, &mut none[..0], cache)
}
