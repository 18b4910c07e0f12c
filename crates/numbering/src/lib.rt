// Answers as numbers, for programs in other languages: each function answers a number, and leaves three more in `told`: those of the answer, or
// of a refusal its number, file and place; what is missing is 0.
#![tactic(auto)]

ghost use Rattle.std.specs.Prelude.{◌≡◌};
ghost use Rattle.numbering.specs.Numbers.{refusal_told, answer_number, answer_told, growth_numbers, count_number, count_told, survey_number, survey_told, quick_number, quick_told, single_number, single_told, watch_number, watch_told, compared_number, compared_counts, compared_told, outcome_numbered, tally_numbers, check_number, check_told};

use determinism::Singleness;
use emptiness::{Quick, Survey};
use logs::Compared;
use membership::{Answer, Judged};
use refusal::Refusal;
use tally::{Outcome, Tally};
use watch::Watched;

fn put_refusal(refusal: Refusal, told: &mut [usize; 3])
    ensures { told.new ≡ refusal_told refusal }
{
    *told = [
        refusal.number as usize,
        refusal.file as usize,
        refusal.place,
    ];
}

// 0 accepted, 1 other, 2 refused.
pub fn put_answer(answer: Result<Answer, Refusal>, told: &mut [usize; 3]) -> u32
    ensures { (result ≡ answer_number answer) × (told.new ≡ answer_told answer) }
{
    *told = [0, 0, 0];
    match answer {
        Ok(Answer::Accepted) => 0,
        Ok(Answer::Other) => 1,
        Err(refusal) => {
            put_refusal(refusal, told);
            2
        }
    }
}

// The same, and the sum that the answer comes with.
pub fn put_judged(judged: Judged, growth: &mut [usize; 1], told: &mut [usize; 3]) -> u32
    ensures { (result ≡ answer_number judged.answer) × (growth.new ≡ growth_numbers judged) × (told.new ≡ answer_told judged.answer) }
{
    *growth = [judged.growth as usize];
    let answer = judged.answer;
    put_answer(answer, told)
}

// 0 with a count (files that were judged, bytes that were written), 1 refused.
pub fn put_count(answer: Result<usize, Refusal>, told: &mut [usize; 3]) -> u32
    ensures { (result ≡ count_number answer) × (told.new ≡ count_told answer) }
{
    match answer {
        Ok(count) => {
            *told = [count, 0, 0];
            0
        }
        Err(refusal) => {
            put_refusal(refusal, told);
            1
        }
    }
}

// 0 found (height, rows), 1 open (height), 2 empty (height), 3 refused.
pub fn put_survey(answer: Result<Survey, Refusal>, told: &mut [usize; 3]) -> u32
    ensures { (result ≡ survey_number answer) × (told.new ≡ survey_told answer) }
{
    match answer {
        Ok(Survey::Found { height, rows }) => {
            *told = [height, rows, 0];
            0
        }
        Ok(Survey::Open(height)) => {
            *told = [height, 0, 0];
            1
        }
        Ok(Survey::Empty(height)) => {
            *told = [height, 0, 0];
            2
        }
        Err(refusal) => {
            put_refusal(refusal, told);
            3
        }
    }
}

// 0 clear, 1 unsure, 2 refused.
pub fn put_quick(answer: Result<Quick, Refusal>, told: &mut [usize; 3]) -> u32
    ensures { (result ≡ quick_number answer) × (told.new ≡ quick_told answer) }
{
    *told = [0, 0, 0];
    match answer {
        Ok(Quick::Clear) => 0,
        Ok(Quick::Unsure) => 1,
        Err(refusal) => {
            put_refusal(refusal, told);
            2
        }
    }
}

// 0 single, 1 not single, 2 refused.
pub fn put_single(answer: Result<Singleness, Refusal>, told: &mut [usize; 3]) -> u32
    ensures { (result ≡ single_number answer) × (told.new ≡ single_told answer) }
{
    *told = [0, 0, 0];
    match answer {
        Ok(Singleness::Single) => 0,
        Ok(Singleness::Multiple) => 1,
        Err(refusal) => {
            put_refusal(refusal, told);
            2
        }
    }
}

// 0 passed (steps), 1 stuck (steps), 2 circling (steps), 3 spent (steps), 4 refused.
pub fn put_watched(answer: Result<Watched, Refusal>, told: &mut [usize; 3]) -> u32
    ensures { (result ≡ watch_number answer) × (told.new ≡ watch_told answer) }
{
    match answer {
        Ok(Watched::Passed(steps)) => {
            *told = [steps, 0, 0];
            0
        }
        Ok(Watched::Stuck(steps)) => {
            *told = [steps, 0, 0];
            1
        }
        Ok(Watched::Circling(steps)) => {
            *told = [steps, 0, 0];
            2
        }
        Ok(Watched::Spent(steps)) => {
            *told = [steps, 0, 0];
            3
        }
        Err(refusal) => {
            put_refusal(refusal, told);
            4
        }
    }
}

// 0 compared, with the length of the part and the two counts; 1 refused, with none.
pub fn put_compared(
    compared: Result<Compared, Refusal>,
    part: usize,
    counts: &mut [usize; 3],
    told: &mut [usize; 3],
) -> u32
    ensures { (result ≡ compared_number compared) × (counts.new ≡ compared_counts compared part) × (told.new ≡ compared_told compared) }
{
    match compared {
        Ok(both) => {
            *counts = [part, both.first, both.second];
            *told = [0, 0, 0];
            0
        }
        Err(refusal) => {
            *counts = [0, 0, 0];
            put_refusal(refusal, told);
            1
        }
    }
}

// 0 counted, 1 refused.
pub fn put_check(check: Result<(), Refusal>, told: &mut [usize; 3]) -> u32
    ensures { (result ≡ check_number check) × (told.new ≡ check_told check) }
{
    *told = [0, 0, 0];
    match check {
        Ok(()) => 0,
        Err(refusal) => {
            put_refusal(refusal, told);
            1
        }
    }
}

// 0 accepted, 1 other, any other number refused.
pub fn outcome_of(number: u32) -> Outcome
    ensures { result ≡ outcome_numbered number }
{
    match number {
        0 => Outcome::Accepted,
        1 => Outcome::Other,
        _ => Outcome::Refused,
    }
}

pub fn put_tally(tally: Tally, out: &mut [u32; 3])
    ensures { out.new ≡ tally_numbers tally }
{
    *out = [tally.accepted, tally.other, tally.refused];
}
