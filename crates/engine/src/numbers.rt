// The engine's functions for Rust and C, on numbers and bytes; bindings/engine.h has their C declarations. Each answers a number, and leaves
// three more in `told`: those of the answer, or of a refusal its number, file and place; what is missing is 0. `right` says that these are
// the numbers of an answer that meets the demand.
ghost use Rattle.std.specs.Prelude.{◌≡◌, length, Result, ℕ};
ghost use Rattle.membership.specs.Judged.{judged};
ghost use Rattle.answers.specs.All as all-spec;
ghost use Rattle.membership.specs.Demand2.{Demand2};
ghost use Rattle.membership.specs.Grown.{judged_with, GrowthRight};
ghost use Rattle.emptiness.specs.Surveyed.{answered, surveyed};
ghost use Rattle.emptiness.specs.Checked.{checked};
ghost use Rattle.emptiness.specs.Demand3.{Demand3, Demand3Quick};
ghost use Rattle.determinism.specs.Single.{single_of};
ghost use Rattle.determinism.specs.Singles.{SingleRight};
ghost use Rattle.tally.specs.Tally.{counted_up, percent_of};
ghost use Rattle.tally.specs.Rounding.{PercentRight};
ghost use Rattle.batch.specs.Batch.{tallied_of};
ghost use Rattle.text.specs.Appended.{Appended};
ghost use Rattle.report_text.specs.Report.{report_of};
ghost use Rattle.block_writer.specs.Written.{filled};
ghost use Rattle.witness.specs.Written.{witness_of};
ghost use Rattle.witness.specs.Promise as witness-spec;
ghost use Rattle.canonical.specs.Canonical.{canonical_of};
ghost use Rattle.canonical.specs.Promise as canonical-spec;
ghost use Rattle.markup.specs.Written.{markup_of};
ghost use Rattle.markup.specs.Promise as markup-spec;
ghost use Rattle.watch.specs.Watch.{outcome, watch_of};
ghost use Rattle.watch.specs.Promise as watch-spec;
ghost use Rattle.agreement.specs.Common.{common_part};
ghost use Rattle.logs.specs.Compare.{compared_of, part_of, told_of};
ghost use Rattle.logs.specs.Promise as logs-spec;
ghost use Rattle.refusal.specs.declared.Refusal.{Refusal};
ghost use Rattle.numbering.specs.Numbers.{answer_number, answer_told, growth_numbers, survey_number, survey_told, quick_number, quick_told, single_number, single_told, count_number, count_told, watch_number, watch_told, compared_number, compared_counts, compared_told, outcome_numbered, tally_of, tally_numbers, check_number, check_told, judged_tally};

use determinism::Singleness;
use emptiness::{Quick, Survey};
use logs::Compared;
use membership::{Answer, Judged};
use tally::Tally;
use watch::Watched;

// Whether an automaton's file accepts a tree's file, with the sum of growths.
pub fn engine_judge(
    automaton: &[u8],
    tree: &[u8],
    growth: &mut [usize; 1],
    told: &mut [usize; 3],
) -> u32
    ensures equals { (result ≡ answer_number (judged automaton.now tree.now))
        × (growth.new ≡ growth_numbers (judged_with automaton.now tree.now))
        × (told.new ≡ answer_told (judged automaton.now tree.now)) }
    ensures right { (a : Judged) × (result ≡ answer_number a.answer) × (growth.new ≡ growth_numbers a)
        × (told.new ≡ answer_told a.answer) × Demand2 automaton.now tree.now a.answer
        × GrowthRight automaton.now tree.now a }
{
    numbering::put_judged(crate::judge(automaton, tree), growth, told)
}

// The same answer without the sum.
pub fn engine_accepts(automaton: &[u8], tree: &[u8], told: &mut [usize; 3]) -> u32
    ensures equals { (result ≡ answer_number (judged automaton.now tree.now))
        × (told.new ≡ answer_told (judged automaton.now tree.now)) }
    ensures right { (a : Result Answer Refusal) × (result ≡ answer_number a) × (told.new ≡ answer_told a)
        × Demand2 automaton.now tree.now a }
{
    numbering::put_answer(crate::accepts(automaton, tree), told)
}

// The answers to trees' files end to end, three numbers each, and their sums of growths.
pub fn engine_judge_all(
    automaton: &[u8],
    trees: &[u8],
    answers: &mut [usize],
    growths: &mut [usize],
    told: &mut [usize; 3],
) -> u32
    ensures equals { (result ≡ count_number (all-spec.judged_all automaton.now trees.now answers.old growths.old).judgement)
        × (told.new ≡ count_told (all-spec.judged_all automaton.now trees.now answers.old growths.old).judgement)
        × (answers.new ≡ (all-spec.judged_all automaton.now trees.now answers.old growths.old).numbers)
        × (growths.new ≡ (all-spec.judged_all automaton.now trees.now answers.old growths.old).growths) }
    ensures right { (j : Result ℕ Refusal) × (result ≡ count_number j) × (told.new ≡ count_told j)
        × all-spec.Each automaton.now trees.now (all-spec.outcome j answers.new growths.new) }
{
    numbering::put_count(crate::judge_all(automaton, trees, answers, growths), told)
}

// Looks for a tree that an automaton's file accepts; the plan goes to the front of the buffer.
pub fn engine_survey(file: &[u8], plan: &mut [u8], told: &mut [usize; 3]) -> u32
    ensures equals { (result ≡ survey_number (surveyed file.now plan.old).answer)
        × (told.new ≡ survey_told (surveyed file.now plan.old).answer)
        × (plan.new ≡ (surveyed file.now plan.old).buffer) }
    ensures right { (a : Result Survey Refusal) × (result ≡ survey_number a) × (told.new ≡ survey_told a)
        × Demand3 file.now plan.old (answered a plan.new) }
{
    numbering::put_survey(crate::survey(file, plan), told)
}

// The tree that a plan builds, as a tree's file at the front of the output.
pub fn engine_witness(file: &[u8], plan: &[u8], out: &mut [u8], told: &mut [usize; 3]) -> u32
    ensures equals { (result ≡ count_number (witness_of file.now plan.now out.old).answer)
        × (told.new ≡ count_told (witness_of file.now plan.now out.old).answer)
        × (out.new ≡ (witness_of file.now plan.now out.old).out) }
    ensures right { (a : Result ℕ Refusal) × (result ≡ count_number a) × (told.new ≡ count_told a)
        × witness-spec.Promise file.now plan.now out.old (filled a out.new) }
{
    numbering::put_count(crate::witness(file, plan, out), told)
}

// The quick check of an automaton's file.
pub fn engine_quick(file: &[u8], told: &mut [usize; 3]) -> u32
    ensures equals { (result ≡ quick_number (checked file.now)) × (told.new ≡ quick_told (checked file.now)) }
    ensures right { (a : Result Quick Refusal) × (result ≡ quick_number a) × (told.new ≡ quick_told a) × Demand3Quick file.now a }
{
    numbering::put_quick(crate::quick(file), told)
}

// Whether the automaton of a file is single.
pub fn engine_single(file: &[u8], told: &mut [usize; 3]) -> u32
    ensures equals { (result ≡ single_number (single_of file.now)) × (told.new ≡ single_told (single_of file.now)) }
    ensures right { (a : Result Singleness Refusal) × (result ≡ single_number a) × (told.new ≡ single_told a) × SingleRight file.now a }
{
    numbering::put_single(crate::single(file), told)
}

// An automaton's file in its one form, at the front of the output.
pub fn engine_canonical(file: &[u8], out: &mut [u8], told: &mut [usize; 3]) -> u32
    ensures equals { (result ≡ count_number (canonical_of file.now out.old).answer)
        × (told.new ≡ count_told (canonical_of file.now out.old).answer)
        × (out.new ≡ (canonical_of file.now out.old).out) }
    ensures right { (a : Result ℕ Refusal) × (result ≡ count_number a) × (told.new ≡ count_told a)
        × canonical-spec.Promise file.now out.old (filled a out.new) }
{
    numbering::put_count(crate::canonical(file, out), told)
}

// The tree of an element text, as a tree's file at the front of the output.
pub fn engine_markup(file: &[u8], text: &[u8], out: &mut [u8], told: &mut [usize; 3]) -> u32
    ensures equals { (result ≡ count_number (markup_of file.now text.now out.old).answer)
        × (told.new ≡ count_told (markup_of file.now text.now out.old).answer)
        × (out.new ≡ (markup_of file.now text.now out.old).out) }
    ensures right { (a : Result ℕ Refusal) × (result ≡ count_number a) × (told.new ≡ count_told a)
        × markup-spec.Promise file.now text.now out.old (filled a out.new) }
{
    numbering::put_count(crate::markup(file, text, out), told)
}

// Follows the run of a single automaton with one start state on a tree, and logs it at the front of the buffer.
pub fn engine_watch(
    automaton: &[u8],
    tree: &[u8],
    budget: usize,
    log: &mut [u8],
    told: &mut [usize; 3],
) -> u32
    ensures equals { (result ≡ watch_number (watch_of automaton.now tree.now budget log.old).answer)
        × (told.new ≡ watch_told (watch_of automaton.now tree.now budget log.old).answer)
        × (log.new ≡ (watch_of automaton.now tree.now budget log.old).log) }
    ensures right { (a : Result Watched Refusal) × (result ≡ watch_number a) × (told.new ≡ watch_told a)
        × watch-spec.Promise automaton.now tree.now budget log.old (outcome a log.new) }
{
    numbering::put_watched(crate::watch(automaton, tree, budget, log), told)
}

// Holds two logs of an automaton and a tree together: the length of the part of the first in which they agree, and how many entries from the start
// of each are a run.
pub fn engine_compare(
    automaton: &[u8],
    tree: &[u8],
    first: &[u8],
    second: &[u8],
    counts: &mut [usize; 3],
    told: &mut [usize; 3],
) -> u32
    ensures equals { (result ≡ compared_number (compared_of automaton.now tree.now first.now second.now))
        × (counts.new ≡ compared_counts (compared_of automaton.now tree.now first.now second.now)
        (length (common_part first.now second.now)))
        × (told.new ≡ compared_told (compared_of automaton.now tree.now first.now second.now)) }
    ensures right { (a : Result Compared Refusal) × (result ≡ compared_number a) × (counts.new ≡ compared_counts a (length (part_of a first.now second.now)))
        × (told.new ≡ compared_told a)
        × logs-spec.Promise automaton.now tree.now first.now second.now
        (part_of a first.now second.now) (told_of a) }
{
    let compared = logs::count(automaton, tree, first, second);
    let part = agreement::common(first, second);
    numbering::put_compared(compared, part.len(), counts, told)
}

// One outcome more on a tally of three numbers: accepted, other, refused.
pub fn engine_count(tally: &mut [u32; 3], outcome: u32, told: &mut [usize; 3]) -> u32
    ensures { (result ≡ check_number (counted_up (tally_of tally.old) (outcome_numbered outcome)).check)
        × (told.new ≡ check_told (counted_up (tally_of tally.old) (outcome_numbered outcome)).check)
        × (tally.new ≡ tally_numbers (counted_up (tally_of tally.old) (outcome_numbered outcome)).tally) }
{
    let before = Tally {
        accepted: tally[0],
        other: tally[1],
        refused: tally[2],
    };
    let counted = tally::count_held(before, numbering::outcome_of(outcome));
    let after = counted.tally;
    let check = counted.check;
    numbering::put_tally(after, tally);
    numbering::put_check(check, told)
}

// The percent of accepted trees among those judged.
pub fn engine_percent(accepted: u32, other: u32) -> u32
    ensures equals { result ≡ percent_of (judged_tally accepted other) }
    ensures right { PercentRight (judged_tally accepted other) result }
{
    crate::percent(Tally {
        accepted,
        other,
        refused: 0,
    })
}

// The tally of trees' files end to end, onto a tally of three numbers.
pub fn engine_tally(
    automaton: &[u8],
    trees: &[u8],
    tally: &mut [u32; 3],
    told: &mut [usize; 3],
) -> u32
    ensures { (result ≡ check_number (tallied_of automaton.now trees.now (tally_of tally.old)).check)
        × (told.new ≡ check_told (tallied_of automaton.now trees.now (tally_of tally.old)).check)
        × (tally.new ≡ tally_numbers (tallied_of automaton.now trees.now (tally_of tally.old)).tally) }
{
    let before = Tally {
        accepted: tally[0],
        other: tally[1],
        refused: tally[2],
    };
    let tallied = crate::tally(automaton, trees, before);
    let total = tallied.tally;
    let check = tallied.check;
    numbering::put_tally(total, tally);
    numbering::put_check(check, told)
}

// The report on an automaton's file and trees' files end to end; its length.
pub fn engine_report(automaton: &[u8], trees: &[u8], text: &mut [u8; 357]) -> usize
    ensures { Appended text.old 0 (report_of automaton.now trees.now) text.new result }
{
    crate::report(automaton, trees, text)
}
