// The engine's public functions, over the bytes of files; none asks anything of its caller. `numbers` has the same for Rust and C.
#![tactic(auto)]

pub mod numbers;

ghost use Rattle.std.specs.Prelude.{◌≡◌};
ghost use Rattle.membership.specs.Judged.{judged};
ghost use Rattle.membership.specs.Demand2.{Demand2};
ghost use Rattle.membership.specs.Grown.{judged_with, GrowthRight};
ghost use Rattle.answers.specs.All as all-spec;
ghost use Rattle.emptiness.specs.Surveyed.{answered, surveyed};
ghost use Rattle.emptiness.specs.Checked.{checked};
ghost use Rattle.emptiness.specs.Demand3.{Demand3, Demand3Quick};
ghost use Rattle.determinism.specs.Single.{single_of};
ghost use Rattle.determinism.specs.Singles.{SingleRight};
ghost use Rattle.tally.specs.Tally.{counted_up, percent_of};
ghost use Rattle.tally.specs.Rounding.{PercentRight};
ghost use Rattle.batch.specs.Batch.{tallied_of};
ghost use Rattle.text.specs.Appended.{Appended};
ghost use Rattle.report_text.specs.Report.{report_of};
ghost use Rattle.block_writer.specs.Written.{filled};
ghost use Rattle.witness.specs.Written.{witness_of};
ghost use Rattle.witness.specs.Promise as witness-spec;
ghost use Rattle.canonical.specs.Canonical.{canonical_of};
ghost use Rattle.canonical.specs.Promise as canonical-spec;
ghost use Rattle.markup.specs.Written.{markup_of};
ghost use Rattle.markup.specs.Promise as markup-spec;
ghost use Rattle.watch.specs.Watch.{outcome, watch_of};
ghost use Rattle.watch.specs.Promise as watch-spec;
ghost use Rattle.logs.specs.Compare.{compared_of, part_of, told_of};
ghost use Rattle.logs.specs.Promise as logs-spec;

use determinism::Singleness;
use membership::{Answer, Judged};
use refusal::Refusal;
use tally::{Outcome, Tallied, Tally};
use watch::Watched;

// Whether an automaton's file accepts a tree's file, with the sum of the growths of closing over the tree's nodes.
pub fn judge(automaton: &[u8], tree: &[u8]) -> Judged
    ensures equals { result ≡ judged_with automaton.now tree.now }
    ensures right { Demand2 automaton.now tree.now result.answer }
    ensures grown { GrowthRight automaton.now tree.now result }
{
    judging::judge(automaton, tree)
}

// The same answer without the sum, which takes less time.
pub fn accepts(automaton: &[u8], tree: &[u8]) -> Result<Answer, Refusal>
    ensures equals { result ≡ judged automaton.now tree.now }
    ensures right { Demand2 automaton.now tree.now result }
{
    judging::accepts(automaton, tree)
}

// Judges trees' files, end to end, by an automaton's file: an answer of three numbers for each (0 accepted, 1 other, 2 refused; a refusal's number;
// its place), as many as there is room for; and the sum of growths of each, as far as there is room for these.
pub fn judge_all(
    automaton: &[u8],
    trees: &[u8],
    numbers: &mut [usize],
    growths: &mut [usize],
) -> Result<usize, Refusal>
    ensures equals { all-spec.outcome result numbers.new growths.new
        ≡ all-spec.judged_all automaton.now trees.now numbers.old growths.old }
    ensures right { all-spec.Each automaton.now trees.now (all-spec.outcome result numbers.new growths.new) }
{
    answers::judge_all(automaton, trees, numbers, growths)
}

// Looks for a tree that an automaton's file accepts: where one is found, a plan that builds it goes to the front of the buffer.
pub fn survey(file: &[u8], plan: &mut [u8]) -> Result<emptiness::Survey, Refusal>
    ensures equals { answered result plan.new ≡ surveyed file.now plan.old }
    ensures right { Demand3 file.now plan.old (answered result plan.new) }
{
    emptiness::file::survey(file, plan)
}

// The tree that a plan builds, as a tree's file at the front of the output: the plan that a survey of the automaton's file found, or any other.
pub fn witness(file: &[u8], plan: &[u8], out: &mut [u8]) -> Result<usize, Refusal>
    ensures equals { filled result out.new ≡ witness_of file.now plan.now out.old }
    ensures right { witness-spec.Promise file.now plan.now out.old (filled result out.new) }
{
    witness::file::write(file, plan, out)
}

// The quick check of an automaton's file.
pub fn quick(file: &[u8]) -> Result<emptiness::Quick, Refusal>
    ensures equals { result ≡ checked file.now }
    ensures right { Demand3Quick file.now result }
{
    emptiness::file::quick(file)
}

// Whether the automaton of a file is single: its rules, equal ones taken once, are one at the most for each symbol, state and place.
pub fn single(file: &[u8]) -> Result<Singleness, Refusal>
    ensures equals { result ≡ single_of file.now }
    ensures right { SingleRight file.now result }
{
    determinism::single_file(file)
}

// An automaton's file in its one form, at the front of the output: place 3 spread, repeats dropped, the rules in rising order of their five bytes.
pub fn canonical(file: &[u8], out: &mut [u8]) -> Result<usize, Refusal>
    ensures equals { filled result out.new ≡ canonical_of file.now out.old }
    ensures right { canonical-spec.Promise file.now out.old (filled result out.new) }
{
    canonical::write(file, out)
}

// The tree of an element text, as a tree's file at the front of the output: the text's tags are branch symbols of the automaton's file.
pub fn markup(file: &[u8], text: &[u8], out: &mut [u8]) -> Result<usize, Refusal>
    ensures equals { filled result out.new ≡ markup_of file.now text.now out.old }
    ensures right { markup-spec.Promise file.now text.now out.old (filled result out.new) }
{
    markup::write(file, text, out)
}

// Follows the run of an automaton's file on a tree's file, for at most so many steps; an entry of three bytes for each configuration goes to the
// front of the log. The automaton is single and has one start state.
pub fn watch(
    automaton: &[u8],
    tree: &[u8],
    budget: usize,
    log: &mut [u8],
) -> Result<Watched, Refusal>
    ensures equals { outcome result log.new ≡ watch_of automaton.now tree.now budget log.old }
    ensures right { watch-spec.Promise automaton.now tree.now budget log.old (outcome result log.new) }
{
    watch::watch(automaton, tree, budget, log)
}

// Holds two logs of an automaton's file and a tree's file together: the part in which they agree, as that part of the first log itself; told are a
// refusal's number, file and place, and how many entries from the start of each log are a run.
pub fn compare<'a, 'b>(
    automaton: &[u8],
    tree: &[u8],
    first: &'a [u8],
    second: &'b [u8],
    told: &mut [usize; 5],
) -> &'a [u8]
    ensures itself { result.ref_ptr ≡ first.entry.ref_ptr }
    ensures equals { (result.now ≡ part_of (compared_of automaton.now tree.now first.now second.now)
        first.now second.now)
        × (told.new ≡ told_of (compared_of automaton.now tree.now first.now second.now)) }
    ensures right { logs-spec.Promise automaton.now tree.now first.now second.now result.now
        told.new }
{
    logs::compare(automaton, tree, first, second, told)
}

// The lent tally counts one outcome more; or, where it is full, stays as it was, and refusal 14 is the answer.
pub fn count(tally: &mut Tally, outcome: Outcome) -> Result<(), Refusal>
    ensures { (tally.new ≡ (counted_up tally.old outcome).tally)
        × (result ≡ (counted_up tally.old outcome).check) }
{
    tally::count(tally, outcome)
}

// The percent of accepted trees among those judged, to the nearest, a half to the even number; 0 where none was judged.
pub fn percent(tally: Tally) -> u32
    ensures equals { result ≡ percent_of tally }
    ensures right { PercentRight tally result }
{
    tally::percent(tally)
}

// The tally of trees' files end to end, by an automaton's file, onto a tally. Where the automaton's file is refused the tally is as it was.
pub fn tally(automaton: &[u8], trees: &[u8], before: Tally) -> Tallied
    ensures { result ≡ tallied_of automaton.now trees.now before }
{
    batch::file::tally(automaton, trees, before)
}

// The report on an automaton's file and on trees' files end to end, at the front of the buffer; its length. Later bytes stay.
pub fn report(automaton: &[u8], trees: &[u8], text: &mut [u8; 357]) -> usize
    ensures { Appended text.old 0 (report_of automaton.now trees.now) text.new result }
{
    report_text::report_bytes(automaton, trees, text)
}
