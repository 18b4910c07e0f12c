// The answers to many trees' files, end to end, by an automaton's file: three numbers each, in a lent slice, and in another the sums of growths.
#![tactic(auto)]

ghost use Rattle.std.specs.Prelude.{◌≡◌, length};
ghost use Rattle.algorithms.specs.Automaton.{Automaton};
ghost use Rattle.automaton.specs.File.{WithinLimits};
ghost use Rattle.overloops.specs.Ready.{Headed};
ghost use Rattle.batch.specs.Answers.{growths_after};
ghost use Rattle.answers.specs.All.{answered, numbers_after, outcome, judged_all, Each};

use automaton::Header;
use batch::back;
use batch::part::{judge_one, weigh_part};
use class_tables::Cache;
use refusal::Refusal;
use transitions::TransitionTable;

// Judges files, by an automaton that was read, as many as there is room for their answers: how many. The cache begins with no class.
fn judge_files(
    header: Header,
    table: &TransitionTable,
    bytes: &[u8],
    answers: &mut [usize],
    growths: &mut [usize],
) -> usize
    requires { WithinLimits header }
    ensures { (A : Automaton) → Headed A header table.now
        → (result ≡ length (answered A bytes.now answers.old))
        × (answers.new ≡ numbers_after (answered A bytes.now answers.old) answers.old)
        × (growths.new ≡ growths_after A result bytes.now growths.old) }
{
    let mut cache = Cache::fresh();
    let part = weigh_part(header, table, bytes, answers, growths, &mut cache);
    let files = part.files;
    if !part.more {
        return files;
    }
    let rest = back(bytes, part.bytes);
    if rest.len() == 0 {
        return files;
    }
    let at = 3 * files;
    if answers.len() - at < 3 {
        return files;
    }
    judge_one(header, table, rest, answers, at, growths, files, &mut cache);
    files + 1
}

// Judges trees' files, end to end, by an automaton's file: an answer of three numbers for each, as many as there is room for, and the sum of growths of
// each, as far as there is room for these. Where the automaton's file is refused both slices are as they were.
pub fn judge_all(
    automaton: &[u8],
    trees: &[u8],
    answers: &mut [usize],
    growths: &mut [usize],
) -> Result<usize, Refusal>
    ensures equals { outcome result answers.new growths.new
        ≡ judged_all automaton.now trees.now answers.old growths.old }
    ensures right { Each automaton.now trees.now (outcome result answers.new growths.new) }
{
    let mut table = [0u32; 9216];
    let header = transitions::load(automaton, &mut table)?;
    Ok(judge_files(header, &table, trees, answers, growths))
}
