// Judging trees' files by an automaton that was read, with the sum of growths or without. Without: one by a search over configurations, many by a
// cache of the classes of their subtrees, and by the search where that does not pay. Either goes over the nodes of a file that lines 1 to 6 pass, and
// finds out itself whether they write a tree. With the sum: one by the overloops of all its parts, many by the cache, which has the growths too.
#![tactic(auto)]

pub mod credit;

ghost use Rattle.std.specs.Prelude.{◌≡◌, Bool, true, ◌<◌, ◌≤◌, length};
ghost use Rattle.algorithms.specs.Automaton.{Automaton};
ghost use Rattle.automaton.specs.File.{WithinLimits, signature_in};
ghost use Rattle.overloops.specs.Ready.{Headed};
ghost use Rattle.membership.specs.Judged.{judged_by, judged};
ghost use Rattle.membership.specs.Demand2.{Demand2};
ghost use Rattle.membership.specs.Grown.{growth_by, judged_with, GrowthRight};
ghost use Rattle.class_tables.specs.Cache.{Cached};
ghost use Rattle.judging.specs.Verdicts.{Judges, ToldOf, JudgedOf};

use crate::credit::{begin, blocks_of, end, gain, renew, worth};
use automaton::Header;
use bottom_up::Weighed;
use class_tables::Cache;
use membership::{Answer, Judged};
use passes::Verdict;
use refusal::Refusal;
use transitions::TransitionTable;

// Judges a tree's file by a search over the configurations of the automaton on it: not known where the file is refused.
fn by_search(header: Header, table: &TransitionTable, file: &[u8]) -> Verdict
    requires { WithinLimits header }
    ensures { (A : Automaton) → Headed A header table.now → Judges A file.now result }
{
    let mut buffer = [0u8; 4572];
    let Some(k) = tree::file::unpack(file, &mut buffer) else {
        return Verdict::Unknown;
    };
    let last = 4 + k;
    reachability::judge_nodes(&buffer[4..last], header, table)
}

// The answer of a verdict; where it is not known, of the function that tells every refusal.
fn answer_of(
    verdict: Verdict,
    header: Header,
    table: &TransitionTable,
    file: &[u8],
) -> Result<Answer, Refusal>
    requires { WithinLimits header }
    ensures { (A : Automaton) → Headed A header table.now → Judges A file.now verdict → result ≡ judged_by A file.now }
{
    match verdict {
        Verdict::Accepted => Ok(Answer::Accepted),
        Verdict::Other => Ok(Answer::Other),
        Verdict::Unknown => {
            let judged = membership::judge_file(header, table, file);
            judged.answer
        }
    }
}

// Judges a tree's file by the search, without the sum.
pub fn accepts_file(header: Header, table: &TransitionTable, file: &[u8]) -> Result<Answer, Refusal>
    requires { WithinLimits header }
    ensures { (A : Automaton) → Headed A header table.now → result ≡ judged_by A file.now }
{
    answer_of(by_search(header, table, file), header, table, file)
}

// Judges a tree's file by an automaton's file, without the sum.
pub fn accepts(automaton: &[u8], tree: &[u8]) -> Result<Answer, Refusal>
    ensures equals { result ≡ judged automaton.now tree.now }
    ensures right { Demand2 automaton.now tree.now result }
{
    let mut table = [0u32; 9216];
    let header = transitions::load(automaton, &mut table)?;
    accepts_file(header, &table, tree)
}

// Judges a tree's file by an automaton's file: the answer with the sum of growths.
pub fn judge(automaton: &[u8], tree: &[u8]) -> Judged
    ensures equals { result ≡ judged_with automaton.now tree.now }
    ensures right { Demand2 automaton.now tree.now result.answer }
    ensures grown { GrowthRight automaton.now tree.now result }
{
    let mut table = [0u32; 9216];
    match transitions::load(automaton, &mut table) {
        Err(refusal) => {
            Judged {
                answer: Err(refusal),
                growth: 0,
            }
        }
        Ok(header) => membership::judge_file(header, &table, tree),
    }
}

// Where the cache does not tell: the search tells the verdict, and nothing tells the sum.
fn without_cache(symbols: &[u8], header: Header, table: &TransitionTable, sums: bool) -> Weighed
    requires { (0 < length symbols.now) × (length symbols.now ≤ 4096) × WithinLimits header }
    ensures { (A : Automaton) → Headed A header table.now → ToldOf A (signature_in header) symbols.now sums result }
{
    if sums {
        return Weighed {
            verdict: Verdict::Unknown,
            growth: 0,
        };
    }
    Weighed {
        verdict: reachability::judge_nodes(symbols, header, table),
        growth: 0,
    }
}

// Whether the tree of a node list is accepted, by a cache, and, where that does not tell or the cache rests, by the search; with the sum, or without.
fn judge_nodes(
    symbols: &[u8],
    header: Header,
    table: &TransitionTable,
    sums: bool,
    cache: &mut Cache,
) -> Weighed
    requires { (0 < length symbols.now) × (length symbols.now ≤ 4096) × WithinLimits header }
    ensures { (A : Automaton) → Headed A header table.now → Cached A cache.old
        → Cached A cache.new × ToldOf A (signature_in header) symbols.now sums result }
{
    let worth = worth(blocks_of(symbols), sums);
    if !begin(&mut cache.counts, worth) {
        return without_cache(symbols, header, table, sums);
    }
    let weighed = bottom_up::judge_nodes(symbols, header, table, cache);
    let verdict = weighed.verdict;
    match verdict {
        Verdict::Accepted => {
            end(&mut cache.counts, gain(worth));
            Weighed {
                verdict: Verdict::Accepted,
                growth: weighed.growth,
            }
        }
        Verdict::Other => {
            end(&mut cache.counts, gain(worth));
            Weighed {
                verdict: Verdict::Other,
                growth: weighed.growth,
            }
        }
        Verdict::Unknown => {
            end(&mut cache.counts, worth);
            renew(cache);
            without_cache(symbols, header, table, sums)
        }
    }
}

// Judges a tree's file by the cache or the search: not known where the file is refused, or where only the overloops of all parts tell the sum.
fn by_cache(
    header: Header,
    table: &TransitionTable,
    file: &[u8],
    sums: bool,
    cache: &mut Cache,
) -> Weighed
    requires { WithinLimits header }
    ensures { (A : Automaton) → Headed A header table.now → Cached A cache.old
        → Cached A cache.new × JudgedOf A file.now sums result }
{
    let mut buffer = [0u8; 4572];
    let Some(k) = tree::file::unpack(file, &mut buffer) else {
        return Weighed {
            verdict: Verdict::Unknown,
            growth: 0,
        };
    };
    let last = 4 + k;
    judge_nodes(&buffer[4..last], header, table, sums, cache)
}

// The answer of a verdict with its sum; where it is not known, of the function that tells every refusal and every sum.
fn judged_of(weighed: Weighed, header: Header, table: &TransitionTable, file: &[u8]) -> Judged
    requires { WithinLimits header }
    ensures { (A : Automaton) (sums : Bool) → Headed A header table.now → JudgedOf A file.now sums weighed
        → (result.answer ≡ judged_by A file.now) × (sums ≡ true → result.growth ≡ growth_by A file.now) }
{
    let verdict = weighed.verdict;
    match verdict {
        Verdict::Accepted => {
            Judged {
                answer: Ok(Answer::Accepted),
                growth: weighed.growth,
            }
        }
        Verdict::Other => {
            Judged {
                answer: Ok(Answer::Other),
                growth: weighed.growth,
            }
        }
        Verdict::Unknown => membership::judge_file(header, table, file),
    }
}

// Judges a tree's file by an automaton that was read and a cache; where sums are asked for, the answer comes with its own.
pub fn judge_with(
    header: Header,
    table: &TransitionTable,
    file: &[u8],
    sums: bool,
    cache: &mut Cache,
) -> Judged
    requires { WithinLimits header }
    ensures { (A : Automaton) → Headed A header table.now → Cached A cache.old
        → Cached A cache.new × (result.answer ≡ judged_by A file.now)
        × (sums ≡ true → result.growth ≡ growth_by A file.now) }
{
    let weighed = by_cache(header, table, file, sums, cache);
    judged_of(weighed, header, table, file)
}
