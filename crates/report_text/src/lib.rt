// The report on an automaton's file and trees' files, in a lent buffer.
#![tactic(auto)]

ghost use Rattle.std.specs.Prelude.{List, ℕ, ◌≤◌, length};
ghost use Rattle.automaton.specs.File.{WithinLimits};
ghost use Rattle.transitions.specs.Transitions.{automaton_of};
ghost use Rattle.classes.specs.Prepared.{ReadyFor};
ghost use Rattle.text.specs.Appended.{Appended};
ghost use Rattle.report_text.specs.Report.{head_of, report_of};

use classes::Prepared;
use tally::Tally;

// The three lines before the batch, on an automaton that is ready, from the start of the buffer.
pub fn put_read(out: &mut [u8], prepared: Prepared) -> usize
    requires { (232 ≤ length out.old) × WithinLimits prepared.header }
    ensures { ((p : List ℕ) → ReadyFor (automaton_of prepared.entry.header p) prepared.entry
        → Appended out.old 0 (head_of prepared.entry.header p) out.new result) × (result ≤ 232) }
{
    let single = determinism::single_prepared(prepared.header, prepared.table);
    let quick = emptiness::file::quick_prepared(prepared);
    let mut plan = [0u8; 195];
    let survey = emptiness::file::survey_prepared(prepared, &mut plan);
    wording::put_head(out, prepared.header, Ok(single), Ok(quick), survey)
}

// The report on an automaton's file and on trees' files, end to end, at the front of the buffer; its length.
pub fn report_bytes(automaton: &[u8], trees: &[u8], out: &mut [u8; 357]) -> usize
    ensures { Appended out.old 0 (report_of automaton.now trees.now) out.new result }
{
    let mut table = [0u32; 9216];
    let mut leaves = [0u32; 1536];
    match overloops::prepare(automaton, &mut table, &mut leaves) {
        Err(refusal) => wording::put_refused(out, 0, refusal),
        Ok(header) => {
            let none = Tally {
                accepted: 0,
                other: 0,
                refused: 0,
            };
            let tally = batch::tally_all(none, header, &table, trees);
            let prepared = Prepared {
                header,
                table: &table,
                leaves: &leaves,
            };
            let end = put_read(out, prepared);
            wording::put_tally(out, end, tally)
        }
    }
}
