// The batch over the bytes of files.
ghost use Rattle.std.specs.Prelude.{◌≡◌};
ghost use Rattle.batch.specs.Batch.{tallied_of};

use crate::tally_all;
use tally::{Tallied, Tally};

// The tally of trees' files end to end, by an automaton's file, onto a tally. Where the automaton's file is refused the tally is as it was.
pub fn tally(automaton: &[u8], trees: &[u8], before: Tally) -> Tallied
    ensures { result ≡ tallied_of automaton.now trees.now before }
{
    let mut table = [0u32; 9216];
    match transitions::load(automaton, &mut table) {
        Err(refusal) => Tallied {
            tally: before,
            check: Err(refusal),
        },
        Ok(header) => {
            let tally = tally_all(before, header, &table, trees);
            Tallied {
                tally,
                check: Ok(()),
            }
        }
    }
}
