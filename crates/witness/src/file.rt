// The tree that a plan builds as a tree's file: refusals 15, 16 and 13, and the bytes.
ghost use Rattle.std.specs.Prelude.{◌≡◌, ◌++◌, ◌≤◌, length, drop};
ghost use Rattle.model.specs.Trees.{size};
ghost use Rattle.witness.specs.Plan.{plan_tree};
ghost use Rattle.witness.specs.Sound.{Sound};
ghost use Rattle.block_writer.specs.Written.{filled};
ghost use Rattle.witness.specs.Written.{plan_file, space_check, witness_for, witness_of};
ghost use Rattle.witness.specs.Promise.{Promise};

use crate::plan::{plan_check, plan_size, write_nodes};
use automaton::file::read;
use block_writer::room_check;
use model::Signature;
use refusal::{Fault, Refusal, refused};
use tree_writer::write_tree;

// Refusal 16, then 13.
#[tactic(auto, using(crate::proofs::Space::space_large))]
fn space_check(plan: &[u8], room: usize) -> Result<(), Refusal>
    requires { Sound plan.now }
    ensures { result ≡ space_check plan.now room }
{
    let nodes = plan_size(plan);
    if 4096 < nodes {
        return refused(Fault::Large, 2, 0);
    }
    room_check(4 + nodes, room)
}

// Writes the file of the tree to the front of `out`, and returns its length.
fn put_tree(plan: &[u8], out: &mut [u8]) -> usize
    requires { Sound plan.now × (size (plan_tree plan.now) ≤ 4096) × (length (plan_file plan.now) ≤ length out.old) }
    ensures { (result ≡ length (plan_file plan.now)) × (out.new ≡ plan_file plan.now ++ drop result out.old) }
{
    let mut nodes = [0u8; 4096];
    let k = write_nodes(plan, &mut nodes);
    write_tree(&nodes[..k], out)
}

// The same after the checks.
fn write_checked(signature: Signature, plan: &[u8], out: &mut [u8]) -> Result<usize, Refusal>
    ensures { filled result out.new ≡ witness_for signature plan.now out.old }
{
    plan_check(signature, plan)?;
    space_check(plan, out.len())?;
    Ok(put_tree(plan, out))
}

// The tree of a plan's last row as a tree's file, at the front of `out`: the plan is one for the symbols of an automaton's file.
pub fn write(file: &[u8], plan: &[u8], out: &mut [u8]) -> Result<usize, Refusal>
    ensures equals { filled result out.new ≡ witness_of file.now plan.now out.old }
    ensures right { Promise file.now plan.now out.old (filled result out.new) }
{
    let mut contents = [0u8; 3048];
    let header = read(file, &mut contents)?;
    let signature = Signature::from(header);
    write_checked(signature, plan, out)
}
