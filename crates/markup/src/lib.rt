// An element text as a tree's file (document 02, W6): refusals 18, 19, 4, 12 and 13, and the bytes.
#![tactic(auto)]

ghost use Rattle.std.specs.Prelude.{◌≡◌, length, false, Ok, Err};
ghost use Rattle.relation.specs.Sets.{member};
ghost use Rattle.refusal.specs.Checks.{◌and_then◌};
ghost use Rattle.block_writer.specs.Written.{filled};
ghost use Rattle.nodes.specs.Nodes.{nodes_check};
ghost use Rattle.tags.specs.Tags.{nodes_in};
ghost use Rattle.markup.specs.Checks.{text_check, tag_check, tree_check, Signed};
ghost use Rattle.markup.specs.Written.{markup_for, markup_of, refused_by};
ghost use Rattle.markup.specs.Promise.{Promise};

use algorithms::is_branch;
use automaton::file::read;
use block_writer::room_check;
use grammar::{Wrong, read_text};
use model::{Signature, Symbol};
use nodes::check;
use refusal::{Fault, Refusal, refused};
use tags::first_bad_tag;
use tree_writer::write_tree;

// The answer of a check that refuses.
fn refused_by(check: Result<(), Refusal>) -> Result<usize, Refusal>
    ensures { result ≡ refused_by check }
{
    match check {
        Err(refusal) => Err(refusal),
        Ok(()) => Ok(0),
    }
}

// Refusals 19, 4 and 12 of a text of so many nodes, where lines 10 to 12 refuse its nodes so.
#[tactic(auto, using(crate::proofs::Checked::many_told))]
fn refused_tree(
    signature: Signature,
    text: &[u8],
    count: usize,
    refusal: Refusal,
) -> Result<(), Refusal>
    requires signed { Signed signature × (text_check text.now ≡ Ok tt) × (member signature.branches 0 ≡ false) }
    requires count_value { (count ≡ length (nodes_in text.now)) × (nodes_check signature (nodes_in text.now) ≡ Err refusal) }
    ensures { result ≡ tag_check signature text.now and_then tree_check text.now }
{
    if let Some(place) = first_bad_tag(signature.branches, text) {
        return refused(Fault::Tag, 2, place);
    }
    if 4096 < count {
        return refused(Fault::Count, 1, 2);
    }
    Err(refusal)
}

// Refusal 19, then 4, then 12, of a text that follows the grammar, with its nodes. Lines 10 and 11 pass them only if 19 passes the text, so that
// the tags are looked at only where something is wrong.
fn tree_check(signature: Signature, text: &[u8], nodes: &[u8]) -> Result<(), Refusal>
    requires { Signed signature × (text_check text.now ≡ Ok tt) × (nodes.now ≡ nodes_in text.now) }
    ensures { result ≡ tag_check signature text.now and_then tree_check text.now }
{
    if is_branch(signature.branches, Symbol(0)) {
        return refused(Fault::Tag, 2, 0);
    }
    match check(nodes, signature) {
        Err(refusal) => refused_tree(signature, text, nodes.len(), refusal),
        Ok(()) => {
            if 4096 < nodes.len() {
                return refused(Fault::Count, 1, 2);
            }
            Ok(())
        }
    }
}

// The file of a text that follows the grammar, with its nodes, after the checks.
fn write_nodes(
    signature: Signature,
    text: &[u8],
    nodes: &[u8],
    out: &mut [u8],
) -> Result<usize, Refusal>
    requires { Signed signature × (text_check text.now ≡ Ok tt) × (nodes.now ≡ nodes_in text.now) }
    ensures { filled result out.new ≡ markup_for signature text.now out.old }
{
    tree_check(signature, text, nodes)?;
    room_check(4 + nodes.len(), out.len())?;
    Ok(write_tree(nodes, out))
}

// The same of any text.
#[tactic(auto, using(crate::proofs::Checked::long_told))]
fn write_text(signature: Signature, text: &[u8], out: &mut [u8]) -> Result<usize, Refusal>
    requires { Signed signature }
    ensures { filled result out.new ≡ markup_for signature text.now out.old }
{
    if 32768 < text.len() {
        return refused_by(refused(Fault::Text, 2, 32768));
    }
    let mut nodes = [0u8; 10924];
    match read_text(text, &mut nodes) {
        Err(Wrong(place)) => refused_by(refused(Fault::Text, 2, place)),
        Ok(k) => write_nodes(signature, text, &nodes[..k], out),
    }
}

// The tree of an element text as a tree's file, at the front of `out`: its tags are symbols of an automaton's file.
pub fn write(file: &[u8], text: &[u8], out: &mut [u8]) -> Result<usize, Refusal>
    ensures equals { filled result out.new ≡ markup_of file.now text.now out.old }
    ensures right { Promise file.now text.now out.old (filled result out.new) }
{
    let mut contents = [0u8; 3048];
    let header = read(file, &mut contents)?;
    let signature = Signature::from(header);
    write_text(signature, text, out)
}
