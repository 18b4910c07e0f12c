// The links of a node list in one pass from its end: the parent and the right part of each node. Lines 10 to 12 hold of every list that is linked.
#![tactic(auto)]

ghost use Rattle.std.specs.Prelude.{◌≡◌, true, false, List, ◌∷◌, ℕ, ◌+◌, ◌<◌, ◌≤◌, length};
ghost use Rattle.relation.specs.Sets.{member};
ghost use Rattle.model.specs.Trees.{Tree};
ghost use Rattle.nodes.specs.Preorder.{Writes};
ghost use Rattle.links.specs.Tables.{Tables};
ghost use Rattle.passes.specs.Told.{low_of};
ghost use Rattle.linking.specs.Placed.{Loaded, Stepped};

use algorithms::is_branch;
use model::{Signature, Symbol};
use nodes::reader::read_at;
use passes::{Stack, height_over, merge, packed, push};

// The node that a word of the stack names.
fn node_of(word: u64) -> usize
    ensures { result ≡ low_of word }
{
    (word % 4294967296) as usize
}

// A leaf: the stack after it; none where the pass is off.
fn leaf_step(at: usize, stack: Stack, words: &mut [u64; 128], rights: &mut [u16]) -> Option<Stack>
    requires { (at < 4096) × (at < length rights.old) }
    ensures { (sg : Signature) (n σ : ℕ) (parents s : List ℕ) → σ < sg.symbols → member sg.branches σ ≡ false → at + 1 + length s ≡ n
        → Loaded sg n parents rights.old words.old s stack
        → Stepped sg n parents rights.new words.new (σ ∷ s) result }
{
    if stack.top == 0 {
        return None;
    }
    if 128 < stack.top {
        return None;
    }
    rights[at] = 0;
    Some(push(words, stack, packed(0, at as u32)))
}

// A branch over the two trees on top: it is the parent of both.
fn branch_step(
    at: usize,
    stack: Stack,
    words: &mut [u64; 128],
    parents: &mut [u16],
    rights: &mut [u16],
) -> Option<Stack>
    requires { (at < 4096) × (at < length rights.old) }
    ensures { (sg : Signature) (n σ : ℕ) (s : List ℕ) → σ < sg.symbols → member sg.branches σ ≡ true → at + 1 + length s ≡ n
        → Loaded sg n parents.old rights.old words.old s stack
        → Stepped sg n parents.new rights.new words.new (σ ∷ s) result }
{
    if 126 < stack.top {
        return None;
    }
    let height = height_over(stack.first, stack.second);
    if 64 < height {
        return None;
    }
    let right = node_of(stack.second);
    if 4095 < right {
        return None;
    }
    if parents.len() <= right {
        return None;
    }
    if right <= at + 1 {
        return None;
    }
    parents[at + 1] = at as u16;
    parents[right] = at as u16;
    rights[at] = right as u16;
    Some(merge(words, stack, packed(height, at as u32)))
}

// A node: off where its symbol is none of the signature's.
fn node_step(
    signature: Signature,
    symbol: Symbol,
    at: usize,
    stack: Stack,
    words: &mut [u64; 128],
    parents: &mut [u16],
    rights: &mut [u16],
) -> Option<Stack>
    requires { (at < 4096) × (at < length rights.old) }
    ensures { (n : ℕ) (s : List ℕ) → at + 1 + length s ≡ n
        → Loaded signature n parents.old rights.old words.old s stack
        → Stepped signature n parents.new rights.new words.new (symbol.0 ∷ s) result }
{
    if signature.symbols <= symbol.0 {
        return None;
    }
    if is_branch(signature.branches, symbol) {
        branch_step(at, stack, words, parents, rights)
    } else {
        leaf_step(at, stack, words, rights)
    }
}

// Writes the links of the tree that a node list writes to the front of two tables, the list read from its end, each node by a reader. False where
// the list is not known to write a tree of the signature at most 64 high.
pub fn link_tree(
    symbols: &[u8],
    signature: Signature,
    parents: &mut [u16],
    rights: &mut [u16],
) -> bool
    requires { (0 < length symbols.now) × (length symbols.now ≤ 4096) × (length symbols.now ≤ length parents.old)
        × (length symbols.now ≤ length rights.old) }
    ensures { result ≡ true → (t : Tree) × Writes signature symbols.now t × Tables t symbols.now parents.new rights.new }
{
    let mut words = [0u64; 128];
    let mut stack = Stack {
        top: 128,
        first: 0,
        second: 0,
    };
    for at in (0..symbols.len()).rev() {
        let Some(symbol) = read_at(symbols, at) else {
            return false;
        };
        match node_step(signature, symbol, at, stack, &mut words, parents, rights) {
            Some(next) => stack = next,
            None => return false,
        }
    }
    parents[0] = 0;
    stack.top == 127
}
