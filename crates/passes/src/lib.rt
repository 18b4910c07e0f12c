// What passes over a node list from its end have in common: a stack of words, one for each tree that the rest of the list writes, with the tree's
// height in it for line 12; and what a pass tells of the tree.
#![tactic(auto)]

ghost use Rattle.std.specs.Prelude.{◌≡◌, List, ◌∷◌, ℕ, ◌+◌, ◌<◌, ◌≤◌, max};
ghost use Rattle.model.specs.Trees.{Tree};
ghost use Rattle.model.specs.declared.Signature.{Signature};
ghost use Rattle.algorithms.specs.Automaton.{Automaton};
ghost use Rattle.algorithms.specs.Overloops.{accepts?};
ghost use Rattle.nodes.specs.Preorder.{Writes};
ghost use Rattle.passes.specs.Told.{height_of, low_of};
ghost use Rattle.passes.specs.Held.{Held};
ghost use Rattle.passes.specs.Verdicts.{Tells};

// The height of a branch over the trees of two words of the stack.
pub fn height_over(left: u64, right: u64) -> u64
    ensures { result ≡ max (height_of left) (height_of right) + 1 }
{
    let higher = if left < right { right } else { left };
    higher / 4294967296 + 1
}

// A word of the stack.
pub fn packed(height: u64, low: u32) -> u64
    requires { height ≤ 64 }
    ensures { (height_of result ≡ height) × (low_of result ≡ low) }
{
    height * 4294967296 + low as u64
}

// A stack of words in a lent table that fills from its end: where its top is, and copies of the two words on top. (A tree at most 64 high has at
// most 65 parts that wait.)
#[derive(Clone, Copy)]
pub struct Stack {
    pub top: usize,
    pub first: u64,
    pub second: u64,
}

// One word more.
pub fn push(table: &mut [u64; 128], stack: Stack, word: u64) -> Stack
    requires { (0 < stack.top) × (stack.top ≤ 128) }
    ensures { (result.top + 1 ≡ stack.top) × ((ws : List ℕ) → Held table.old stack ws → Held table.new result (word ∷ ws)) }
{
    let top = stack.top - 1;
    table[top] = word;
    Stack {
        top,
        first: word,
        second: stack.first,
    }
}

// A word in place of the two on top.
pub fn merge(table: &mut [u64; 128], stack: Stack, word: u64) -> Stack
    requires { stack.top + 1 < 128 }
    ensures { (result.top ≡ stack.top + 1)
        × ((x y : ℕ) (ws : List ℕ) → Held table.old stack (x ∷ y ∷ ws) → Held table.new result (word ∷ ws)) }
{
    let top = stack.top + 1;
    let second = table[(top + 1) % 128];
    table[top] = word;
    Stack {
        top,
        first: word,
        second,
    }
}

// Whether a tree is accepted; or that it is not known.
#[derive(Clone, Copy)]
pub enum Verdict {
    Accepted,
    Other,
    Unknown,
}

pub fn verdict_of(accepted: bool) -> Verdict
    ensures { (A : Automaton) (sg : Signature) (s : List ℕ) (t : Tree) → Writes sg s t → accepted ≡ accepts? A t → Tells A sg s result }
{
    if accepted {
        Verdict::Accepted
    } else {
        Verdict::Other
    }
}
