// The steps of the pass: a leaf more, or a branch over the two trees on top of the stack.
ghost use Rattle.std.specs.Prelude.{◌≡◌, true, false, List, ◌∷◌, ℕ, ◌+◌, ◌<◌, ◌≤◌};
ghost use Rattle.relation.specs.Sets.{member};
ghost use Rattle.algorithms.specs.Automaton.{Automaton};
ghost use Rattle.model.specs.declared.Signature.{Signature};
ghost use Rattle.automaton.specs.File.{signature_in};
ghost use Rattle.overloops.specs.Tables.{Tabled};
ghost use Rattle.class_tables.specs.Classes.{id_of};
ghost use Rattle.class_tables.specs.Cache.{Right, classes, Cached, AfterCall};
ghost use Rattle.bottom_up.specs.Steps.{Leafed, Loaded, Stepped, StepFew};

use algorithms::is_branch;
use automaton::Header;
use class_tables::{Cache, growth_of};
use determinization::{leaf_word, node_word};
use model::Symbol;
use passes::{Stack, height_over, merge, packed, push};
use transitions::TransitionTable;

// The class that a word of the stack names.
pub fn id(word: u64) -> u32
    ensures { (result ≡ id_of word) × (result < 1024) }
{
    (word % 1024) as u32
}

// The words of the leaves that this pass met, by symbol; 0 for one that it did not.
pub type LeafWords = [u32; 32];

// The word of a leaf: the one that was met, or from the cache.
fn leaf_met(
    table: &TransitionTable,
    states: usize,
    symbol: Symbol,
    leaves: &mut LeafWords,
    cache: &mut Cache,
) -> u32
    requires { (states ≤ 24) × (symbol.0 < 32) }
    ensures { (A : Automaton) → Tabled A states table.now → Cached A cache.old → Leafed A (classes cache.old.counts) cache.old.store leaves.old
        → AfterCall A cache.old cache.new
        × Leafed A (classes cache.new.counts) cache.new.store leaves.new
        × Right A (classes cache.new.counts) cache.new.store symbol.0 0 0 result }
{
    let at = symbol.0 as usize;
    let met = leaves[at];
    if met != 0 {
        return met;
    }
    let word = leaf_word(table, states, symbol, cache);
    leaves[at] = word;
    word
}

// A leaf. It adds nothing: its growth depends on its side, and is added with its parent.
fn leaf_step(
    table: &TransitionTable,
    states: usize,
    symbol: Symbol,
    stack: Stack,
    growth: u32,
    words: &mut [u64; 128],
    leaves: &mut LeafWords,
    cache: &mut Cache,
) -> Option<(Stack, u32)>
    requires { (states ≤ 24) × (symbol.0 < 32) }
    ensures { ((A : Automaton) (sg : Signature) (s : List ℕ) → Tabled A states table.now → symbol.0 < sg.symbols
        → member sg.branches symbol.0 ≡ false
        → Loaded A sg cache.old leaves.old words.old s stack growth
        → Stepped A sg cache.new leaves.new words.new (symbol.0 ∷ s) result)
        × StepFew (growth + 2047) result }
{
    if stack.top == 0 {
        return None;
    }
    if 128 < stack.top {
        return None;
    }
    let word = leaf_met(table, states, symbol, leaves, cache);
    if word == 0 {
        return None;
    }
    Some((push(words, stack, packed(0, word)), growth))
}

// A branch over the two trees on top: it adds the growths at their roots.
fn branch_step(
    table: &TransitionTable,
    states: usize,
    symbol: Symbol,
    stack: Stack,
    growth: u32,
    words: &mut [u64; 128],
    cache: &mut Cache,
) -> Option<(Stack, u32)>
    requires { (states ≤ 24) × (symbol.0 < 32) × (growth ≤ 8388608) }
    ensures { ((A : Automaton) (sg : Signature) (leaves s : List ℕ) → Tabled A states table.now → symbol.0 < sg.symbols
        → member sg.branches symbol.0 ≡ true
        → Loaded A sg cache.old leaves words.old s stack growth
        → Stepped A sg cache.new leaves words.new (symbol.0 ∷ s) result)
        × StepFew (growth + 2047) result }
{
    if 126 < stack.top {
        return None;
    }
    let first = stack.first;
    let second = stack.second;
    let height = height_over(first, second);
    if 64 < height {
        return None;
    }
    let sum = growth + growth_of(first, second);
    let word = node_word(table, states, symbol, id(first), id(second), cache);
    if word == 0 {
        return None;
    }
    Some((merge(words, stack, packed(height, word)), sum))
}

// A node: off where its symbol is none of the signature's.
pub fn node_step(
    header: Header,
    table: &TransitionTable,
    symbol: Symbol,
    stack: Stack,
    growth: u32,
    words: &mut [u64; 128],
    leaves: &mut LeafWords,
    cache: &mut Cache,
) -> Option<(Stack, u32)>
    requires { (header.states ≤ 24) × (header.symbols ≤ 32) × (growth ≤ 8388608) }
    ensures { ((A : Automaton) (s : List ℕ) → Tabled A header.states table.now
        → Loaded A (signature_in header) cache.old leaves.old words.old s stack growth
        → Stepped A (signature_in header) cache.new leaves.new words.new (symbol.0 ∷ s) result)
        × StepFew (growth + 2047) result }
{
    if header.symbols <= symbol.0 {
        return None;
    }
    let states = header.states as usize;
    if is_branch(header.branches, symbol) {
        branch_step(table, states, symbol, stack, growth, words, cache)
    } else {
        leaf_step(table, states, symbol, stack, growth, words, leaves, cache)
    }
}
