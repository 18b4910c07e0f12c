// What new classes a tree may bring. Trees add to a credit, those that are judged by the cache most, and each new class takes from it: where trees
// keep bringing new ones, a cache costs more than it saves, and rests until there is credit again.
ghost use Rattle.std.specs.Prelude.{◌≡◌, List, ℕ, ◌<◌, length};
ghost use Rattle.algorithms.specs.Automaton.{Automaton};
ghost use Rattle.class_tables.specs.Cache.{CachedIn, Kept};

use class_tables::{Cache, Counts};

// How large a node list is, about the blocks of its file, by which its credit goes.
pub fn blocks_of(symbols: &[u8]) -> u32
    ensures { result < 16 }
{
    (symbols.len() / 512 % 15) as u32 + 1
}

// What a tree is worth, by the time that it takes without the cache: a large tree with its sum, which only the closing of every node tells, eight times
// as much as one that a search judges.
pub fn worth(blocks: u32, sums: bool) -> u32
    requires { blocks < 16 }
    ensures { result < 128 }
{
    if !sums {
        return blocks;
    }
    if blocks < 2 {
        return 1;
    }
    8 * blocks
}

// What a tree that the cache judged adds.
pub fn gain(worth: u32) -> u32
    requires { worth < 128 }
    ensures { result < 1024 }
{
    if worth < 2 {
        return 1;
    }
    8 * worth
}

// Whether the cache is asked for the next tree, which may then bring as many classes as there is credit for, four for each. While it rests, a tree
// adds what it is worth.
pub fn begin(counts: &mut Counts, worth: u32) -> bool
    requires { worth < 128 }
    ensures { Kept counts.old counts.new }
{
    let credit = counts[4] % 8192;
    if credit < 256 {
        counts[4] = credit + worth;
        return false;
    }
    counts[3] = counts[0] % 2048 + credit / 4;
    true
}

// What is left of the credit after a tree, with what the tree adds.
fn credit_after(most: u32, classes: u32, gain: u32) -> u32
    requires { gain < 1024 }
{
    if most <= classes {
        return gain;
    }
    let left = most - classes;
    if 1000 < left {
        return 4096;
    }
    4 * left + gain
}

// Takes the classes that a tree brought from the credit.
pub fn end(counts: &mut Counts, gain: u32)
    requires { gain < 1024 }
    ensures { Kept counts.old counts.new }
{
    counts[4] = credit_after(counts[3], counts[0], gain);
}

// Begins anew with a cache that has no room for a class.
pub fn renew(cache: &mut Cache)
    ensures { (cache.new.store ≡ cache.old.store) × (cache.new.hints ≡ cache.old.hints)
        × ((A : Automaton) (store : List ℕ) → CachedIn A cache.old.counts store cache.old.maps cache.old.cells
        → CachedIn A cache.new.counts store cache.new.maps cache.new.cells) }
{
    if cache.counts[0] < 1024 {
        return;
    }
    cache.counts[0] = 1;
    cache.counts[1] = 1;
    cache.counts[2] = 1;
    cache.counts[4] = 1024;
    cache.maps.fill(0);
    cache.cells.fill(0);
}
