// Two parts of judging a tree's file, by themselves, for the benchmark: the check of its blocks, and reading it whole. Both are the engine's
// own functions, under names that a Rust program can link.
#![tactic(auto)]

ghost use Rattle.std.specs.Prelude.{◌≡◌, ◌/◌, length};
ghost use Rattle.blocks.specs.Blocks.{check_wrong};
ghost use Rattle.blocks.specs.Search.{lowest};
ghost use Rattle.tree.specs.File.{read_tree, nodes_after};
ghost use Rattle.reading.specs.Reading.{place_or, count_told};

use model::Signature;

// The lowest block whose check is wrong, or the number of blocks.
pub fn reading_check(file: &[u8]) -> usize
    ensures { result ≡ place_or (lowest (check_wrong file.now) (length file.now / 512)) (length file.now / 512) }
{
    blocks::first_bad_block(file).unwrap_or(file.len() / 512)
}

// Reads a tree's file against so many symbols, of which these are branch symbols: the number of its nodes, whose symbols go to the front of
// `nodes`; or 0, if it is refused.
pub fn reading_tree(file: &[u8], symbols: u8, branches: u32, nodes: &mut [u8; 4096]) -> usize
    ensures { (result ≡ count_told (read_tree (record { symbols = symbols; branches = branches }) file.now))
        × (nodes.new ≡ nodes_after (read_tree (record { symbols = symbols; branches = branches }) file.now) file.now nodes.old) }
{
    let signature = Signature { symbols, branches };
    tree::file::read_tree(file, signature, nodes).unwrap_or(0)
}
