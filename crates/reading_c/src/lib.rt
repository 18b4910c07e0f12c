// The static library of `reading`, for the benchmark: its two functions under their own names, which a Rust program can link. A library of Rattle
// exports nothing, so that each stands here again, with its clause.
#![tactic(auto)]

ghost use Rattle.std.specs.Prelude.{◌≡◌, ◌/◌, length};
ghost use Rattle.blocks.specs.Blocks.{check_wrong};
ghost use Rattle.blocks.specs.Search.{lowest};
ghost use Rattle.tree.specs.File.{read_tree, nodes_after};
ghost use Rattle.reading.specs.Reading.{place_or, count_told};

// The lowest block whose check is wrong, or the number of blocks.
#[unsafe(no_mangle)]
pub extern "C" fn reading_check(file: &[u8]) -> usize
    ensures { result ≡ place_or (lowest (check_wrong file.now) (length file.now / 512)) (length file.now / 512) }
{
    reading::reading_check(file)
}

// Reads a tree's file against so many symbols, of which these are branch symbols: the number of its nodes, whose symbols go to the front of
// `nodes`; or 0, if it is refused.
#[unsafe(no_mangle)]
pub extern "C" fn reading_tree(
    file: &[u8],
    symbols: u8,
    branches: u32,
    nodes: &mut [u8; 4096],
) -> usize
    ensures { (result ≡ count_told (read_tree (record { symbols = symbols; branches = branches }) file.now))
        × (nodes.new ≡ nodes_after (read_tree (record { symbols = symbols; branches = branches }) file.now) file.now nodes.old) }
{
    reading::reading_tree(file, symbols, branches, nodes)
}
