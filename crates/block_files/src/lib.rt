// Files of blocks and of trees by chance, right and damaged; and document 01's blocks and the lines 1 to 6 of its refusals, written anew. Nothing
// here is the engine's.
#![tactic(auto)]

mod chance;
pub mod definition;
pub mod files;
mod trees;
