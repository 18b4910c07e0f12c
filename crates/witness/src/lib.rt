// A plan's tree, written as a tree's file (document 02, W1): `file` has the public function, specs/ the definition of its answer and what it
// promises in terms of trees and runs.
#![tactic(auto)]

pub mod file;
mod plan;
