// Trees by chance, as data, the files of trees and automata, and brute force: a search over the configurations of an automaton on a tree.
// It shares no code or definition with the engine.
#![tactic(auto)]

pub mod files;
pub mod trees;
pub mod walk;
