// Automata by chance, as data, most of them along a walk through a tree, for the programs that compare the engine with brute force. It shares
// no code or definition with the engine.
#![tactic(auto)]

pub mod families;
pub mod guided;
