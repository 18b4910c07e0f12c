// Numbers by chance, access to tables that is always in range, lines of output; automata as data, and two families of them that need no tree.
// For the programs that compare the engine with brute force: it shares no code or definition with the engine.
#![tactic(auto)]

pub mod access;
pub mod counting;
pub mod random;
pub mod report;
pub mod rules;
pub mod sided;
