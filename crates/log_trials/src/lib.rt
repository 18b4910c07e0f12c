// Trials of two logs held together (document 02, W8), without the engine: their automata, their faults, and the lines that tell the counts.
#![tactic(auto)]

pub mod automata;
pub mod faults;
pub mod lines;
