// Budgets and logs, right and wrong ones, and what has to be answered when a run is watched (document 02, W7), by a reading of its own:
// the run is followed record by record through a tree with links, and nothing is compiled. It has nothing of the engine.
#![tactic(auto)]

pub mod answer;
pub mod follow;
pub mod limits;
