// All trees of small heights in lists, with the classes that the search finds, and plans read back as trees. It shares no code or definition
// with the engine.
#![tactic(auto)]

pub mod brute;
pub mod lists;
pub mod plan;
pub mod rows;
