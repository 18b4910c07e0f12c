// Trials of the watching of a run (document 02, W7), without the engine: the logs that are lent and compared, what the search says of an answer,
// and the counts.
#![tactic(auto)]

pub mod counts;
pub mod lent;
pub mod searched;
