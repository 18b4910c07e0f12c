// What two logs held together have to give (document 02, W8), by a reading of its own: entries are compared one by one, and an entry is reached from
// the one before if one of all the records leads there; nothing is spread or compiled. It has nothing of the engine.
#![tactic(auto)]

pub mod answer;
pub mod entries;
