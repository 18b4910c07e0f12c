// What has to be answered to an element text (document 02, W6), by a reading that shares no code or definition with the engine.
#![tactic(auto)]

pub mod answer;
pub mod room;
mod scan;
