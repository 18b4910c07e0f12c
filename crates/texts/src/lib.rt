// Element texts by chance, right and damaged, and automata for them (document 02, W6).
#![tactic(auto)]

pub mod automata;
pub mod chance;
pub mod damage;
pub mod forest;
pub mod pieces;
