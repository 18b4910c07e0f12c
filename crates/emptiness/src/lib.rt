// Emptiness: whether an automaton accepts any tree. `file` has the two public functions, document 01's survey and quick check; specs/ has the
// definitions of their answers, and the proof that these meet demand 3. The rounds are the crate `saturation`, the least sets `approximation`.
#![tactic(auto)]

pub mod file;
mod plan;

// What the survey answers: a height, with the number of rows of the plan where a tree was found.
#[derive(Clone, Copy)]
pub enum Survey {
    Found { height: usize, rows: usize },
    Open(usize),
    Empty(usize),
}

// What the quick check answers: no tree is accepted, or that is not known.
#[derive(Clone, Copy)]
pub enum Quick {
    Clear,
    Unsure,
}
