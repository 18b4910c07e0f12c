// What the survey and the quick check have to answer: files and buffers that are to be refused, whether the answers agree with a list of trees,
// and how many there are of each kind. For the comparison program.
#![tactic(auto)]

pub mod checks;
pub mod counts;
pub mod expected;
