// The answer: the first refusal that applies, or what the two logs have.
use crate::entries::{agreed, run_length};
use damaged::Damaged;
use followed::answer::{Expected, of_files, refused};
use sampling::rules::Automaton;

// What is asked: the two files with their refusals, number 0 for a right one, and the lengths of the two logs.
#[derive(Clone, Copy)]
pub struct Question {
    pub automaton: Damaged,
    pub tree: Damaged,
    pub first: usize,
    pub second: usize,
}

// In how many entries the two logs agree, and how many of each are a run; the refusal has number 0 where there is none.
#[derive(Clone, Copy)]
pub struct Held {
    pub refusal: Expected,
    pub agreed: usize,
    pub first: usize,
    pub second: usize,
}

// 23, or number 0.
fn of_logs(q: Question) -> Expected {
    if q.first % 3 != 0 {
        return refused(23, 2, 0);
    }
    if q.second % 3 != 0 {
        refused(23, 2, 1)
    } else {
        refused(0, 0, 0)
    }
}

// The first refusal that applies, or number 0.
fn first_refusal(q: Question) -> Expected {
    let files = of_files(q.automaton, q.tree);
    if files.number > 0 { files } else { of_logs(q) }
}

// What has to be answered.
pub fn expected_of(
    a: Automaton,
    records: &[u8],
    nodes: &[usize],
    q: Question,
    first: &[u8],
    second: &[u8],
) -> Held {
    let refusal = first_refusal(q);
    if refusal.number > 0 {
        return Held {
            refusal,
            agreed: 0,
            first: 0,
            second: 0,
        };
    }
    let n = q.first / 3;
    let m = q.second / 3;
    Held {
        refusal,
        agreed: agreed(first, second, if n < m { n } else { m }),
        first: run_length(a, records, nodes, first, n),
        second: run_length(a, records, nodes, second, m),
    }
}
