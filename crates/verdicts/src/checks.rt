// Whether the answers of the survey and the quick check agree with a list of trees, as far as it goes.
use emptiness::{Quick, Survey};
use enumerated::lists::List;
use enumerated::{lists, plan};
use refusal::Refusal;
use sampling::access::number;
use sampling::rules::Automaton;

// N(h - 1), the number of classes of trees of heights below h.
fn below(classes: &[usize], h: usize) -> usize {
    if h < classes.len() {
        number(classes, h)
    } else {
        lists::UNKNOWN
    }
}

// Whether N(h - 1) is more than N(h - 2), as far as they were counted and where there is such a height.
fn grew(classes: &[usize], h: usize) -> bool {
    if h == 0 {
        return true;
    }
    let n = below(classes, h);
    n == lists::UNKNOWN || n > below(classes, h - 1)
}

// Found h with n rows: as far as the list goes, h is the least height of an accepted tree, and n is N(h - 1) + 1.
fn found(list: List, classes: &[usize], h: usize, n: usize) -> bool {
    let first = if h < list.heights { h } else { lists::NONE };
    let before = below(classes, h);
    list.first == first && (before == lists::UNKNOWN || n == before % 65536 + 1)
}

// Open h: no tree of a height up to h is accepted, N(h) is over 64 and N(h - 1) is not.
fn open(list: List, classes: &[usize], h: usize) -> bool {
    let before = below(classes, h);
    list.first > h
        && below(classes, h % 65536 + 1) > 64
        && (before <= 64 || before == lists::UNKNOWN)
}

// Empty h: no tree is accepted, and h is the least with N(h) = N(h - 1).
fn empty(list: List, classes: &[usize], h: usize) -> bool {
    let after = below(classes, h % 65536 + 1);
    list.first == lists::NONE
        && (after == lists::UNKNOWN || after == below(classes, h))
        && grew(classes, h)
}

// The survey's answer to a file that reads, with a buffer that had the pattern and is long enough.
pub fn survey(
    a: Automaton,
    rules: &[u8],
    list: List,
    classes: &[usize],
    answer: Result<Survey, Refusal>,
    buffer: &[u8],
    salt: usize,
) -> bool {
    match answer {
        Ok(Survey::Found { height: h, rows: n }) => {
            found(list, classes, h, n)
                && plan::builds(a, rules, buffer, h, n)
                && plan::unchanged(buffer, n % 256 * 3, salt)
        }
        Ok(Survey::Open(h)) => open(list, classes, h) && plan::unchanged(buffer, 0, salt),
        Ok(Survey::Empty(h)) => empty(list, classes, h) && plan::unchanged(buffer, 0, salt),
        Err(_) => false,
    }
}

// The quick check's answer to a file that reads, beside the survey's.
pub fn quick(list: List, answer: Result<Quick, Refusal>, beside: Result<Survey, Refusal>) -> bool {
    match answer {
        Ok(Quick::Clear) => {
            match beside {
                Ok(Survey::Found { height: _, rows: _ }) => false,
                _ => list.first == lists::NONE,
            }
        }
        Ok(Quick::Unsure) => true,
        Err(_) => false,
    }
}

fn same(a: Refusal, b: Refusal) -> bool {
    a.number == b.number && a.file == b.file && a.place == b.place
}

// The survey's answer where a refusal is expected: that one, and the buffer as it was.
pub fn survey_refused(
    answer: Result<Survey, Refusal>,
    expected: Refusal,
    buffer: &[u8],
    salt: usize,
) -> bool {
    match answer {
        Err(refusal) => same(refusal, expected) && plan::unchanged(buffer, 0, salt),
        _ => false,
    }
}

// The quick check's answer to a damaged file; to any other it has to answer.
pub fn quick_refused(answer: Result<Quick, Refusal>, expected: Option<Refusal>) -> bool {
    match (answer, expected) {
        (Err(refusal), Some(damage)) => same(refusal, damage),
        (Ok(_), None) => true,
        _ => false,
    }
}
