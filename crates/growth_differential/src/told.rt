// What is said of a pair of files: accepted (0), other (1), or refused (2) with the refusal's number, file and place; and the sum.
#[derive(Clone, Copy, PartialEq, Eq)]
pub struct Told {
    pub kind: usize,
    pub number: usize,
    pub file: usize,
    pub place: usize,
    pub sum: usize,
}

pub fn refused(number: usize, file: usize, place: usize, sum: usize) -> Told {
    Told {
        kind: 2,
        number,
        file,
        place,
        sum,
    }
}

pub fn judged(accepted: bool, sum: usize) -> Told {
    Told {
        kind: if accepted { 0 } else { 1 },
        number: 0,
        file: 0,
        place: 0,
        sum,
    }
}
