// The kinds of answers: written (0), 18 by the length (1), at the text's end (2) and at a byte (3), 19 at place 0 (4) and later (5), 4 (6), 12 (7),
// 13 (8), and the automaton's refusals (9).
use parses::answer::Expected;

fn kind_of_18(place: usize, length: usize) -> usize {
    if length > 32768 {
        return 1;
    }
    if place < length { 3 } else { 2 }
}

fn kind_of_19(place: usize) -> usize {
    if place == 0 { 4 } else { 5 }
}

// The kind of an answer to a text of the length.
pub fn kind_of(e: Expected, length: usize) -> usize {
    let what = e.number;
    if e.file == 0 && what > 0 {
        return 9;
    }
    match what {
        18 => kind_of_18(e.place, length),
        19 => kind_of_19(e.place),
        4 => 6,
        12 => 7,
        13 => 8,
        _ => 0,
    }
}
