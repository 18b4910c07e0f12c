// Damaged files and short buffers, and the refusals that are expected of them.
use refusal::Refusal;
use sampling::random::{chance, draw};
use search::files;

// What is expected: a refusal of the file, of the buffer, or none.
#[derive(Clone, Copy)]
pub struct Expected {
    pub file: Option<Refusal>,
    pub survey: Option<Refusal>,
}

fn refused(number: u8, file: u8, place: usize) -> Refusal {
    Refusal {
        number,
        file,
        place,
    }
}

// Damages one byte of some files; the refusal that is expected then.
pub fn damaged(random: &mut u64, file: &mut [u8], n: usize) -> Option<Refusal> {
    if !chance(random, 1, 40) {
        return None;
    }
    let at = draw(random, n);
    files::damage(file, at, draw(random, 255));
    Some(refused(2, 0, at / 512))
}

// The buffer's length: 195 at least, but in some cases too short, and in half of those with a damaged file.
pub fn room_of(random: &mut u64, is_damaged: bool) -> usize {
    let n = if is_damaged { 2 } else { 40 };
    if !chance(random, 1, n) {
        return 195 + draw(random, 62);
    }
    if chance(random, 1, 2) {
        194
    } else {
        draw(random, 195)
    }
}

// What is expected of the survey and the quick check.
pub fn of(file: Option<Refusal>, room: usize) -> Expected {
    let survey = if file.is_none() && room < 195 {
        Some(refused(13, 2, 195))
    } else {
        file
    };
    Expected { file, survey }
}
