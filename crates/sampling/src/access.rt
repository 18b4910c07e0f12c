// Total access to arrays: outside an array a read gives 0 and a write changes nothing. Sets of at most 32 numbers are words, bit i for number i.
ghost use Rattle.std.specs.Prelude.{◌≡◌, ◌≤◌, length, take, true};

fn wide(b: u8) -> usize
    ensures { result ≤ 255 }
{
    b as usize
}

pub fn byte(s: &[u8], i: usize) -> usize
    ensures { result ≤ 255 }
{
    if i < s.len() { wide(s[i]) } else { 0 }
}

// The value is taken modulo 256.
pub fn set_byte(s: &mut [u8], i: usize, value: usize) {
    if i < s.len() {
        s[i] = (value % 256) as u8;
    }
}

pub fn number(s: &[usize], i: usize) -> usize {
    if i < s.len() { s[i] } else { 0 }
}

pub fn set_number(s: &mut [usize], i: usize, value: usize) {
    if i < s.len() {
        s[i] = value;
    }
}

pub fn word(s: &[u32], i: usize) -> u32 {
    if i < s.len() { s[i] } else { 0 }
}

pub fn set_word(s: &mut [u32], i: usize, value: u32) {
    if i < s.len() {
        s[i] = value;
    }
}

// The set of one number.
pub fn only(i: usize) -> u32 {
    if i < 32 { 1u32 << i } else { 0 }
}

// Whether a set has a number.
pub fn has(set: u32, i: usize) -> bool {
    set & only(i) != 0
}

// The remainder, 0 where there is nothing to divide by.
pub fn modulo(a: usize, n: usize) -> usize
    ensures { result ≤ n }
{
    if n == 0 { 0 } else { a % n }
}

// The quotient, 0 where there is nothing to divide by.
pub fn divided(a: usize, n: usize) -> usize {
    if n == 0 { 0 } else { a / n }
}

// Whether two arrays both have n bytes or more, and the same first n.
pub fn same_bytes(a: &[u8], b: &[u8], n: usize) -> bool
    ensures { result ≡ true → (n ≤ length a.now) × (n ≤ length b.now) × (take n a.now ≡ take n b.now) }
{
    n <= a.len() && n <= b.len() && a[..n] == b[..n]
}
