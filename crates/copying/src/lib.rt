// Bytes copied to the front of a buffer.
#![tactic(auto)]

ghost use Rattle.std.specs.Prelude.{◌≡◌, ◌++◌, ◌≤◌, length, take, drop};

// Copies bytes to the front of a buffer; how many they are.
pub fn copy(from: &[u8], to: &mut [u8]) -> usize
    requires { length from.now ≤ length to.old }
    ensures { (result ≡ length from.now) × (to.new ≡ take (length from.now) from.now ++ drop (length from.now) to.old) }
{
    let n = from.len();
    to[..n].copy_from_slice(from);
    n
}
