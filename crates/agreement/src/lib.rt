// The longest opening stretch of whole entries in which two logs agree, as that part of the first log itself (document 02, W8).
#![tactic(auto)]

ghost use Rattle.std.specs.Prelude.{◌≡◌};
ghost use Rattle.agreement.specs.Common.{common_bytes, common_entries, common_part};
ghost use Rattle.agreement.specs.Longest.{Longest};

// How many bytes from the start on are the same in both.
fn common_bytes(first: &[u8], second: &[u8]) -> usize
    ensures { result ≡ common_bytes first.now second.now }
{
    let end = first.len().min(second.len());
    for at in 0..end {
        if first[at] != second[at] {
            return at;
        }
    }
    end
}

// The part of the first log in which the two agree, an entry being three bytes. It begins where the first log begins, and is lent for as long.
pub fn common<'a, 'b>(first: &'a [u8], second: &'b [u8]) -> &'a [u8]
    ensures itself { result.ref_ptr ≡ first.entry.ref_ptr }
    ensures equals { result.now ≡ common_part first.now second.now }
    ensures longest { Longest first.now second.now (common_entries first.now second.now) }
{
    let end = 3 * (common_bytes(first, second) / 3);
    &first[..end]
}
