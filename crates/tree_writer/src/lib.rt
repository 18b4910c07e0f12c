// Writes the file of a tree from its node list.
#![tactic(auto)]

ghost use Rattle.std.specs.Prelude.{◌≡◌, ◌++◌, ◌+◌, ◌*◌, ◌<◌, ◌≤◌, length, get_or, drop};
ghost use Rattle.blocks.specs.FileOf.{blocks_needed, file_of};
ghost use Rattle.tree.specs.Payload.{payload_of};

use block_writer::write_file;

// A byte of the payload of a tree's file.
fn payload_byte(nodes: &[u8], i: usize) -> u8
    requires { (i < 4 + length nodes.now) × (length nodes.now ≤ 4096) }
    ensures { result ≡ get_or (payload_of nodes.now) i 0 }
{
    if 4 <= i {
        return nodes[i - 4];
    }
    let k = nodes.len();
    if i == 0 {
        return 84;
    }
    if i == 1 {
        return 0;
    }
    if i == 2 {
        return (k % 256) as u8;
    }
    (k / 256) as u8
}

// Writes the payload to the front of the buffer, and returns its length.
fn write_payload(nodes: &[u8], payload: &mut [u8]) -> usize
    requires { (length nodes.now ≤ 4096) × (4 + length nodes.now ≤ length payload.old) }
    ensures { (result ≡ length (payload_of nodes.now)) × (payload.new ≡ payload_of nodes.now ++ drop result payload.old) }
{
    let len = 4 + nodes.len();
    for i in 0..len {
        payload[i] = payload_byte(nodes, i);
    }
    len
}

// Writes the file of a tree's node list to the front of `out`, and returns its length.
pub fn write_tree(nodes: &[u8], out: &mut [u8]) -> usize
    requires { (length nodes.now ≤ 4096) × (512 * blocks_needed (4 + length nodes.now) ≤ length out.old) }
    ensures { (result ≡ length (file_of (payload_of nodes.now))) × (out.new ≡ file_of (payload_of nodes.now) ++ drop result out.old) }
{
    let mut payload = [0u8; 4100];
    let len = write_payload(nodes, &mut payload);
    write_file(&payload[..len], out)
}
