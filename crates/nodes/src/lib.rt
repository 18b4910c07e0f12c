// The node list of a tree: one symbol a node, in preorder. Lines 10 to 12 of the table of refusals.
#![tactic(auto)]

pub mod reader;

ghost use Rattle.std.specs.Prelude.{◌≡◌, ◌+◌, ◌<◌, ◌≤◌, ◌^◌, leb};
ghost use Rattle.nodes.specs.Nodes.{nodes_check};
ghost use Rattle.nodes.specs.Scan.{nothing_read, first_after, parts_after, Fits, opened_by, path_after, scanned_of, scan_of, symbols_by, shape_by, height_by};

use crate::reader::{moved_on, read, reader_of};
use algorithms::is_branch;
use model::{Signature, Symbol};
use refusal::{Fault, Refusal, refused};

// Whether a symbol is none of the signature's.
fn is_unknown(signature: Signature, symbol: Symbol) -> bool
    ensures { result ≡ leb signature.symbols symbol.0 }
{
    signature.symbols <= symbol.0
}

// Where the next node is: its depth, and the right parts that wait. From that depth up, `waiting` has a bit for each depth, lowest bit first: 1
// where the right part there waits. Depth 65 is too deep, and 66 says that no part is to come.
#[derive(Clone, Copy)]
struct Path {
    depth: u32,
    waiting: u64,
}

// What is known of a list of which some nodes were read: how many, the parts of the tree that are still open, the first node whose symbol is
// none of the signature's, the first node after the tree closed, and the first that is too deep. Where there is no such node yet, it is the
// next one to be read. And where that is.
#[derive(Clone, Copy)]
struct Scan {
    nodes: usize,
    parts: usize,
    unknown: usize,
    over: usize,
    high: usize,
    path: Path,
}

// Nothing was read yet: the tree itself is open.
#[tactic(auto, unfolding(crate::specs::Scan::nothing_read))]
fn unread() -> Scan
    ensures { result ≡ nothing_read }
{
    Scan {
        nodes: 0,
        parts: 1,
        unknown: 0,
        over: 0,
        high: 0,
        path: Path {
            depth: 0,
            waiting: 0,
        },
    }
}

// The first node of its kind after one more node, which is of that kind or not.
#[tactic(auto, unfolding(crate::specs::Scan::first_after))]
fn first_after(first: usize, nodes: usize, here: bool) -> usize
    requires { nodes + 1 < 2 ^ 64 }
    ensures { result ≡ first_after first nodes here }
{
    if here {
        return first;
    }
    if first == nodes { nodes + 1 } else { first }
}

// 1 for a branch, 0 for a leaf. Which of them the next node is cannot be foretold; what is computed from this number needs no jump.
fn opened(branch: bool) -> u32
    ensures { result ≡ opened_by branch }
{
    if branch { 1 } else { 0 }
}

// The parts that are open after a node: a branch closes one and opens two, a leaf closes one. A closed tree stays closed.
#[tactic(auto, unfolding(crate::specs::Scan::parts_after))]
fn parts_after(parts: usize, branch: bool) -> usize
    requires { parts + 1 < 2 ^ 64 }
    ensures { result ≡ parts_after parts branch }
{
    if parts == 0 {
        return 0;
    }
    parts - 1 + 2 * opened(branch) as usize
}

// Where the node after a branch or a leaf is: of a branch to the left part, where the right one waits; of a leaf up to the next right part that
// waits. Too deep, or where no part is to come, it stays.
fn path_after(path: Path, branch: bool) -> Path
    requires { Fits path }
    ensures { result ≡ path_after path branch }
{
    if 64 < path.depth {
        return path;
    }
    let down = opened(branch);
    let more = down as u64;
    let near = path.waiting | more;
    if near == 0 {
        return Path {
            depth: 66,
            waiting: 0,
        };
    }
    let up = u64::trailing_zeros(near);
    let depth = path.depth - up + down;
    if depth == 65 {
        return Path {
            depth: 65,
            waiting: 0,
        };
    }
    Path {
        depth,
        waiting: (path.waiting >> up << down) + more - (1 - more),
    }
}

// What is known after one more node.
#[tactic(auto, unfolding(crate::specs::Scan::scanned_of))]
fn scanned(scan: Scan, symbol: Symbol, signature: Signature) -> Scan
    requires { (scan.nodes + 1 < 2 ^ 64) × (scan.parts + 1 < 2 ^ 64) × Fits scan.path }
    ensures { result ≡ scanned_of signature scan symbol.0 }
{
    let branch = is_branch(signature.branches, symbol);
    let unknown = is_unknown(signature, symbol);
    let path = scan.path;
    Scan {
        nodes: scan.nodes + 1,
        parts: parts_after(scan.parts, branch),
        unknown: first_after(scan.unknown, scan.nodes, unknown),
        over: first_after(scan.over, scan.nodes, scan.parts == 0),
        high: first_after(scan.high, scan.nodes, path.depth == 65),
        path: path_after(path, branch),
    }
}

// The whole list, walked by a reader.
fn scan_nodes(symbols: &[u8], signature: Signature) -> Scan
    ensures { result ≡ scan_of signature nothing_read symbols.now }
{
    let mut reader = reader_of(symbols);
    let mut scan = unread();
    while let Some(symbol) = read(reader) {
        scan = scanned(scan, symbol, signature);
        reader = moved_on(reader);
    }
    scan
}

// Line 10, of a list that was read.
#[tactic(auto, unfolding(crate::specs::Scan::symbols_by))]
fn symbols_check(scan: Scan) -> Result<(), Refusal>
    ensures { result ≡ symbols_by scan }
{
    if scan.unknown < scan.nodes {
        return refused(Fault::Symbol, 1, scan.unknown);
    }
    Ok(())
}

// Line 11, of a list that was read: the tree closes with the last node, and not before.
#[tactic(auto, unfolding(crate::specs::Scan::shape_by))]
fn shape_check(scan: Scan) -> Result<(), Refusal>
    ensures { result ≡ shape_by scan }
{
    if scan.over < scan.nodes {
        return refused(Fault::Shape, 1, scan.over);
    }
    if 0 < scan.parts {
        return refused(Fault::Shape, 1, scan.nodes);
    }
    Ok(())
}

// Line 12, of a list that was read.
#[tactic(auto, unfolding(crate::specs::Scan::height_by))]
fn height_check(scan: Scan) -> Result<(), Refusal>
    ensures { result ≡ height_by scan }
{
    if scan.high < scan.nodes {
        return refused(Fault::Height, 1, scan.high);
    }
    Ok(())
}

// Lines 10 to 12.
pub fn check(symbols: &[u8], signature: Signature) -> Result<(), Refusal>
    ensures { result ≡ nodes_check signature symbols.now }
{
    let scan = scan_nodes(symbols, signature);
    symbols_check(scan)?;
    shape_check(scan)?;
    height_check(scan)
}
