// A node list, walked by a reader that carries the list and the node reached. The functions over the reader take it apart; the work is done
// by functions over the slice and the number.
ghost use Rattle.std.specs.Prelude.{◌≡◌};
ghost use Rattle.nodes.specs.Reader.{node_at, place_after};

use model::Symbol;

#[derive(Clone, Copy)]
pub struct Reader<'a> {
    pub symbols: &'a [u8],
    pub at: usize,
}

#[tactic(auto, unfolding(crate::specs::Reader::node_at))]
fn node_at(symbols: &[u8], at: usize) -> Option<Symbol>
    ensures { result ≡ node_at symbols.now at }
{
    if at < symbols.len() {
        Some(Symbol(symbols[at]))
    } else {
        None
    }
}

// The place after a place; the end has none after it, and stays.
#[tactic(auto, unfolding(crate::specs::Reader::place_after))]
fn place_after(symbols: &[u8], at: usize) -> usize
    ensures { result ≡ place_after symbols.now at }
{
    if at < symbols.len() { at + 1 } else { at }
}

// A reader at the list's first node.
pub fn reader_of<'a>(symbols: &'a [u8]) -> Reader<'a>
    ensures { (result.symbols ≡ symbols.entry) × (result.at ≡ 0) }
{
    Reader { symbols, at: 0 }
}

// What stands where the reader is.
pub fn read<'a>(reader: Reader<'a>) -> Option<Symbol>
    ensures { result ≡ node_at reader.entry.symbols.now reader.entry.at }
{
    node_at(reader.symbols, reader.at)
}

// The reader at the next node.
pub fn moved_on<'a>(reader: Reader<'a>) -> Reader<'a>
    ensures { (result.symbols ≡ reader.entry.symbols)
        × (result.at ≡ place_after reader.entry.symbols.now reader.entry.at) }
{
    Reader {
        symbols: reader.symbols,
        at: place_after(reader.symbols, reader.at),
    }
}

// The node at a place of a list, by a reader there.
pub fn read_at(symbols: &[u8], at: usize) -> Option<Symbol>
    ensures { result ≡ node_at symbols.now at }
{
    read(Reader { symbols, at })
}
