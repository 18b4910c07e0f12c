// An automaton's file: its header, lines 1 to 9 of the table, and what reading gives.
ghost use Rattle.std.specs.Prelude.{◌≡◌, ◌*◌, ◌+◌, ◌≤◌, length};
ghost use Rattle.automaton.specs.File.{header_of, counts_check, layout_check, beyond, sets_check, LaidOut, body_check, parsed, contents_after};

use crate::{Contents, Header};
use refusal::lines::{Format, count_check, file_check, filler_check, kind_check, size_check};
use refusal::{Fault, Refusal, refused};

// The format of the file (specs/File.antt, `format`).
const FORMAT: Format = Format {
    file: 0,
    kind: 87,
    most: 3072,
    zeros: 200,
};

// The counts and the sets.
#[tactic(auto, unfolding(crate::specs::File::header_of))]
fn header(content: &[u8]) -> Header
    requires { 20 ≤ length content.now }
    ensures { result ≡ header_of content.now }
{
    Header {
        states: content[1],
        symbols: content[2],
        rules: blocks::half_at(content, 4),
        initial: blocks::word_at(content, 8),
        accepting: blocks::word_at(content, 12),
        branches: blocks::word_at(content, 16),
    }
}

// Line 4: states, symbols and rules.
#[tactic(auto, unfolding(crate::specs::File::counts_check))]
fn counts_check(header: Header) -> Result<(), Refusal>
    ensures { result ≡ counts_check header }
{
    count_check(FORMAT, header.states as usize, 1, 24, 1)?;
    count_check(FORMAT, header.symbols as usize, 1, 32, 2)?;
    count_check(FORMAT, header.rules as usize, 0, 512, 4)
}

// Lines 3 to 5.
#[tactic(auto, unfolding(crate::specs::File::layout_check))]
fn layout_check(content: &[u8], header: Header) -> Result<(), Refusal>
    requires { 20 ≤ length content.now }
    ensures { result ≡ layout_check header content.now }
{
    kind_check(FORMAT, content)?;
    counts_check(header)?;
    size_check(FORMAT, content, 20 + 5 * (header.rules as usize))
}

// Whether a set has a bit at or above its count.
fn is_beyond(set: u32, count: u8) -> bool
    requires { count ≤ 32 }
    ensures { result ≡ beyond count set }
{
    (set as u64) >> count != 0
}

// Line 7.
#[tactic(auto, unfolding(crate::specs::File::sets_check))]
fn sets_check(header: Header) -> Result<(), Refusal>
    requires { (header.states ≤ 32) × (header.symbols ≤ 32) }
    ensures { result ≡ sets_check header }
{
    if is_beyond(header.initial, header.states) {
        return refused(Fault::Set, 0, 8);
    }
    if is_beyond(header.accepting, header.states) {
        return refused(Fault::Set, 0, 12);
    }
    if is_beyond(header.branches, header.symbols) {
        return refused(Fault::Set, 0, 16);
    }
    Ok(())
}

// Lines 6 to 9, of contents that are as long as the header says.
#[tactic(auto, unfolding(crate::specs::File::body_check, crate::specs::File::rules_check))]
fn body_check(content: &[u8], header: Header) -> Result<(), Refusal>
    requires { LaidOut header content.now }
    ensures { result ≡ body_check header content.now }
{
    let end = 20 + 5 * (header.rules as usize);
    filler_check(FORMAT, content, end)?;
    sets_check(header)?;
    crate::rules::rules_check(content, header)
}

// Reads an automaton's file by document 01's table: its counts and sets, and its joined contents at the front of a lent buffer; or its refusal.
// The canonical form reads by this at all times.
pub fn parse(file: &[u8], contents: &mut Contents) -> Result<Header, Refusal>
    ensures { (result ≡ parsed file.now) × (contents.new ≡ contents_after result file.now contents.old) }
{
    file_check(FORMAT, file)?;
    let mut buffer = [0u8; 3048];
    let len = blocks::join(file, &mut buffer);
    let content = &buffer[..len];
    let header = header(content);
    layout_check(content, header)?;
    body_check(content, header)?;
    copying::copy(content, contents);
    Ok(header)
}

// What all other calls read an automaton's file by: the same table.
pub fn read(file: &[u8], contents: &mut Contents) -> Result<Header, Refusal>
    ensures { (result ≡ parsed file.now) × (contents.new ≡ contents_after result file.now contents.old) }
{
    parse(file, contents)
}
