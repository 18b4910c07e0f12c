// Bytes of an element text (document 02, W6): their classes, by a table; the tags, each found by its `<`; and the first tag of no branch symbol.
#![tactic(auto)]

ghost use Rattle.std.specs.Prelude.{◌≡◌, ◌+◌, ◌<◌, length, get_or};
ghost use Rattle.blocks.specs.Search.{lowest};
ghost use Rattle.tags.specs.Classes.{class_of, IsTable};
ghost use Rattle.tags.specs.Tags.{digit_of, tag_at, no_branch, bad_tag};

use algorithms::is_branch;
use model::Symbol;

// The classes of bytes.
pub const SPACE: u8 = 0;

pub const DIGIT: u8 = 1;

pub const LESS: u8 = 2;

pub const SLASH: u8 = 3;

pub const GREATER: u8 = 4;

pub const OTHER: u8 = 5;

// The class of each byte value.
const CLASSES: [u8; 256] = [
    OTHER, OTHER, OTHER, OTHER, OTHER, OTHER, OTHER, OTHER, OTHER, SPACE, SPACE, OTHER, OTHER,
    SPACE, OTHER, OTHER, OTHER, OTHER, OTHER, OTHER, OTHER, OTHER, OTHER, OTHER, OTHER, OTHER,
    OTHER, OTHER, OTHER, OTHER, OTHER, OTHER, SPACE, OTHER, OTHER, OTHER, OTHER, OTHER, OTHER,
    OTHER, OTHER, OTHER, OTHER, OTHER, OTHER, OTHER, OTHER, SLASH, DIGIT, DIGIT, DIGIT, DIGIT,
    DIGIT, DIGIT, DIGIT, DIGIT, DIGIT, DIGIT, OTHER, OTHER, LESS, OTHER, GREATER, OTHER, OTHER,
    OTHER, OTHER, OTHER, OTHER, OTHER, OTHER, OTHER, OTHER, OTHER, OTHER, OTHER, OTHER, OTHER,
    OTHER, OTHER, OTHER, OTHER, OTHER, OTHER, OTHER, OTHER, OTHER, OTHER, OTHER, OTHER, OTHER,
    OTHER, OTHER, OTHER, OTHER, OTHER, OTHER, OTHER, OTHER, OTHER, OTHER, OTHER, OTHER, OTHER,
    OTHER, OTHER, OTHER, OTHER, OTHER, OTHER, OTHER, OTHER, OTHER, OTHER, OTHER, OTHER, OTHER,
    OTHER, OTHER, OTHER, OTHER, OTHER, OTHER, OTHER, OTHER, OTHER, OTHER, OTHER, OTHER, OTHER,
    OTHER, OTHER, OTHER, OTHER, OTHER, OTHER, OTHER, OTHER, OTHER, OTHER, OTHER, OTHER, OTHER,
    OTHER, OTHER, OTHER, OTHER, OTHER, OTHER, OTHER, OTHER, OTHER, OTHER, OTHER, OTHER, OTHER,
    OTHER, OTHER, OTHER, OTHER, OTHER, OTHER, OTHER, OTHER, OTHER, OTHER, OTHER, OTHER, OTHER,
    OTHER, OTHER, OTHER, OTHER, OTHER, OTHER, OTHER, OTHER, OTHER, OTHER, OTHER, OTHER, OTHER,
    OTHER, OTHER, OTHER, OTHER, OTHER, OTHER, OTHER, OTHER, OTHER, OTHER, OTHER, OTHER, OTHER,
    OTHER, OTHER, OTHER, OTHER, OTHER, OTHER, OTHER, OTHER, OTHER, OTHER, OTHER, OTHER, OTHER,
    OTHER, OTHER, OTHER, OTHER, OTHER, OTHER, OTHER, OTHER, OTHER, OTHER, OTHER, OTHER, OTHER,
    OTHER, OTHER, OTHER, OTHER, OTHER, OTHER, OTHER, OTHER, OTHER, OTHER, OTHER, OTHER, OTHER,
    OTHER, OTHER, OTHER, OTHER, OTHER, OTHER, OTHER, OTHER, OTHER, OTHER, OTHER, OTHER, OTHER,
    OTHER, OTHER, OTHER, OTHER, OTHER, OTHER, OTHER, OTHER, OTHER,
];

// The table, to be lent.
pub fn class_table() -> [u8; 256]
    ensures { IsTable result }
{
    CLASSES
}

// The class of a byte, from a table that is lent.
pub fn class_in(b: u8, classes: &[u8; 256]) -> u8
    requires { IsTable classes.now }
    ensures { result ≡ class_of b }
{
    classes[b as usize]
}

// The class of a byte.
fn class_of(b: u8) -> u8
    ensures { result ≡ class_of b }
{
    let classes = class_table();
    class_in(b, &classes)
}

// What a `<` stands before: an opening tag with its number, or a closing tag.
#[derive(Clone, Copy)]
pub enum Tag {
    Opens(u8),
    Closes,
}

fn byte_at(text: &[u8], at: usize) -> u8
    ensures { result ≡ get_or text.now at 0 }
{
    if at < text.len() { text[at] } else { 0 }
}

fn digit(b: u8) -> u8
    ensures { (result ≡ digit_of b) × (result < 10) }
{
    if class_of(b) == DIGIT { b - 48 } else { 0 }
}

// The tag whose `<` stands at `at`.
fn tag_at(text: &[u8], at: usize) -> Tag
    requires { at < length text.now }
    ensures { result ≡ tag_at text.now at }
{
    let first = byte_at(text, at + 1);
    let second = byte_at(text, at + 2);
    if first == 47 {
        return Tag::Closes;
    }
    if second == 62 {
        return Tag::Opens(digit(first));
    }
    Tag::Opens(10 * digit(first) + digit(second))
}

fn no_branch(branches: u32, tag: Tag) -> bool
    ensures { result ≡ no_branch branches tag }
{
    match tag {
        Tag::Opens(n) => !is_branch(branches, Symbol(n)),
        Tag::Closes => false,
    }
}

fn is_bad_tag(branches: u32, text: &[u8], at: usize) -> bool
    requires { at < length text.now }
    ensures { result ≡ bad_tag branches text.now at }
{
    text[at] == 60 && no_branch(branches, tag_at(text, at))
}

// The first `<` of a tag whose symbol is no branch symbol.
pub fn first_bad_tag(branches: u32, text: &[u8]) -> Option<usize>
    ensures { result ≡ lowest (bad_tag branches text.now) (length text.now) }
{
    for at in 0..text.len() {
        if is_bad_tag(branches, text, at) {
            return Some(at);
        }
    }
    None
}
