// Element texts (document 02, W6): where one goes wrong, and the nodes of its tree in preorder. An element is read through its run, and a run
// through its elements.
#![tactic(auto)]

ghost use Rattle.std.specs.Prelude.{◌≡◌, ◌+◌, ◌*◌, ◌<◌, ◌≤◌, length, get_or};
ghost use Rattle.tags.specs.Classes.{IsTable};
ghost use Rattle.tags.specs.Tags.{nodes_in};
ghost use Rattle.grammar.specs.Wrong.{wrong_place};
ghost use Rattle.grammar.specs.declared.Unreadable.{Unreadable};
ghost use Rattle.grammar.specs.Reading.{class_at, IsByte, Skipped, CloseAt, Opens, Filled, RunRead, ElementRead, OpenRead, CloseRead, Numbered, StepRead, parse_of, Listed};

use tags::{DIGIT, GREATER, LESS, SLASH, SPACE, class_in, class_table};

// No byte: past the end.
const NONE: u8 = 6;

// The first place at which nothing could be right.
#[derive(Clone, Copy)]
pub struct Wrong(pub usize);

// Why an element or a run was not read: a place at which nothing could be right; or elements open more levels than may be.
#[derive(Clone, Copy)]
pub enum Unreadable {
    Wrong(Wrong),
    Deep,
}

impl From<Wrong> for Unreadable {
    ghost from_gives = { λ wrong unreadable. unreadable ≡ Unreadable.Wrong wrong };

    fn from(wrong: Wrong) -> Unreadable {
        Unreadable::Wrong(wrong)
    }
}

fn class_at(text: &[u8], at: usize, classes: &[u8; 256]) -> u8
    requires { IsTable classes.now }
    ensures { result ≡ class_at text.now at }
{
    if at < text.len() {
        class_in(text[at], classes)
    } else {
        NONE
    }
}

// Past spaces.
fn skip(text: &[u8], at: usize, classes: &[u8; 256]) -> usize
    requires at_in_bounds { at ≤ length text.now }
    requires table { IsTable classes.now }
    ensures { Skipped text.now at result }
{
    for next in at..text.len() {
        if class_in(text[next], classes) != SPACE {
            return next;
        }
    }
    text.len()
}

// An opening tag, its `<` at `at`: its number and the place after it.
fn open_tag(text: &[u8], at: usize, classes: &[u8; 256]) -> Result<(u8, usize), Wrong>
    requires opens { Opens text.now at }
    requires table { IsTable classes.now }
    ensures { OpenRead text.now at result }
{
    if class_at(text, at + 1, classes) != DIGIT {
        return Err(Wrong(at + 1));
    }
    let first = text[at + 1] - 48;
    let class = class_at(text, at + 2, classes);
    if class == GREATER {
        return Ok((first, at + 3));
    }
    if class != DIGIT {
        return Err(Wrong(at + 2));
    }
    let leading_zero = first == 0;
    if leading_zero {
        return Err(Wrong(at + 2));
    }
    let second = text[at + 2] - 48;
    let ends = class_at(text, at + 3, classes) == GREATER;
    if !ends {
        return Err(Wrong(at + 3));
    }
    Ok((10 * first + second, at + 4))
}

fn is_byte(text: &[u8], at: usize, b: u8) -> bool
    ensures { IsByte text.now at b result }
{
    if at < text.len() {
        let here = text[at];
        here == b
    } else {
        false
    }
}

// The closing tag of a number, where a run has ended: the place after it.
fn close_tag(text: &[u8], at: usize, number: u8) -> Result<usize, Wrong>
    requires { (at ≤ length text.now) × (at < length text.now → CloseAt text.now at) × (number < 100) }
    ensures { CloseRead text.now at number result }
{
    if at == text.len() {
        return Err(Wrong(at));
    }
    if number < 10 {
        if !is_byte(text, at + 2, 48 + number) {
            return Err(Wrong(at + 2));
        }
        if !is_byte(text, at + 3, 62) {
            return Err(Wrong(at + 3));
        }
        Ok(at + 4)
    } else {
        if !is_byte(text, at + 2, 48 + number / 10) {
            return Err(Wrong(at + 2));
        }
        if !is_byte(text, at + 3, 48 + number % 10) {
            return Err(Wrong(at + 3));
        }
        if !is_byte(text, at + 4, 62) {
            return Err(Wrong(at + 4));
        }
        Ok(at + 5)
    }
}

// An element, through its run; its `<` stands at `at`. Its nodes are listed behind those that there are: its own, those of the run inside, and the
// leaf by which that run ends. So many levels may be opened.
#[cycle(element_run)]
fn element(
    text: &[u8],
    at: usize,
    classes: &[u8; 256],
    nodes: &mut [u8; 10924],
    count: &mut usize,
    levels: usize,
) -> Result<usize, Unreadable>
    requires opens { Opens text.now at }
    requires table { IsTable classes.now }
    requires filled { Filled text.now at count.old nodes.old }
    ensures { ElementRead text.now at count.new nodes.new result }
{
    if levels == 0 {
        return Err(Unreadable::Deep);
    }
    let (number, inside) = open_tag(text, at, classes)?;
    let first = *count;
    nodes[first] = number;
    *count = first + 1;
    let end = run(text, inside, classes, nodes, count, levels - 1)?;
    let last = *count;
    nodes[last] = 0;
    *count = last + 1;
    let after = close_tag(text, end, number)?;
    Ok(after)
}

// A run, through its elements: up to the end or to a closing tag.
#[cycle(element_run)]
fn run(
    text: &[u8],
    at: usize,
    classes: &[u8; 256],
    nodes: &mut [u8; 10924],
    count: &mut usize,
    levels: usize,
) -> Result<usize, Unreadable>
    requires at_in_bounds { at ≤ length text.now }
    requires table { IsTable classes.now }
    requires filled { Filled text.now at count.old nodes.old }
    ensures { RunRead text.now at count.new nodes.new result }
{
    let mut next = skip(text, at, classes);
    while class_at(text, next, classes) == LESS {
        if class_at(text, next + 1, classes) == SLASH {
            return Ok(next);
        }
        let after = element(text, next, classes, nodes, count, levels)?;
        next = skip(text, after, classes);
    }
    if next == text.len() {
        Ok(next)
    } else {
        Err(Unreadable::Wrong(Wrong(next)))
    }
}

// A tag: an opening one with its number, or the closing one of the innermost element that is open, and the place after it.
#[derive(Clone, Copy)]
pub enum Step {
    Opens(u8, usize),
    Closes(usize),
}

// The tag whose `<` stands at `at`, where so many elements are open, with these numbers.
fn read_tag(
    text: &[u8],
    at: usize,
    classes: &[u8; 256],
    numbers: &[u8; 10924],
    depth: usize,
) -> Result<Step, Wrong>
    requires at_in_bounds { (at < length text.now) × (get_or text.now at 0 ≡ 60) × Numbered numbers.now depth }
    requires table { IsTable classes.now }
    ensures { StepRead text.now at numbers.now depth result }
{
    let slash = at + 1;
    if class_at(text, slash, classes) != SLASH {
        let (number, inside) = open_tag(text, at, classes)?;
        return Ok(Step::Opens(number, inside));
    }
    if depth == 0 {
        return Err(Wrong(slash));
    }
    let after = close_tag(text, at, numbers[depth - 1])?;
    Ok(Step::Closes(after))
}

// Reads a text whose first byte that is no space stands at `first`, however deep its elements are: the numbers of those that are open are kept in
// a list.
fn read_deep(
    text: &[u8],
    classes: &[u8; 256],
    nodes: &mut [u8; 10924],
    first: usize,
) -> Result<usize, Wrong>
    requires text_len_bound { (length text.now ≤ 32768) × (length nodes.old ≡ 10924) × Skipped text.now 0 first × (first < length text.now) }
    requires table { IsTable classes.now }
    ensures { (result ≡ parse_of (wrong_place text.now) (length (nodes_in text.now))) × Listed text.now nodes.new result }
{
    let mut numbers = [0u8; 10924];
    let mut depth = 0;
    let mut count = 0;
    let mut next = first;
    while class_at(text, next, classes) == LESS {
        let step = read_tag(text, next, classes, &numbers, depth)?;
        match step {
            Step::Opens(number, inside) => {
                nodes[count] = number;
                count += 1;
                numbers[depth] = number;
                depth += 1;
                next = skip(text, inside, classes);
            }
            Step::Closes(after) => {
                nodes[count] = 0;
                count += 1;
                depth -= 1;
                next = skip(text, after, classes);
            }
        }
    }
    if next < text.len() {
        return Err(Wrong(next));
    }
    if depth != 0 {
        return Err(Wrong(next));
    }
    nodes[count] = 0;
    Ok(count + 1)
}

// The levels that the tree of a text may have: what is deeper is refused, but not before all of the text is read.
const LEVELS: usize = 64;

// Reads a text: its nodes, in preorder, go to the front of the list. Three bytes or more stand for each of them, and the last is the end's.
pub fn read_text(text: &[u8], nodes: &mut [u8; 10924]) -> Result<usize, Wrong>
    requires { (length text.now ≤ 32768) × (length nodes.old ≡ 10924) }
    ensures { (result ≡ parse_of (wrong_place text.now) (length (nodes_in text.now))) × Listed text.now nodes.new result }
{
    let classes = class_table();
    let first = skip(text, 0, &classes);
    if first == text.len() {
        return Err(Wrong(first));
    }
    let mut count = 0;
    match run(text, first, &classes, nodes, &mut count, LEVELS) {
        Err(Unreadable::Deep) => read_deep(text, &classes, nodes, first),
        Err(Unreadable::Wrong(wrong)) => Err(wrong),
        Ok(end) => {
            if end != text.len() {
                return Err(Wrong(end + 1));
            }
            nodes[count] = 0;
            Ok(count + 1)
        }
    }
}
