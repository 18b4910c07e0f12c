// The rules of a file: five bytes each, from offset 20 of the joined contents.
ghost use Rattle.std.specs.Prelude.{◌≡◌, ◌&&◌, ◌+◌, ◌*◌, ◌≤◌, ◌<◌, ltb, length};
ghost use Rattle.refusal.specs.Checks.{check_each};
ghost use Rattle.automaton.specs.Rules.{sort_place, sort_move, sorted, rule_at, may_be_root, misplaced, rule_check};

use crate::{Header, Rule, Scope};
use algorithms::is_branch;
use model::{Move, Place, Side, State, Symbol};
use refusal::{Fault, Refusal, refused};

// The places that a byte stands for.
#[tactic(auto, unfolding(crate::specs::Rules::sort_place))]
fn sort_place(b: u8) -> Option<Scope>
    ensures { result ≡ sort_place b }
{
    match b {
        0 => Some(Scope::Only(Place::Root)),
        1 => Some(Scope::Only(Place::Child(Side::Left))),
        2 => Some(Scope::Only(Place::Child(Side::Right))),
        3 => Some(Scope::Every),
        4..=255 => None,
    }
}

// The move that a byte stands for.
#[tactic(auto, unfolding(crate::specs::Rules::sort_move))]
fn sort_move(b: u8) -> Option<Move>
    ensures { result ≡ sort_move b }
{
    match b {
        0 => Some(Move::Stay),
        1 => Some(Move::Up),
        2 => Some(Move::Down(Side::Left)),
        3 => Some(Move::Down(Side::Right)),
        4..=255 => None,
    }
}

// The rule of five bytes, where the place and the move are known.
fn sort_rule(symbol: u8, state: u8, place: u8, step: u8, next: u8) -> Option<Rule>
    ensures { result ≡ sorted symbol state (sort_place place) (sort_move step) next }
{
    let scope = sort_place(place)?;
    let step = sort_move(step)?;
    Some(Rule {
        symbol: Symbol(symbol),
        state: State(state),
        scope,
        step,
        next: State(next),
    })
}

// Whether the automaton has the symbol and the two states of a rule.
fn are_known(header: Header, symbol: u8, state: u8, next: u8) -> bool
    ensures { result ≡ (ltb symbol header.symbols && ltb state header.states && ltb next header.states) }
{
    if header.symbols <= symbol {
        return false;
    }
    if header.states <= state {
        return false;
    }
    next < header.states
}

// Rule i, where each of its five bytes has a value that there is.
#[tactic(auto, unfolding(crate::specs::Rules::rule_at))]
pub fn rule_at(content: &[u8], header: Header, i: usize) -> Option<Rule>
    requires { 25 + 5 * i ≤ length content.now }
    ensures { result ≡ rule_at header content.now i }
{
    let at = 20 + 5 * i;
    let symbol = content[at];
    let state = content[at + 1];
    let next = content[at + 4];
    if are_known(header, symbol, state, next) {
        return sort_rule(symbol, state, content[at + 2], content[at + 3], next);
    }
    None
}

// Whether a rule may apply at the root.
fn may_be_root(scope: Scope) -> bool
    ensures { result ≡ may_be_root scope }
{
    match scope {
        Scope::Only(place) => match place {
            Place::Root => true,
            Place::Child(_) => false,
        },
        Scope::Every => true,
    }
}

// Whether a rule moves down at a leaf, or up where it may apply at the root.
#[tactic(auto, unfolding(crate::specs::Rules::misplaced))]
fn is_misplaced(branches: u32, rule: Rule) -> bool
    ensures { result ≡ misplaced branches rule }
{
    let step = rule.step;
    let scope = rule.scope;
    let symbol = rule.symbol;
    match step {
        Move::Stay => false,
        Move::Up => may_be_root(scope),
        Move::Down(_) => !is_branch(branches, symbol),
    }
}

// Lines 8 and 9 of rule i.
#[tactic(auto, unfolding(crate::specs::Rules::rule_check))]
fn rule_check(content: &[u8], header: Header, i: usize) -> Result<(), Refusal>
    requires { 25 + 5 * i ≤ length content.now }
    ensures { result ≡ rule_check header content.now i }
{
    let Some(rule) = rule_at(content, header, i) else {
        return refused(Fault::Value, 0, i);
    };
    if is_misplaced(header.branches, rule) {
        return refused(Fault::Move, 0, i);
    }
    Ok(())
}

// Lines 8 and 9, rule by rule.
pub fn rules_check(content: &[u8], header: Header) -> Result<(), Refusal>
    requires { 20 + 5 * header.rules ≤ length content.now }
    ensures { result ≡ check_each (rule_check header content.now) header.rules }
{
    let rules = header.rules as usize;
    for i in 0..rules {
        rule_check(content, header, i)?;
    }
    Ok(())
}
