// An automaton's file in its one form (document 02, W4): place 3 spread, repeats dropped, the rules in rising order of their five bytes. It is read
// by document 01's table at all times, with `automaton::file::parse`.
#![tactic(auto)]

ghost use Rattle.std.specs.Prelude.{◌≡◌, List, ◌*◌, ◌%◌, ◌≤◌, length};
ghost use Rattle.automaton.specs.File.{WithinLimits};
ghost use Rattle.automaton.specs.Payload.{records_of};
ghost use Rattle.automaton.specs.declared.Rule.{Rule};
ghost use Rattle.block_writer.specs.Written.{filled};
ghost use Rattle.transitions.specs.Compiled.{next_in};
ghost use Rattle.rule_order.specs.Listed.{listed};
ghost use Rattle.canonical.specs.Canonical.{canonical_header, form_check_of, written_for, canonical_of};
ghost use Rattle.canonical.specs.Promise.{Promise};

use automaton::Header;
use automaton_writer::write_automaton;
use block_writer::room_check;
use refusal::{Fault, Refusal, refused};
use rule_order::write_rules;
use transitions::TransitionTable;

// Refusal 17, then 13, for so many rules.
#[tactic(auto, using(crate::proofs::OneForm::by_number))]
fn form_check(rules: usize, room: usize) -> Result<(), Refusal>
    ensures { result ≡ form_check_of rules room }
{
    if 512 < rules {
        return refused(Fault::Rules, 2, 0);
    }
    room_check(20 + 5 * rules, room)
}

// The counts and the sets, with the number of rules that remain.
fn with_rules(header: Header, rules: usize) -> Header
    requires { rules ≤ 512 }
    ensures { result ≡ canonical_header header rules }
{
    Header {
        states: header.states,
        symbols: header.symbols,
        rules: rules as u16,
        initial: header.initial,
        accepting: header.accepting,
        branches: header.branches,
    }
}

// Writes the file of these rule records, unless 17 or 13 stops it.
fn write_records(header: Header, records: &[u8], out: &mut [u8]) -> Result<usize, Refusal>
    requires { length records.now % 5 ≡ 0 }
    ensures { (rules : List Rule) → records.now ≡ records_of rules
        → filled result out.new ≡ written_for header rules out.old }
{
    let rules = records.len() / 5;
    form_check(rules, out.len())?;
    Ok(write_automaton(with_rules(header, rules), records, out))
}

// The same by compiled transitions: a file's rules are 512 at the most, and so 1,536 after spreading.
fn write_table(header: Header, table: &TransitionTable, out: &mut [u8]) -> Result<usize, Refusal>
    requires { WithinLimits header × (5 * length (listed (next_in table.now) header.states header.symbols) ≤ 7680) }
    ensures { filled result out.new
        ≡ written_for header (listed (next_in table.now) header.states header.symbols) out.old }
{
    let mut records = [0u8; 7680];
    let len = write_rules(header, table, &mut records);
    write_records(header, &records[..len], out)
}

// Writes an automaton's file in its one form to the front of `out`.
pub fn write(file: &[u8], out: &mut [u8]) -> Result<usize, Refusal>
    ensures equals { filled result out.new ≡ canonical_of file.now out.old }
    ensures right { Promise file.now out.old (filled result out.new) }
{
    let mut contents = [0u8; 3048];
    let header = automaton::file::parse(file, &mut contents)?;
    let mut table = [0u32; 9216];
    let len = blocks::content_length(file);
    transitions::compile(&contents[..len], header, &mut table);
    write_table(header, &table, out)
}
