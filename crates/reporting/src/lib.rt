// The report on an automaton and a batch of trees: read from two descriptors, written to standard output.
#![tactic(auto)]

ghost use Rattle.std.specs.Prelude.{◌≡◌, List, ℕ, ◌+◌, ◌-◌, ◌≤◌, leb, length, take, drop};
ghost use Rattle.algorithms.specs.Automaton.{Automaton};
ghost use Rattle.automaton.specs.File.{WithinLimits};
ghost use Rattle.transitions.specs.Transitions.{automaton_of};
ghost use Rattle.overloops.specs.Ready.{Headed};
ghost use Rattle.classes.specs.Prepared.{ReadyFor};
ghost use Rattle.class_tables.specs.Cache.{Cached};
ghost use Rattle.tally.specs.Tally.{total};
ghost use Rattle.wording.specs.ReportLines.{refused_line, tally_line};
ghost use Rattle.report_text.specs.Report.{head_of};
ghost use Rattle.reporting.specs.Trace.{Asked, Handed};
ghost use Rattle.reporting.specs.Reported.{Tallied, Reported};

use automaton::Header;
use batch::count_rest;
use batch::part::judge_part;
use class_tables::Cache;
use classes::Prepared;
use counting::count_all;
use refusal::Refusal;
use tally::Tally;
use transitions::TransitionTable;

// A file descriptor.
#[derive(Clone, Copy)]
pub struct Descriptor(pub i32);

// Reads bytes from..to of a buffer; how many there were. (Of these bytes nothing is known.)
fn read_part(input: Descriptor, buffer: &mut [u8], from: usize, to: usize) -> usize
    requires { (from ≤ to) × (to ≤ length buffer.old) }
    ensures { (from + result ≤ to) × (take from buffer.new ≡ take from buffer.old) × Asked input (to - from) result
        × (length buffer.new ≡ length buffer.old) }
{
    io::read_full(input.0, &mut buffer[from..to])
}

// Moves bytes from..to of a buffer to its front; how many they are.
fn move_front(buffer: &mut [u8], from: usize, to: usize) -> usize
    requires { (from ≤ to) × (to ≤ length buffer.old) }
    ensures { (result ≡ to - from) × (length buffer.new ≡ length buffer.old)
        × (take result buffer.new ≡ drop from (take to buffer.old)) }
{
    let count = to - from;
    for i in 0..count {
        buffer[i] = buffer[from + i];
    }
    count
}

// Whether a tally counts no further.
fn is_full(tally: Tally) -> bool
    ensures { result ≡ leb 1000000 (total tally) }
{
    1000000 <= tally.accepted as u64 + tally.other as u64 + tally.refused as u64
}

// The tally of all files of the input: the buffer is filled, its whole files are judged and counted, and what is left is moved to its front.
// It ends, since a full buffer has a whole file, and the tally counts 1,000,000.
fn tally_pieces(
    header: Header,
    table: &TransitionTable,
    input: Descriptor,
    buffer: &mut [u8],
    answers: &mut [usize],
    cache: &mut Cache,
) -> Tally
    requires { WithinLimits header × (length buffer.old ≡ 65536) × (length answers.old ≡ 384) }
    ensures { (A : Automaton) → Headed A header table.now → Cached A cache.old → Tallied input A result }
{
    let mut tally = Tally {
        accepted: 0,
        other: 0,
        refused: 0,
    };
    let mut held: usize = 0;
    loop {
        let got = read_part(input, buffer, held, 65536);
        let all = held + got;
        let part = judge_part(header, table, &buffer[..all], answers, cache);
        let numbers = 3 * part.files;
        tally = count_all(tally, &answers[..numbers]);
        if !part.more {
            return tally;
        }
        if is_full(tally) {
            return tally;
        }
        if all < 65536 {
            return count_rest(tally, all - part.bytes);
        }
        held = move_front(buffer, part.bytes, all);
    }
}

// `tally_pieces`, with a buffer, and a cache that has no class yet.
fn tally_files(header: Header, table: &TransitionTable, input: Descriptor) -> Tally
    requires { WithinLimits header }
    ensures { (A : Automaton) → Headed A header table.now → Tallied input A result }
{
    let mut buffer = io::large_buffer();
    let mut answers = [0usize; 384];
    let mut cache = Cache::fresh();
    tally_pieces(header, table, input, &mut buffer, &mut answers, &mut cache)
}

// Hands a text to standard output; whether all of it was taken.
fn print(text: &[u8]) -> bool
    ensures { Handed text.now result }
{
    io::write_all(1, text)
}

fn print_refused(refusal: Refusal) -> bool
    ensures { Handed (refused_line refusal) result }
{
    let mut out = [0u8; 63];
    let end = wording::put_refused(&mut out, 0, refusal);
    print(&out[..end])
}

fn print_head(prepared: Prepared) -> bool
    requires { WithinLimits prepared.header }
    ensures { (p : List ℕ) → ReadyFor (automaton_of prepared.entry.header p) prepared.entry → Handed (head_of prepared.entry.header p) result }
{
    let mut out = [0u8; 232];
    let end = report_text::put_read(&mut out, prepared);
    print(&out[..end])
}

fn print_tally(tally: Tally) -> bool
    ensures { Handed (tally_line tally) result }
{
    let mut out = [0u8; 125];
    let end = wording::put_tally(&mut out, 0, tally);
    print(&out[..end])
}

fn report_file(file: &[u8], input: Descriptor) -> bool
    ensures { Reported file.now input result }
{
    let mut table = [0u32; 9216];
    let mut leaves = [0u32; 1536];
    match overloops::prepare(file, &mut table, &mut leaves) {
        Err(refusal) => print_refused(refusal),
        Ok(header) => {
            let prepared = Prepared {
                header,
                table: &table,
                leaves: &leaves,
            };
            let first = print_head(prepared);
            let tally = tally_files(header, &table, input);
            let last = print_tally(tally);
            first & last
        }
    }
}

// The report on the automaton's file behind one descriptor (as empty if it cannot be read) and the trees' files behind the other; whether all
// of it was taken. An automaton's file that is too long is known by one byte over the most.
pub fn report(automaton: Descriptor, input: Descriptor) -> bool
    ensures { (w : List ℕ) × Asked automaton 3073 (length w) × Reported w input result }
{
    let mut file = [0u8; 3073];
    let n = read_part(automaton, &mut file, 0, 3073);
    report_file(&file[..n], input)
}
