// The lines that tell the counts.
use log_counts::{
    AGREED, DIFFERENT, ENDED, FAULTS, FIRST_RUN, FIRST_WAY, HIGH, LATER, LENGTH, LONG, NOT_SINGLE,
    PAIRS, PARTED, PASSED, SECOND_RUN, SECOND_WAY, SEVERAL, STAYED,
};
use log_pairs::change::WAYS;
use sampling::access::number;
use sampling::report::{labelled, row, text};
use watch_trials::counts::refusals;

fn print_pairs(counts: &[usize]) {
    labelled(b"pairs=", number(counts, PAIRS));
    labelled(b" damaged=", number(counts, FAULTS));
    labelled(b" in several ways=", number(counts, SEVERAL));
    labelled(b" not single=", number(counts, NOT_SINGLE));
    text(b"\n");
}

fn print_ways(counts: &[usize]) {
    text(b"equal, beginning, longer, parted, another, slipped, ");
    text(b"low byte, high byte, state, repeated, dropped, swapped, random, empty\n");
    row(b"first log:", counts, FIRST_WAY, FIRST_WAY + WAYS);
    row(b"second log:", counts, SECOND_WAY, SECOND_WAY + WAYS);
}

fn print_extents(counts: &[usize]) {
    text(b"in full, in part, not at all, empty\n");
    row(b"agree:", counts, AGREED, AGREED + 4);
    row(b"first log lawful:", counts, FIRST_RUN, FIRST_RUN + 4);
    row(b"second log lawful:", counts, SECOND_RUN, SECOND_RUN + 4);
    row(
        b"not to the end, by first entry, node, state, step:",
        counts,
        ENDED,
        ENDED + 4,
    );
}

fn print_entries(counts: &[usize]) {
    labelled(b"lawful at nodes of 256 and more=", number(counts, HIGH));
    labelled(b" with a stay=", number(counts, STAYED));
    labelled(b" on from a final root=", number(counts, PASSED));
    labelled(b" over 20001 entries=", number(counts, LONG));
    labelled(b" from a later start state=", number(counts, LATER));
    labelled(b"\nparted and both lawful there=", number(counts, PARTED));
    text(b"\n");
}

fn print_refusals(counts: &[usize]) {
    refusals(b"automaton refused, 1 to 12:", counts, 0);
    refusals(b"tree refused, 1 to 12:", counts, 1);
    row(
        b"refused 23, first log, second log:",
        counts,
        LENGTH,
        LENGTH + 2,
    );
}

pub fn print(counts: &[usize]) {
    print_pairs(counts);
    print_ways(counts);
    print_extents(counts);
    print_entries(counts);
    print_refusals(counts);
    labelled(b"different=", number(counts, DIFFERENT));
    text(b"\n");
}
