// The report program: the automaton's file is `walker.blk` of the current directory, the trees' files are the standard input. Where the output
// is lost it says so on standard error (tools/report makes a status of it).
#![tactic(auto)]

use reporting::Descriptor;
use std::fs::File;
use std::os::fd::AsRawFd;

fn main(rt: HostRuntime) {
    let opened = File::open(&rt, "walker.blk");
    let automaton = match &opened {
        Ok(file) => Descriptor(file.as_raw_fd()),
        Err(_) => Descriptor(-1),
    };
    if !reporting::report(automaton, Descriptor(0)) {
        io::write_all(2, b"report: output lost\n");
    }
}
