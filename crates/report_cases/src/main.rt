// Runs the report on stored pairs of an automaton's file and trees' files, NN.walker and NN.letters of the current directory, one after the
// other. tools/make_reports.py makes the files and, from documents 01 and 02 alone, the lines that are expected.
#![tactic(auto)]

ghost use Rattle.std.specs.Prelude.{◌<◌};

use reporting::Descriptor;
use std::fs::File;
use std::os::fd::AsRawFd;

const CASES: u8 = 51;

// The file of a name, if it can be opened.
fn opened(rt: &HostRuntime, name: &[u8]) -> Option<File> {
    match std::str::from_utf8(name) {
        Ok(name) => File::open(rt, name).ok(),
        Err(_) => None,
    }
}

// A file's descriptor; none that could be read from where it was not opened.
fn descriptor(file: &Option<File>) -> Descriptor {
    match file {
        Some(file) => Descriptor(file.as_raw_fd()),
        None => Descriptor(-1),
    }
}

fn report_case(rt: &HostRuntime, number: u8)
    requires { number < 100 }
{
    let tens = b'0' + number / 10;
    let ones = b'0' + number % 10;
    io::write_all(1, &[b'c', b'a', b's', b'e', b' ', tens, ones, b'\n']);
    let automaton = opened(rt, &[tens, ones, b'.', b'w', b'a', b'l', b'k', b'e', b'r']);
    let trees = opened(
        rt,
        &[tens, ones, b'.', b'l', b'e', b't', b't', b'e', b'r', b's'],
    );
    reporting::report(descriptor(&automaton), descriptor(&trees));
}

fn main(rt: HostRuntime) {
    for number in 0..CASES {
        report_case(&rt, number);
    }
}
