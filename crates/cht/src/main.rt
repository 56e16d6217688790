//! The program `cht`: the words of the command line and the standard streams, handed to the one call that does the
//! work. It ends with the number of the status: 0 done, 1 usage, 2 refused, 3 read fault, 4 write fault, 5 memory.
#![tactic(auto)]

use cht_core::Record;
use cht_io::{StdSink, StdSource};
use cht_run::cht;
use std::env;
use std::process::ExitCode;

// The words after the program's own name; none where they cannot be had or are no text.
fn words(rt: &HostRuntime) -> Vec<String> {
    let Ok(arguments) = env::args(rt) else {
        return Vec::new(rt.alloc());
    };
    match arguments.skip(1).collect(rt.alloc()) {
        Ok(words) => words,
        Err(_) => Vec::new(rt.alloc()),
    }
}

fn main(rt: HostRuntime) -> ExitCode {
    let words = words(&rt);
    let mut source = StdSource::new(rt.stdin());
    let mut out = StdSink::new(rt.stdout());
    let mut notes = StdSink::new(rt.stderr());
    let mut journal = Record::new(rt.alloc());
    let status = cht(
        rt.alloc(),
        &words,
        &mut source,
        &mut out,
        &mut notes,
        &mut journal,
    );
    ExitCode::from(status.number())
}
