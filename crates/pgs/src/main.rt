//! The program `pgs`: the top call over the standard streams.
#![tactic(auto)]

use pgs_edge::{StdSink, StdSource};
use pgs_top::{Status, top};
use std::process::ExitCode;
use std::{env, io};

// The words behind the program's name.
fn command_words(rt: &HostRuntime) -> io::Result<Vec<String>> {
    let mut words = Vec::new(rt.alloc());
    for word in env::args(rt)?.skip(1) {
        words.push(word)?;
    }
    Ok(words)
}

// Says on standard error how the run ended, unless it went well.
fn say(rt: &HostRuntime, status: Status) {
    if status.number() == 0 {
        return;
    }
    let _ = eprintln!(rt; "pgs: {status}");
}

fn run(rt: &HostRuntime) -> Status {
    let Ok(words) = command_words(rt) else {
        return Status::Memory;
    };
    let mut source = StdSource::new(rt.stdin());
    let mut sink = StdSink::new(rt.stdout());
    top(rt.alloc(), words.as_slice(), &mut source, &mut sink).status
}

fn main(rt: HostRuntime) -> ExitCode {
    let status = run(&rt);
    say(&rt, status);
    ExitCode::from(status.number())
}
