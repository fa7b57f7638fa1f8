//! Runs the events of an input through a network of switches, and writes what each of them did.
#![tactic(auto)]

mod next_event;
mod one_run;
mod run;
mod std_io;
#[cfg(test)]
mod tests;
mod top;
mod words;

use crate::std_io::{StdSink, StdSource};
use std::process::ExitCode;
use std::{env, io};

// Words of which one isn't UTF-8 are refused as others are.
fn main(rt: HostRuntime) -> ExitCode {
    let words = match env::args(&rt) {
        Ok(args) => args.skip(1).collect(rt.alloc()),
        Err(fault) if fault.kind() == io::ErrorKind::InvalidData => {
            return ExitCode::from(top::USAGE);
        }
        Err(_) => return ExitCode::from(top::NO_MEMORY),
    };
    let words: Vec<String> = match words {
        Ok(words) => words,
        Err(_) => return ExitCode::from(top::NO_MEMORY),
    };
    let mut source = StdSource::new(rt.reader());
    let mut sink = StdSink::new(io::writer(&rt));
    ExitCode::from(top::ovnsim(rt.alloc(), &words, &mut source, &mut sink))
}
