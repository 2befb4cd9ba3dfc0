//! The program: collects its words, runs them over the files and streams of the machine, and ends with the run's
//! status.
#![tactic(auto)]

use ht_app::run;
use ht_ports::RealDesk;
use std::alloc::{AllocError, Global};
use std::env;
use std::io::ErrorKind;
use std::process::ExitCode;

/// The system doesn't give the program its words.
const NO_WORDS: u8 = 11;

/// No memory for the words.
const NO_MEMORY: u8 = 6;

fn main(rt: HostRuntime) -> ExitCode {
    let mut desk = RealDesk::new(&rt);
    let mut words = Vec::new(rt.alloc());
    let args = match env::args(&rt) {
        Ok(args) => args,
        Err(error) => {
            return match error.kind() {
                ErrorKind::OutOfMemory => ExitCode::from(NO_MEMORY),
                // A word isn't UTF-8, and so no command has it.
                ErrorKind::InvalidData => ExitCode::from(run(rt.alloc(), &[], &mut desk)),
                _ => ExitCode::from(NO_WORDS),
            };
        }
    };
    for word in args.skip(1) {
        if words.push(word).is_err() {
            return ExitCode::from(NO_MEMORY);
        }
    }
    ExitCode::from(run(rt.alloc(), &words, &mut desk))
}
