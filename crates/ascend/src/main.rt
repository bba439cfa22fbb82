//! The program `ascend`: its words, the machine's files and standard output, and its exit status.
#![tactic(auto)]

mod std_host;

use crate::std_host::StdHost;
use asc_outside::HonestMemory;
use ascend_top::{Unfailing, ascend_over_honest_memory};
use bus_watch::Recorder;
use std::process::ExitCode;
use std::rt::{Env, Files};
use std::{env, io};

/// The words that the program was given, without its own name.
fn words<R: Env + AllocGlobal>(rt: &R) -> io::Result<Vec<String>> {
    let mut words = Vec::new(rt.alloc());
    for word in env::args(rt)?.skip(1) {
        words.push(word)?;
    }
    Ok(words)
}

fn run<R: Files + Print + Env + AllocGlobal>(rt: &R) -> u8 {
    let words = match words(rt) {
        Ok(words) => words,
        Err(error) if error.kind() == io::ErrorKind::OutOfMemory => return ascend_top::NO_MEMORY,
        Err(_) => return ascend_top::HOST_FAILED,
    };
    let alloc = rt.alloc();
    let mut host = StdHost::new(rt);
    let mut memory = Unfailing {
        memory: HonestMemory::new(alloc),
    };
    let mut tap = Recorder::new(alloc);
    ascend_over_honest_memory(alloc, words.as_slice(), &mut host, &mut memory, &mut tap)
}

fn main(rt: HostRuntime) -> ExitCode {
    ExitCode::from(run(&rt))
}
