//! The program `weld`: it hands its words, standard input and standard output to `weld_main`.
#![tactic(auto)]

use std::alloc::AllocError;
use std::env;
use std::io::{self, ErrorKind, Input, Print};
use std::process::ExitCode;
use std::rt::Env;
use std::thread::{Builder, Threads};
use weld_front::{Status, weld_main};
use weld_ports::{NoGate, StdinSource, StdoutSink};

/// The words after the program's name. Words that aren't text are in no form, as are none.
fn read_words(rt: &(impl Env + AllocGlobal)) -> Result<Vec<String>, AllocError> {
    let mut words = Vec::new(rt.alloc());
    match env::args(rt) {
        Ok(args) => {
            for word in args.skip(1) {
                words.push(word)?;
            }
        }
        Err(error) => {
            if error.kind() == ErrorKind::OutOfMemory {
                return Err(AllocError);
            }
        }
    }
    Ok(words)
}

/// The bytes of stack that a job which runs is given: many times what the deepest jobs that were tried took. Only what is
/// used of it takes memory.
const STACK: usize = 256 << 20;

/// Whether the first word asks for a check alone. That is as deep as the limits on texts let it be.
fn is_check(rt: &(impl Env + AllocGlobal)) -> bool {
    match env::args(rt) {
        Ok(args) => {
            let mut words = args.skip(1);
            match words.next() {
                Some(word) => word.as_str() == "check",
                None => false,
            }
        }
        Err(_) => false,
    }
}

/// The status of the job that the words and the standard input are.
fn answer<R: Threads + Sync + Env + Input + Print + AllocGlobal>(rt: &R) -> Status {
    let mut input = StdinSource::new(rt.reader());
    let mut output = StdoutSink::new(io::writer(rt));
    match read_words(rt) {
        Ok(words) => weld_main(
            rt,
            rt.alloc(),
            words.as_slice(),
            &mut input,
            &mut output,
            &NoGate,
        ),
        Err(_) => Status::Memory,
    }
}

/// A job that may run has a thread of its own, whose stack doesn't depend on what the system gives the program; it has the
/// program's own stack where no such thread can be made. A check has the program's own stack, and so its own memory, which
/// the system hands out in larger parts than a thread's.
fn main(rt: HostRuntime) -> ExitCode {
    if is_check(&rt) {
        return ExitCode::from(answer(&rt).exit());
    }
    let status = match Builder::new()
        .stack_size(STACK)
        .spawn(&rt, move || answer(&rt))
    {
        Ok(handle) => handle.join(&rt),
        Err(_) => answer(&rt),
    };
    ExitCode::from(status.exit())
}
