//! proofspace: reads its words and standard input, answers on standard output, and ends with a status.
#![tactic(auto)]

use ps_io::{HostSink, HostSource, OpenGate};
use ps_modes::{Status, run};
use std::alloc::AllocError;
use std::process::ExitCode;
use std::rt::Env;
use std::string::String;
use std::{env, io};

fn main(rt: HostRuntime) -> ExitCode {
    let Ok(words) = words_of(&rt) else {
        return ExitCode::from(Status::NoMemory.code());
    };
    let mut source = HostSource::new(rt.stdin());
    let mut sink = HostSink::new(rt.stdout());
    ExitCode::from(run(
        &rt,
        rt.alloc(),
        words.as_slice(),
        &mut source,
        &mut sink,
        &OpenGate,
    ))
}

/// The words of the command line. Words that aren't text ask for nothing that is built, as no words do.
fn words_of<R: Env + AllocGlobal>(rt: &R) -> Result<Vec<String>, AllocError> {
    match env::args(rt) {
        Ok(words) => words.collect(rt.alloc()),
        Err(error) if error.kind() == io::ErrorKind::OutOfMemory => Err(AllocError),
        Err(_) => Ok(Vec::new(rt.alloc())),
    }
}
