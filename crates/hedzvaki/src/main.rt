//! Runs the command that the program's words spell, over the system's files and standard output.
#![tactic(auto)]

use nd_base::{OpenGate, OutOfMemory};
use ndis_run::{RealFiles, RealSink, ndis_main};
use std::env;
use std::io::ErrorKind;
use std::process::ExitCode;
use std::rt::Env;

/// The status where no memory is left for the words.
const NO_MEMORY: u8 = 10;

fn main(rt: HostRuntime) -> ExitCode {
    let Ok(words) = words_of(&rt) else {
        return ExitCode::from(NO_MEMORY);
    };
    let mut files = RealFiles::new(&rt);
    let mut out = RealSink::new(&rt);
    let status = ndis_main(rt.alloc(), &rt, &words, &mut files, &mut out, &OpenGate);
    ExitCode::from(status)
}

/// The program's arguments, without its name: none where the system gives none.
fn words_of<R: Env + AllocGlobal>(rt: &R) -> Result<Vec<String>, OutOfMemory> {
    let args = match env::args(rt) {
        Ok(args) => args,
        Err(error) if error.kind() == ErrorKind::OutOfMemory => return Err(OutOfMemory),
        Err(_) => return Ok(Vec::new(rt.alloc())),
    };
    let mut words = Vec::new(rt.alloc());
    for word in args.skip(1) {
        words.push(word)?;
    }
    Ok(words)
}
