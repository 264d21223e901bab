//! The program `cilkp`: it passes its words, the files of the system and the standard output to the
//! top call, and exits with the status that the call returns, or with 6 if memory runs out. Words of
//! which one is not text are no command.
#![tactic(auto)]

use cilkp_program::call::cilkp;
use pipe_io::real::{RealFiles, RealSink};
use pipe_model::memory::NoMemory;
use pipe_worker::gate::OpenGate;
use std::env;
use std::io::ErrorKind;
use std::process::ExitCode;

// The status if memory runs out, which only the program returns.
const NO_MEMORY: u8 = 6;

// The words of the command line without the program's name; empty, which is not a command, if a
// word is not text.
fn words(rt: &HostRuntime) -> Result<Vec<String>, NoMemory> {
    let mut words = Vec::new(rt.alloc());
    match env::args(rt) {
        Ok(args) => {
            for word in args.skip(1) {
                words.push(word)?;
            }
        }
        Err(error) if error.kind() == ErrorKind::OutOfMemory => return Err(NoMemory),
        Err(_) => {}
    }
    Ok(words)
}

// Makes the top call with the real files and the real sink. Only `main` may lend threads.
fn main(rt: HostRuntime) -> ExitCode {
    let Ok(words) = words(&rt) else {
        return ExitCode::from(NO_MEMORY);
    };
    let mut files = RealFiles::new(&rt);
    let mut out = RealSink::new(&rt);
    match cilkp(
        &rt,
        rt.alloc(),
        words.as_slice(),
        &mut files,
        &mut out,
        &OpenGate,
    ) {
        Ok(ended) => ExitCode::from(ended.status),
        Err(NoMemory) => ExitCode::from(NO_MEMORY),
    }
}
