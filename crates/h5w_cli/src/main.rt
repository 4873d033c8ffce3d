//! The program `h5swmr`: it makes a source and a sink of the standard streams and a disk of the files, and runs what its words ask for.
#![tactic(auto)]

use h5w_commands::run;
use h5w_image::OpenGate;
use h5w_running::Ended;
use h5w_system::{FileDisk, StdSink, StdSource};
use h5w_text::{ErrorLine, say_line};
use std::alloc::AllocError;
use std::env;
use std::io::ErrorKind;
use std::process::ExitCode;

/// The words of the command line. Where they are not all text there are none, so that they are outside
/// the command set.
fn words(rt: &HostRuntime) -> Result<Vec<String>, AllocError> {
    match env::args(rt) {
        Ok(args) => args.collect(rt.alloc()),
        Err(e) if e.kind() == ErrorKind::OutOfMemory => Err(AllocError),
        Err(_) => Ok(Vec::new(rt.alloc())),
    }
}

fn main(rt: HostRuntime) -> ExitCode {
    let mut source = StdSource::new(rt.stdin());
    let mut sink = StdSink::new(rt.stdout());
    let mut disk = FileDisk::new(&rt);
    let ended = match words(&rt) {
        Ok(words) => run(
            &rt,
            rt.alloc(),
            &words,
            &mut source,
            &mut sink,
            &mut disk,
            &OpenGate,
        ),
        Err(_) => Ended::With(say_line(&ErrorLine::Memory, &mut sink)),
    };
    ExitCode::from(ended.number())
}
