//! The program `specs`: its words, the files and the standard output, and the call that does all the rest.
#![tactic(auto)]

use outside::{FileShelf, OutSink};
use std::alloc::AllocError;
use std::env;
use std::io::ErrorKind;
use std::process::ExitCode;
use wave_shell::{Status, run_alone};

/// The words after the program's name. Where one is no text there are none, and no words fit no command.
fn words(rt: &HostRuntime) -> Result<Vec<String>, AllocError> {
    match env::args(rt) {
        Ok(args) => args.skip(1).collect(rt.alloc()),
        Err(error) if error.kind() == ErrorKind::OutOfMemory => Err(AllocError),
        Err(_) => Ok(Vec::new(rt.alloc())),
    }
}

/// Runs the program over the files that the words name and the standard output.
#[tactic(auto, using(wave_shell::proofs::Names::deck_among, wave_shell::proofs::Names::script_among))]
fn run(rt: &HostRuntime) -> Status {
    let Ok(words) = words(rt) else {
        return Status::Memory;
    };
    let Ok(mut shelf) = FileShelf::of(rt, rt.alloc(), &words) else {
        return Status::Memory;
    };
    run_alone(rt.alloc(), &words, &mut shelf, &mut OutSink::new(rt))
}

fn main(rt: HostRuntime) -> ExitCode {
    ExitCode::from(run(&rt).code())
}
