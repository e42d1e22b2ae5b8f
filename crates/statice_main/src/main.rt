//! The program: gives its words, a file as the disk and the standard streams to `statice`, and ends
//! with the status that it answers.
#![tactic(auto)]

use st_edge::{FileDisk, StdinSource, StdoutSink};
use statice::{Status, statice};
use std::alloc::AllocError;
use std::env;
use std::io::ErrorKind;
use std::process::ExitCode;

/// The status where memory runs out before `statice` has its words.
const OUT_OF_MEMORY: Status = 8;

/// The words behind the program's name. Where one of them isn't UTF-8 there are none.
///
/// # Errors
/// `AllocError` where memory runs out.
fn words_of(rt: HostRuntime) -> Result<Vec<String>, AllocError> {
    match env::args(&rt) {
        Ok(arguments) => arguments.skip(1).collect(rt.alloc()),
        Err(error) if error.kind() == ErrorKind::OutOfMemory => Err(AllocError),
        Err(_) => Ok(Vec::new(rt.alloc())),
    }
}

/// Runs the words behind the first, which is the path of the database's file.
///
/// # Errors
/// `AllocError` where memory runs out before the run.
fn run(rt: HostRuntime) -> Result<Status, AllocError> {
    let mut words = words_of(rt)?.into_iter();
    let path = words.next().unwrap_or(String::new(rt.alloc()));
    let words: Vec<String> = words.collect(rt.alloc())?;
    let (status, _disk) = statice(
        rt.alloc(),
        &words,
        FileDisk::new(rt, path),
        &mut StdinSource::new(rt),
        &mut StdoutSink::new(rt),
    );
    Ok(status)
}

fn main(rt: HostRuntime) -> ExitCode {
    ExitCode::from(run(rt).unwrap_or(OUT_OF_MEMORY))
}
