//! Calls on a file as a disk.

use st_edge::{Disk, Failed, FileDisk};
use std::alloc::{AllocError, Global};
use std::fmt::Write;
use std::rt::Files;
use std::{fs, io};

/// The answers of a table of calls, one a line, made one after another: `length`, `read AT`, `write AT TEXT`, `sync`, and
/// `there PATH`, whether a file is there. A line `> PATH` begins with a new disk, the file at this path.
pub fn answered<R: Files<File = fs::File> + AllocGlobal + Copy + Drop>(
    rt: R,
    text: &str,
) -> io::Result<String> {
    let alloc = rt.alloc();
    let mut answers = String::new(alloc);
    let mut count = 0u64;
    let mut disk = FileDisk::new(rt, String::new(alloc));
    for line in text.lines() {
        if let Some(path) = line.strip_prefix("> ") {
            disk = FileDisk::new(rt, String::from_str(alloc, path)?);
        } else if !line.is_empty() && !line.starts_with("# ") {
            let answer = answer(rt, &mut disk, line)?;
            writeln!(answers, "{line} => {answer}")?;
            count = count.saturating_add(1);
        }
    }
    writeln!(answers, "disk.txt: {count} cases")?;
    Ok(answers)
}

/// What a call is answered.
fn answer<R: Files + AllocGlobal + Drop, D: Disk>(
    rt: R,
    disk: &mut D,
    line: &str,
) -> io::Result<String> {
    match line.strip_prefix("there ") {
        Some(path) => {
            let is_there = fs::exists(&rt, path)?;
            Ok(format!(in rt.alloc(); "{is_there}")?)
        }
        None => Ok(call(rt.alloc(), disk, line)?),
    }
}

/// What a disk answers to a call.
fn call<D: Disk>(alloc: Global, disk: &mut D, line: &str) -> Result<String, AllocError> {
    let (name, rest) = line.split_once(' ').unwrap_or((line, ""));
    let (at, text) = rest.split_once(' ').unwrap_or((rest, ""));
    let at = at.parse::<u64>().unwrap_or(0);
    match name {
        "length" => length(alloc, disk),
        "read" => read(alloc, disk, at),
        "write" => done(alloc, disk.write_at(at, text.as_bytes())),
        _ => done(alloc, disk.sync()),
    }
}

fn length<D: Disk>(alloc: Global, disk: &mut D) -> Result<String, AllocError> {
    match disk.length() {
        Ok(length) => format!(in alloc; "{length}"),
        Err(Failed) => String::from_str(alloc, "failed"),
    }
}

/// Reads six bytes, which are told in hexadecimal digits.
fn read<D: Disk>(alloc: Global, disk: &mut D, at: u64) -> Result<String, AllocError> {
    let mut piece = [7; 6];
    match disk.read(at, &mut piece) {
        Ok(()) => hex::encode(alloc, piece.as_slice()),
        Err(Failed) => String::from_str(alloc, "failed"),
    }
}

fn done(alloc: Global, answer: Result<(), Failed>) -> Result<String, AllocError> {
    match answer {
        Ok(()) => String::from_str(alloc, "ok"),
        Err(Failed) => String::from_str(alloc, "failed"),
    }
}
