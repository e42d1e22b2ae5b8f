//! Commands of `statice`, over bytes in memory.

use crate::schemas::push_lines;
use st_cases::Case;
use st_edge::{FaultlessDisk, MemorySink, MemorySource, Source};
use statice::{Status, statice};
use std::alloc::{AllocError, Global};

/// The words of a line that has blanks between them.
fn words_of(alloc: Global, line: &str) -> Result<Vec<String>, AllocError> {
    let mut words = Vec::new(alloc);
    for word in line.split_whitespace() {
        words.push(String::from_str(alloc, word)?)?;
    }
    Ok(words)
}

/// What words are answered. The sink's call of this number fails, from 1; 0 is none.
fn run(
    alloc: Global,
    line: &str,
    source: &mut MemorySource,
    failing: u64,
) -> Result<String, AllocError> {
    let words = words_of(alloc, line)?;
    let mut sink = MemorySink::new(alloc, vec![in alloc; failing]?);
    let (status, _disk) = statice(alloc, &words, FaultlessDisk::new(), source, &mut sink);
    answer(alloc, status, sink.bytes())
}

/// A status and an output: its lines below the status where that is 0 or 1, else behind it.
fn answer(alloc: Global, status: Status, bytes: &[u8]) -> Result<String, AllocError> {
    let output = str::from_utf8(bytes).unwrap_or("bytes that are no UTF-8");
    let mut out = format!(in alloc; " {status}")?;
    match output.strip_suffix('\n') {
        Some(lines) if status < 2 => push_lines(&mut out, lines)?,
        Some(line) => {
            out.push(' ')?;
            out.push_str(line)?;
        }
        None => out.push_str(output)?,
    }
    Ok(out)
}

/// What `try` answers to an input, where the source's call and the sink's call of these numbers fail.
fn try_input(
    alloc: Global,
    input: Vec<u8>,
    failing_read: u64,
    failing_write: u64,
) -> Result<String, AllocError> {
    let mut source = MemorySource::new(input, vec![in alloc; failing_read]?);
    run(alloc, "try", &mut source, failing_write)
}

/// What `try` answers to a text behind its front.
pub fn tried(alloc: Global, case: &Case) -> Result<String, AllocError> {
    try_input(alloc, case.whole(alloc)?, 0, 0)
}

/// What `try` answers to the front, where a call fails: the case is `read N` or `write N`.
pub fn failed(alloc: Global, case: &Case) -> Result<String, AllocError> {
    let input = case.front.as_slice().to_vec(alloc)?;
    let (call, number) = case.text().split_once(' ').unwrap_or(("", ""));
    let number = number.parse::<u64>().unwrap_or(0);
    match call {
        "read" => try_input(alloc, input, number, 0),
        _ => try_input(alloc, input, 0, number),
    }
}

/// What other words are answered, and whether the source was read. Its first call fails, so that a call behind the run
/// tells whether there was one before.
pub fn commanded(alloc: Global, case: &Case) -> Result<String, AllocError> {
    let mut source = MemorySource::new(Vec::new(alloc), vec![in alloc; 1]?);
    let mut out = run(alloc, case.text(), &mut source, 0)?;
    match source.read(&mut [0]) {
        Err(_) => out.push_str(", and nothing was read")?,
        Ok(_) => out.push_str(", and the source was read")?,
    }
    Ok(out)
}
