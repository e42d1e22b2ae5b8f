//! Reads and writes of a file at a place, all of a piece at a time.
ghost use Rattle.std.specs.Prelude.{◌≡◌, ◌<◌, ◌≤◌, ◌+◌, ◌^◌, ◌↔◌, length, IsTrue, IfOk};

use crate::faults::TRIES;
use std::os::unix::fs::FileExt;
use std::{fs, io};

/// The greatest place that the system takes.
const MAX_PLACE: u64 = (1 << 63) - 1;

/// Whether the system takes the places from `at` to `len` bytes past it.
pub(crate) fn has_places(at: u64, len: usize) -> bool
    ensures { IsTrue result ↔ (at + len < 2 ^ 63) }
{
    at <= MAX_PLACE && len as u64 <= MAX_PLACE - at
}

/// Fills `into` with the file's bytes from `at` on, and with zeros past its end.
pub(crate) fn fill_from(file: &fs::File, at: u64, into: &mut [u8]) -> io::Result<()>
    requires { at + length into.old < 2 ^ 63 }
{
    let mut done = 0;
    while done < into.len() {
        let got = read_once(file, at + done as u64, &mut into[done..])?;
        if got == 0 {
            break;
        }
        done += got;
    }
    into[done..].fill(0);
    Ok(())
}

/// Writes all of `from` at `at`.
pub(crate) fn write_whole(file: &fs::File, at: u64, from: &[u8]) -> io::Result<()>
    requires { at + length from.now < 2 ^ 63 }
{
    let mut done = 0;
    while done < from.len() {
        done += write_once(file, at + done as u64, &from[done..])?;
    }
    Ok(())
}

/// One read, made again where a signal interrupts it.
fn read_once(file: &fs::File, at: u64, into: &mut [u8]) -> io::Result<usize>
    ensures { IfOk result (λ n. n ≤ length into.old) }
{
    for _ in 0..TRIES {
        match file.read_at(into, at) {
            Err(error) if error.kind() == io::ErrorKind::Interrupted => {}
            answer => return answer,
        }
    }
    Err(io::ErrorKind::Interrupted.into())
}

/// One write, made again where a signal interrupts it. One that takes nothing of some bytes is an
/// error.
fn write_once(file: &fs::File, at: u64, from: &[u8]) -> io::Result<usize>
    ensures within { IfOk result (λ n. n ≤ length from.now) }
    ensures some { IfOk result (λ n. 0 < length from.now → 0 < n) }
{
    for _ in 0..TRIES {
        match file.write_at(from, at) {
            Ok(0) if !from.is_empty() => return Err(io::ErrorKind::WriteZero.into()),
            Err(error) if error.kind() == io::ErrorKind::Interrupted => {}
            answer => return answer,
        }
    }
    Err(io::ErrorKind::Interrupted.into())
}
