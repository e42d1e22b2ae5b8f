ghost use Rattle.std.specs.Prelude.{◌≡◌, ◌<◌, ◌≤◌, None, length, IfOk};

use crate::faults::{TRIES, counted};
use crate::{Failed, Sink};
use std::io::{self, Print};

/// The process's standard output. It holds nothing back: what a call took, the system has. It tells
/// nothing of its bytes.
#[derive(Drop)]
pub struct StdoutSink<R> {
    rt: R,
    faults: u64,
}

impl<R: Print + Drop> StdoutSink<R> {
    /// The standard output of the process whose runtime this is.
    pub fn new(rt: R) -> StdoutSink<R>
        ensures { (⟦<StdoutSink<R> as Sink>⟧.state result).faults ≡ 0 }
    {
        StdoutSink { rt, faults: 0 }
    }
}

impl<R: Print + Drop> Sink for StdoutSink<R> {
    ghost state = { λ s. record { taken = None; faults = s.faults } };

    fn write(&mut self, from: &[u8]) -> Result<usize, Failed> {
        let answer = write_once(&self.rt, from);
        counted(answer, &mut self.faults)
    }
}

/// One write, made again where a signal interrupts it. One that takes nothing of some bytes is an
/// error.
fn write_once(rt: &impl Print, from: &[u8]) -> io::Result<usize>
    ensures within { IfOk result (λ n. n ≤ length from.now) }
    ensures some { IfOk result (λ n. 0 < length from.now → 0 < n) }
{
    for _ in 0..TRIES {
        match rt.write_some(from) {
            Ok(0) if !from.is_empty() => return Err(io::ErrorKind::WriteZero.into()),
            Err(error) if error.kind() == io::ErrorKind::Interrupted => {}
            answer => return answer,
        }
    }
    Err(io::ErrorKind::Interrupted.into())
}
