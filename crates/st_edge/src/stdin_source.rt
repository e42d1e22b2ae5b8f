ghost use Rattle.std.specs.Prelude.{◌≡◌, ◌<◌, ◌≤◌, length, take, IfOk, OnErr};
ghost use Rattle.std.specs.Io.KnownBytes.{Keeps, Consumes, IsAtEnd};

use crate::faults::{TRIES, counted};
use crate::{Failed, Source};
use std::io::{self, Input, Read};

/// The process's standard input, read as it comes, with nothing read ahead. It tells of its bytes
/// what its reader does, which is nothing at the system's own.
#[derive(Drop)]
pub struct StdinSource<I> {
    input: I,
    faults: u64,
}

impl<I: Read + Drop> StdinSource<I> {
    /// The standard input of the process whose runtime this is.
    pub fn new<R: Input<Reader = I> + Drop>(rt: R) -> StdinSource<I>
        ensures { (⟦<StdinSource<I> as Source>⟧.state result).faults ≡ 0 }
    {
        StdinSource {
            input: rt.reader(),
            faults: 0,
        }
    }
}

impl<I: Read + Drop> Source for StdinSource<I> {
    ghost state = { λ s. record { left = I.remaining s.input; faults = s.faults } };

    fn read(&mut self, into: &mut [u8]) -> Result<usize, Failed> {
        let answer = read_once(&mut self.input, into);
        counted(answer, &mut self.faults)
    }
}

/// One read, made again where a signal interrupts it.
fn read_once<I: Read>(input: &mut I, into: &mut [u8]) -> io::Result<usize>
    ensures within { IfOk result (λ n. n ≤ length into.old) }
    ensures taken { IfOk result (λ n. Consumes (I.remaining input.old) (I.remaining input.new) (take n into.new)) }
    ensures end { IfOk result (λ n. n ≡ 0 → 0 < length into.old → IsAtEnd (I.remaining input.old)) }
    ensures kept { OnErr result (Keeps (I.remaining input.old) (I.remaining input.new)) }
{
    for _ in 0..TRIES {
        match input.read(into) {
            Err(error) if error.kind() == io::ErrorKind::Interrupted => {}
            answer => return answer,
        }
    }
    Err(io::ErrorKind::Interrupted.into())
}
