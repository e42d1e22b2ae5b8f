ghost use Rattle.std.specs.Prelude.{◌≡◌, ◌<◌, ◌≤◌, length, take, min, Some, IsOk, IfOk, OnErr};
ghost use Rattle.std.specs.Io.KnownBytes.{Keeps, Consumes, IsAtEnd};
ghost use Rattle.st_edge.specs.Faults.{Rose};

use crate::front::copy_front;
use crate::{Failed, Source};
use std::marker::Model;

/// A source over bytes in memory that never fails. A call gives as many bytes as fit. Clauses see
/// it as the bytes still to be read.
#[derive(Drop)]
pub struct FaultlessSource {
    bytes: Vec<u8>,
    at: usize,
}

impl Model for FaultlessSource {
    ghost use Rattle.std.specs.Prelude.{◌≤◌, ℕ, List, drop, length};

    ghost Value = { List ℕ };

    ghost view = { λ s. drop s.at s.bytes.items };

    ghost invariant = { λ s. s.at ≤ length s.bytes.items };
}

impl FaultlessSource {
    /// A source of `bytes`.
    pub fn new(bytes: Vec<u8>) -> FaultlessSource
        ensures { result ≡ bytes.items }
    {
        FaultlessSource { bytes, at: 0 }
    }
}

impl Source for FaultlessSource {
    ghost state = { λ s. record { left = Some s; faults = 0 } };

    fn read(&mut self, into: &mut [u8]) -> Result<usize, Failed>
        ensures within { IfOk result (λ n. n ≤ length into.old) }
        ensures taken { IfOk result (λ n. Consumes (Some self.old) (Some self.new) (take n into.new)) }
        ensures end { IfOk result (λ n. n ≡ 0 → 0 < length into.old → IsAtEnd (Some self.old)) }
        ensures kept { OnErr result (Keeps (Some self.old) (Some self.new)) }
        ensures never_falls { 0 ≤ 0 }
        ensures cause { OnErr result (Rose 0 0) }
        ensures succeeds { IsOk result }
        ensures fills { IfOk result (λ n. n ≡ min (length into.old) (length self.old)) }
    {
        let count = copy_front(&self.bytes[self.at..], into);
        self.at += count;
        Ok(count)
    }
}
