ghost use Rattle.std.specs.Prelude.{◌≡◌, ◌<◌, ◌≤◌, length, None, IsOk, IfOk, OnErr};
ghost use Rattle.std.specs.Io.KnownBytes.{WriteAppends};
ghost use Rattle.st_edge.specs.Faults.{Rose};

use crate::{Failed, Sink};

/// A sink that takes all that it is given, keeps none of it and never fails.
#[derive(Debug, Default, Drop)]
pub struct FaultlessSink;

impl FaultlessSink {
    /// A sink with no fault.
    pub fn new() -> FaultlessSink {
        FaultlessSink
    }
}

impl Sink for FaultlessSink {
    ghost state = { λ _. record { taken = None; faults = 0 } };

    fn write(&mut self, from: &[u8]) -> Result<usize, Failed>
        ensures within { IfOk result (λ n. n ≤ length from.now) }
        ensures some { IfOk result (λ n. 0 < length from.now → 0 < n) }
        ensures bytes { WriteAppends None None result from.now }
        ensures never_falls { 0 ≤ 0 }
        ensures cause { OnErr result (Rose 0 0) }
        ensures succeeds { IsOk result }
        ensures all { IfOk result (λ n. n ≡ length from.now) }
    {
        Ok(from.len())
    }
}
