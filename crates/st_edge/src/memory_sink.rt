ghost use Rattle.std.specs.Prelude.{◌≡◌, ◌<◌, ◌≤◌, [], length, Some, IsErr, IfOk, OnOk, OnErr};
ghost use Rattle.std.specs.Io.KnownBytes.{WriteAppends};
ghost use Rattle.st_edge.specs.Faults.{Rose};
ghost use Rattle.st_edge.specs.Memory.{next, FailsNext, MakesCall};

use crate::schedule::Schedule;
use crate::{Failed, Sink};
use std::alloc::Global;
use std::marker::Model;

/// A sink that keeps its bytes in memory, some of whose calls fail. A call that doesn't fail takes
/// all that it is given. A call that finds no memory fails too.
#[derive(Drop)]
pub struct MemorySink {
    bytes: Vec<u8>,
    schedule: Schedule,
}

impl Model for MemorySink {
    ghost use Rattle.st_edge.specs.Memory.{Memory};

    ghost Value = { Memory };

    ghost view = { λ s. record { bytes = s.bytes.items; failing = s.schedule.failing.items; calls = s.schedule.calls; faults = s.schedule.faults } };
}

impl MemorySink {
    /// A sink that has taken nothing. `failing` has the numbers of the calls that are to fail, from 1.
    pub fn new(alloc: Global, failing: Vec<u64>) -> MemorySink
        ensures { result ≡ record { bytes = []; failing = failing.items; calls = 0; faults = 0 } }
    {
        MemorySink {
            bytes: Vec::new(alloc),
            schedule: Schedule::new(failing),
        }
    }

    /// All bytes that were taken.
    pub fn bytes(&self) -> &[u8]
        ensures { result.now ≡ self.now.bytes }
    {
        &self.bytes
    }
}

impl Sink for MemorySink {
    ghost state = { λ s. record { taken = Some s.bytes; faults = s.faults } };

    fn write(&mut self, from: &[u8]) -> Result<usize, Failed>
        ensures within { IfOk result (λ n. n ≤ length from.now) }
        ensures some { IfOk result (λ n. 0 < length from.now → 0 < n) }
        ensures bytes { WriteAppends (Some self.old.bytes) (Some self.new.bytes) result from.now }
        ensures never_falls { self.old.faults ≤ self.new.faults }
        ensures cause { OnErr result (Rose self.old.faults self.new.faults) }
        ensures fails { FailsNext self.old → IsErr result }
        ensures counted { OnErr result (self.new.faults ≡ next self.old.faults) }
        ensures uncounted { OnOk result (self.new.faults ≡ self.old.faults) }
        ensures call { MakesCall self.old self.new }
        ensures all { IfOk result (λ n. n ≡ length from.now) }
    {
        self.schedule.begin()?;
        if self.bytes.extend_from_slice(from).is_err() {
            return Err(self.schedule.fail());
        }
        Ok(from.len())
    }
}
