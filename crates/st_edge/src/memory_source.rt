ghost use Rattle.std.specs.Prelude.{◌≡◌, ◌<◌, ◌≤◌, ◌↔◌, ◌+◌, length, take, drop, min, Some, IsErr, IfOk, OnOk, OnErr};
ghost use Rattle.std.specs.Io.KnownBytes.{Keeps, Consumes, IsAtEnd};
ghost use Rattle.st_edge.specs.Faults.{Rose};
ghost use Rattle.st_edge.specs.Memory.{next, FailsNext, MakesCall};

use crate::front::copy_front;
use crate::schedule::Schedule;
use crate::{Failed, Source};
use std::marker::Model;

/// A source over bytes in memory, some of whose calls fail. A call that doesn't fail gives as many
/// bytes as fit.
#[derive(Drop)]
pub struct MemorySource {
    bytes: Vec<u8>,
    at: usize,
    schedule: Schedule,
}

impl Model for MemorySource {
    ghost use Rattle.std.specs.Prelude.{◌≤◌, drop, length};
    ghost use Rattle.st_edge.specs.Memory.{Memory};

    ghost Value = { Memory };

    ghost view = { λ s. record { bytes = drop s.at s.bytes.items; failing = s.schedule.failing.items; calls = s.schedule.calls; faults = s.schedule.faults } };

    ghost invariant = { λ s. s.at ≤ length s.bytes.items };
}

impl MemorySource {
    /// A source of `bytes`. `failing` has the numbers of the calls that are to fail, from 1.
    pub fn new(bytes: Vec<u8>, failing: Vec<u64>) -> MemorySource
        ensures { result ≡ record { bytes = bytes.items; failing = failing.items; calls = 0; faults = 0 } }
    {
        MemorySource {
            bytes,
            at: 0,
            schedule: Schedule::new(failing),
        }
    }
}

impl Source for MemorySource {
    ghost state = { λ s. record { left = Some s.bytes; faults = s.faults } };

    fn read(&mut self, into: &mut [u8]) -> Result<usize, Failed>
        ensures within { IfOk result (λ n. n ≤ length into.old) }
        ensures taken { IfOk result (λ n. Consumes (Some self.old.bytes) (Some self.new.bytes) (take n into.new)) }
        ensures end { IfOk result (λ n. n ≡ 0 → 0 < length into.old → IsAtEnd (Some self.old.bytes)) }
        ensures kept { OnErr result (Keeps (Some self.old.bytes) (Some self.new.bytes)) }
        ensures never_falls { self.old.faults ≤ self.new.faults }
        ensures cause { OnErr result (Rose self.old.faults self.new.faults) }
        ensures fails { IsErr result ↔ FailsNext self.old }
        ensures counted { OnErr result (self.new.faults ≡ next self.old.faults) }
        ensures uncounted { OnOk result (self.new.faults ≡ self.old.faults) }
        ensures call { MakesCall self.old self.new }
        ensures fills { IfOk result (λ n. n ≡ min (length into.old) (length self.old.bytes)) }
    {
        self.schedule.begin()?;
        let count = copy_front(&self.bytes[self.at..], into);
        self.at += count;
        Ok(count)
    }
}
