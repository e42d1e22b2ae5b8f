ghost use Rattle.std.specs.Prelude.{◌≡◌, ◌<◌, ◌≤◌, ℕ, List, Ok, None, length, IfOk, IfSome, IsOk, OnOk, OnErr, replicate};
ghost use Rattle.std.specs.Io.KnownBytes.{Keeps};
ghost use Rattle.st_edge.specs.Bytes.{read_at, written_at, Becomes};
ghost use Rattle.st_edge.specs.Faults.{Rose};

use crate::{Disk, Failed};

/// A disk that never fails and keeps nothing: its length is 0, and it reads as zeros.
#[derive(Debug, Default, Drop)]
pub struct FaultlessDisk;

impl FaultlessDisk {
    /// A disk with no byte and no fault.
    pub fn new() -> FaultlessDisk {
        FaultlessDisk
    }
}

impl Disk for FaultlessDisk {
    ghost bytes = { λ _. None };

    ghost faults = { λ _. 0 };

    fn length(&mut self) -> Result<u64, Failed>
        ensures exact { IfOk result (λ n. IfSome None (λ (b : List ℕ). n ≡ length b)) }
        ensures kept { Keeps None None }
        ensures never_falls { 0 ≤ 0 }
        ensures cause { OnErr result (Rose 0 0) }
        ensures empty { result ≡ Ok 0 }
    {
        Ok(0)
    }

    fn read(&mut self, _at: u64, into: &mut [u8]) -> Result<(), Failed>
        ensures exact { OnOk result (IfSome None (λ b. into.new ≡ read_at b _at (length into.old))) }
        ensures kept { Keeps None None }
        ensures never_falls { 0 ≤ 0 }
        ensures cause { OnErr result (Rose 0 0) }
        ensures succeeds { IsOk result }
        ensures zeros { into.new ≡ replicate (length into.old) 0 }
    {
        into.fill(0);
        Ok(())
    }

    fn write_at(&mut self, _at: u64, _from: &[u8]) -> Result<(), Failed>
        ensures written { OnOk result (Becomes None None (λ b. written_at b _at _from.now)) }
        ensures never_falls { 0 ≤ 0 }
        ensures cause { OnErr result (Rose 0 0) }
        ensures succeeds { IsOk result }
    {
        Ok(())
    }

    fn sync(&mut self) -> Result<(), Failed>
        ensures kept { Keeps None None }
        ensures never_falls { 0 ≤ 0 }
        ensures cause { OnErr result (Rose 0 0) }
        ensures succeeds { IsOk result }
    {
        Ok(())
    }
}
