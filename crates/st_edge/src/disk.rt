ghost use Rattle.std.specs.Prelude.{◌≡◌, ℕ, ◌≤◌, List, Option, length, IfOk, IfSome, OnOk, OnErr};
ghost use Rattle.std.specs.Io.KnownBytes.{Keeps};
ghost use Rattle.st_edge.specs.Bytes.{read_at, written_at, Becomes};
ghost use Rattle.st_edge.specs.Faults.{Rose};

use crate::Failed;

/// A row of bytes that is read and written at places counted from 0, and that grows as it is
/// written.
pub trait Disk {
    // The bytes on the disk, where it tells them.
    ghost bytes: { Self → Option (List ℕ) };

    // How often a call has failed.
    ghost faults: { Self → ℕ };

    /// How many bytes the disk has.
    ///
    /// # Errors
    /// `Failed` where the outside fails. The count has risen.
    fn length(&mut self) -> Result<u64, Failed>
        ensures exact { IfOk result (λ n. IfSome (bytes self.old) (λ b. n ≡ length b)) }
        ensures kept { Keeps (bytes self.old) (bytes self.new) }
        ensures never_falls { faults self.old ≤ faults self.new }
        ensures cause { OnErr result (Rose (faults self.old) (faults self.new)) };

    /// Fills `into` with the bytes from `at` on, and with zeros past the disk's end.
    ///
    /// # Errors
    /// `Failed` where the outside fails, with `into` left open. The count has risen.
    fn read(&mut self, at: u64, into: &mut [u8]) -> Result<(), Failed>
        ensures exact { OnOk result (IfSome (bytes self.old) (λ b. into.new ≡ read_at b at (length into.old))) }
        ensures kept { Keeps (bytes self.old) (bytes self.new) }
        ensures never_falls { faults self.old ≤ faults self.new }
        ensures cause { OnErr result (Rose (faults self.old) (faults self.new)) };

    /// Writes all of `from` at `at`, and zeros in a gap between the disk's end and `at`. A write of
    /// nothing changes nothing.
    ///
    /// # Errors
    /// `Failed` where the outside fails, with the bytes of the disk left open. The count has risen.
    fn write_at(&mut self, at: u64, from: &[u8]) -> Result<(), Failed>
        ensures written { OnOk result (Becomes (bytes self.old) (bytes self.new) (λ b. written_at b at from.now)) }
        ensures never_falls { faults self.old ≤ faults self.new }
        ensures cause { OnErr result (Rose (faults self.old) (faults self.new)) };

    /// Answers only once all that was written would last through a crash of the machine.
    ///
    /// # Errors
    /// `Failed` where the outside fails: what was written since the last sync may last or not. The
    /// count has risen.
    fn sync(&mut self) -> Result<(), Failed>
        ensures kept { Keeps (bytes self.old) (bytes self.new) }
        ensures never_falls { faults self.old ≤ faults self.new }
        ensures cause { OnErr result (Rose (faults self.old) (faults self.new)) };
}
