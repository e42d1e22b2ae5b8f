ghost use Rattle.std.specs.Prelude.{◌≡◌, ◌<◌, ◌≤◌, length, take, IfOk, OnErr};
ghost use Rattle.std.specs.Io.KnownBytes.{Keeps, Consumes, IsAtEnd};
ghost use Rattle.st_edge.specs.Faults.{Rose};
ghost use Rattle.st_edge.specs.States.{SourceState};

use crate::Failed;

/// What gives bytes, a piece at a time.
pub trait Source {
    // What the source tells: the bytes still to be read, and how often a call has failed.
    ghost state: { Self → SourceState };

    /// Fills `into` from its start and answers how many bytes it gave: none only at the end, or
    /// where `into` is empty. What lies in `into` past those bytes is left open.
    ///
    /// # Errors
    /// `Failed` where the outside fails. No byte is lost, and the count has risen.
    fn read(&mut self, into: &mut [u8]) -> Result<usize, Failed>
        ensures within { IfOk result (λ n. n ≤ length into.old) }
        ensures taken { IfOk result (λ n. Consumes (state self.old).left (state self.new).left (take n into.new)) }
        ensures end { IfOk result (λ n. n ≡ 0 → 0 < length into.old → IsAtEnd (state self.old).left) }
        ensures kept { OnErr result (Keeps (state self.old).left (state self.new).left) }
        ensures never_falls { (state self.old).faults ≤ (state self.new).faults }
        ensures cause { OnErr result (Rose (state self.old).faults (state self.new).faults) };
}
