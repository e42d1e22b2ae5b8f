ghost use Rattle.std.specs.Prelude.{ℕ, ◌<◌, ◌≤◌, length, take, IfOk, OnOk, OnErr};
ghost use Rattle.std.specs.Io.KnownBytes.{WriteAppends};
ghost use Rattle.st_edge.specs.Faults.{Rose};
ghost use Rattle.st_edge.specs.States.{SinkState, TakesAll};

use crate::Failed;

/// What takes bytes, a piece at a time.
pub trait Sink {
    // What the sink tells: all bytes that it took, and how often a call has failed.
    ghost state: { Self → SinkState };

    /// Takes bytes from the start of `from` and answers how many: at least one, unless `from` is
    /// empty.
    ///
    /// # Errors
    /// `Failed` where the outside fails. No byte was taken, and the count has risen.
    fn write(&mut self, from: &[u8]) -> Result<usize, Failed>
        ensures within { IfOk result (λ n. n ≤ length from.now) }
        ensures some { IfOk result (λ n. 0 < length from.now → 0 < n) }
        ensures bytes { WriteAppends (state self.old).taken (state self.new).taken result from.now }
        ensures never_falls { (state self.old).faults ≤ (state self.new).faults }
        ensures cause { OnErr result (Rose (state self.old).faults (state self.new).faults) };
}

/// Writes all of `bytes`, in as many calls as it takes: none where there are none.
///
/// # Errors
/// `Failed` at the first call that fails. The calls before it may have taken some first bytes.
pub fn write_all<K: Sink>(sink: &mut K, bytes: &[u8]) -> Result<(), Failed>
    ensures ok { OnOk result (TakesAll (K.state sink.old) (K.state sink.new) bytes.now) }
    ensures err { OnErr result ((n : ℕ) × (n ≤ length bytes.now) × TakesAll (K.state sink.old) (K.state sink.new) (take n bytes.now)) }
    ensures never_falls { (K.state sink.old).faults ≤ (K.state sink.new).faults }
    ensures cause { OnErr result (Rose (K.state sink.old).faults (K.state sink.new).faults) }
{
    let mut at = 0;
    while at < bytes.len() {
        at += sink.write(&bytes[at..])?;
    }
    Ok(())
}
