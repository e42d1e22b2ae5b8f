ghost use Rattle.std.specs.Prelude.{◌≡◌, ◌≤◌, Ok, is_ok, IfOk, OnOk, OnErr};
ghost use Rattle.st_edge.specs.Faults.{Rose};

use crate::Failed;
use std::io;

/// How often a call that a signal interrupts is made before it counts as failed.
pub(crate) const TRIES: u32 = 1000;

/// Passes an answer of the system on, and raises the count where it is an error.
pub(crate) fn counted<T>(answer: io::Result<T>, faults: &mut u64) -> Result<T, Failed>
    ensures ok { IfOk result (λ value. answer ≡ Ok value) }
    ensures outcome { is_ok result ≡ is_ok answer }
    ensures same { OnOk result (faults.new ≡ faults.old) }
    ensures never_falls { faults.old ≤ faults.new }
    ensures cause { OnErr result (Rose faults.old faults.new) }
{
    match answer {
        Ok(value) => Ok(value),
        Err(_) => {
            *faults = faults.saturating_add(1);
            Err(Failed)
        }
    }
}
