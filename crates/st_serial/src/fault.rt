ghost use Rattle.std.specs.Prelude.{◌≡◌, ◌≤◌, OnOk, OnErr, IsErrOf};
ghost use Rattle.st_edge.specs.Faults.{Rose};
ghost use Rattle.st_edge.specs.States.{TakesAll, TakesFront};
ghost use Rattle.st_serial.specs.declared.fault.SerialFault.TheVariants.{Memory};

use st_edge::{Failed, Sink, write_all};
use std::alloc::{AllocError, AllocFailed};

/// Why transactions were not run to their end.
#[derive(Clone, Copy, Debug, PartialEq, Eq)]
pub enum SerialFault {
    /// The sink failed.
    Sink,
    /// There is no memory.
    Memory,
}

impl From<AllocError> for SerialFault {
    ghost from_gives = { λ _ e. e ≡ Memory };

    fn from(_: AllocError) -> SerialFault {
        SerialFault::Memory
    }
}

impl<T: Drop> From<AllocFailed<T>> for SerialFault {
    ghost from_gives = { λ _ e. e ≡ Memory };

    fn from(_: AllocFailed<T>) -> SerialFault {
        SerialFault::Memory
    }
}

/// Writes lines, all of them or a front.
pub(crate) fn print<K: Sink>(sink: &mut K, text: &[u8]) -> Result<(), SerialFault>
    ensures ok { OnOk result (TakesAll (K.state sink.old) (K.state sink.new) text.now) }
    ensures err { OnErr result (TakesFront (K.state sink.old) (K.state sink.new) text.now) }
    ensures sink { IsErrOf result SerialFault.Sink → Rose (K.state sink.old).faults (K.state sink.new).faults }
    ensures never_falls { (K.state sink.old).faults ≤ (K.state sink.new).faults }
{
    match write_all(sink, text) {
        Ok(()) => Ok(()),
        Err(Failed) => Err(SerialFault::Sink),
    }
}
