ghost use Rattle.std.specs.Prelude.{◌≡◌};
ghost use Rattle.st_reader.specs.Faults.{fault_of};
ghost use Rattle.st_reader.specs.declared.fault.ScriptFault.TheVariants as fault;

use st_sexp::SexpFault;
use st_statements::Misread;
use st_text::Duplicate;
use std::alloc::{AllocError, AllocFailed, Global};
use thiserror::Error;

/// Why an input is not what was to be read.
#[derive(Clone, Copy, Debug, PartialEq, Eq, Error)]
pub enum ScriptFault {
    /// The input is no text forms.
    #[error("{0}")]
    Text(SexpFault),
    /// A form does not fit the grammar.
    #[error("out of form at byte {place}")]
    Form {
        /// Where the innermost form that does not fit begins, in bytes from the front of the whole input.
        place: u32,
    },
    /// A transaction has more than 4,096 statements.
    #[error("{count} statements, too many")]
    TooManyStatements {
        /// How many items it has, those of inner transactions in their place.
        count: u32,
    },
    /// A client's number is outside 1 to 8, given twice, or that of no client.
    #[error("a bad client {number}")]
    BadClient {
        /// The number.
        number: i64,
    },
    /// The input has more than 1,048,576 bytes.
    #[error("an input of {bytes} bytes")]
    InputTooLong {
        /// How many bytes it has.
        bytes: u64,
    },
    /// There is no memory.
    #[error("out of memory")]
    Memory,
}

impl From<AllocError> for ScriptFault {
    ghost from_gives = { λ _ e. e ≡ fault.Memory };

    fn from(_: AllocError) -> ScriptFault {
        ScriptFault::Memory
    }
}

impl<T: Drop> From<AllocFailed<T>> for ScriptFault {
    ghost from_gives = { λ _ e. e ≡ fault.Memory };

    fn from(_: AllocFailed<T>) -> ScriptFault {
        ScriptFault::Memory
    }
}

impl From<Misread> for ScriptFault {
    ghost from_gives = { λ m e. e ≡ fault_of m };

    fn from(misread: Misread) -> ScriptFault {
        match misread {
            Misread::Form { place } => ScriptFault::Form { place },
            Misread::TooManyStatements { count } => ScriptFault::TooManyStatements { count },
            Misread::BadClient { number } => ScriptFault::BadClient { number },
        }
    }
}

impl Duplicate for ScriptFault {
    fn copy(&self, _alloc: Global) -> Result<ScriptFault, AllocError> {
        Ok(*self)
    }
}
