ghost use Rattle.std.specs.Prelude.{◌≡◌};
ghost use Rattle.st_schema_bytes.specs.declared.fault.StoredFault.TheVariants.{Memory};

use std::alloc::AllocError;
use thiserror::Error;

/// Why bytes are not read as a schema.
#[derive(Clone, Copy, Debug, PartialEq, Eq, Error)]
pub enum StoredFault {
    /// They are the bytes of no schema.
    #[error("no schema")]
    NoSchema,
    /// No memory.
    #[error("out of memory")]
    Memory,
}

impl From<AllocError> for StoredFault {
    ghost from_gives = { λ _ e. e ≡ Memory };

    fn from(_: AllocError) -> StoredFault {
        StoredFault::Memory
    }
}
