ghost use Rattle.std.specs.Prelude.{◌≡◌, ℕ, ◌+◌, ◌<◌, ◌^◌};
ghost use Rattle.st_keys.specs.declared.fault.KeyFault.{KeyFault};
ghost use Rattle.st_rows.specs.declared.fault.RowFault.TheVariants.{Memory};
ghost use Rattle.st_rows.specs.Causes.{of_key, moved, PlaceFits};

use st_keys::KeyFault;
use std::alloc::AllocError;
use thiserror::Error;

/// Why bytes are no row.
#[derive(Clone, Copy, Debug, PartialEq, Eq, Error)]
pub enum RowFault {
    /// No row has these bytes. The place is that of the first byte that is refused, from 0.
    #[error("no row, at byte {place}")]
    BadRow { place: u16 },
    /// No memory for a text or for the list of values.
    #[error("out of memory")]
    Memory,
}

impl From<AllocError> for RowFault {
    ghost from_gives = { λ _ e. e ≡ Memory };

    fn from(_: AllocError) -> RowFault {
        RowFault::Memory
    }
}

/// The fault of a key that is a whole field.
pub(crate) fn of_key(fault: KeyFault) -> RowFault
    ensures { result ≡ of_key fault }
{
    match fault {
        KeyFault::BadKey { place } => RowFault::BadRow { place },
        KeyFault::Memory => RowFault::Memory,
    }
}

/// The same fault with its place moved behind so many bytes.
pub(crate) fn moved(fault: RowFault, by: usize) -> RowFault
    requires { PlaceFits fault by }
    ensures { result ≡ moved fault by }
{
    match fault {
        RowFault::BadRow { place } => RowFault::BadRow {
            place: place + by as u16,
        },
        RowFault::Memory => RowFault::Memory,
    }
}
