ghost use Rattle.std.specs.Prelude.{◌≡◌};
ghost use Rattle.st_keys.specs.declared.fault.KeyFault.TheVariants.{Memory};

use std::alloc::AllocError;
use thiserror::Error;

/// Why a value has no key of a kind.
#[derive(Clone, Copy, Debug, PartialEq, Eq, Error)]
pub enum ValueFault {
    /// A text has more bytes than its kind takes.
    #[error("a text of {length} bytes, where {limit} are the most")]
    TextTooLong {
        /// How many bytes the text has.
        length: u64,
        /// How many bytes a text of the kind has at most.
        limit: u8,
    },
}

/// Why bytes give no value of a kind.
#[derive(Clone, Copy, Debug, PartialEq, Eq, Error)]
pub enum KeyFault {
    /// No value of the kind has this key. The place is that of the key's last byte, from 0.
    #[error("no key of a value, at byte {place}")]
    BadKey { place: u16 },
    /// No memory for a text.
    #[error("out of memory")]
    Memory,
}

impl From<AllocError> for KeyFault {
    ghost from_gives = { λ _ e. e ≡ Memory };

    fn from(_: AllocError) -> KeyFault {
        KeyFault::Memory
    }
}
