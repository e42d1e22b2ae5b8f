ghost use Rattle.std.specs.Prelude.{◌≡◌};
ghost use Rattle.st_token.specs.declared.fault.SexpFault.TheVariants.{Memory};

use std::alloc::{AllocError, AllocFailed};
use thiserror::Error;

/// Why a text is no text forms. A place is a byte position from 0.
#[derive(Clone, Copy, Debug, PartialEq, Eq, Error)]
pub enum SexpFault {
    /// The innermost open list or text, which began here, never ends.
    #[error("unclosed list or text at {place}")]
    Unclosed { place: u32 },
    /// A parenthesis that closes nothing, a backslash before a byte that has no escape, or a byte that no token has.
    #[error("stray byte at {place}")]
    Stray { place: u32 },
    /// A number with another byte in it, or outside 64 bits; the place is its start.
    #[error("bad number at {place}")]
    BadNumber { place: u32 },
    /// The opening of a list at depth 65.
    #[error("list too deep at {place}")]
    TooDeep { place: u32 },
    /// The longest valid front of the input has this length.
    #[error("not UTF-8 at {place}")]
    NotUtf8 { place: u32 },
    #[error("out of memory")]
    Memory,
}

impl From<AllocError> for SexpFault {
    ghost from_gives = { λ _ e. e ≡ Memory };

    fn from(_: AllocError) -> SexpFault {
        SexpFault::Memory
    }
}

impl<T: Drop> From<AllocFailed<T>> for SexpFault {
    ghost from_gives = { λ _ e. e ≡ Memory };

    fn from(_: AllocFailed<T>) -> SexpFault {
        SexpFault::Memory
    }
}
