ghost use Rattle.std.specs.Prelude.{◌≡◌};
ghost use Rattle.st_statements.specs.declared.fault.Stop.TheVariants as stop;

use std::alloc::{AllocError, AllocFailed};

/// Why forms are not what was to be read of them.
#[derive(Clone, Copy, Debug, PartialEq, Eq)]
pub enum Misread {
    /// A form does not fit the grammar.
    Form {
        /// Where the innermost form that does not fit begins, in bytes from the front of the whole input.
        place: u32,
    },
    /// A transaction has more than 4,096 statements.
    TooManyStatements {
        /// How many items it has, those of inner transactions in their place.
        count: u32,
    },
    /// A client's number is outside 1 to 8, given twice, or that of no client.
    BadClient {
        /// The number.
        number: i64,
    },
}

/// Why the reading of forms ends.
#[derive(Clone, Copy, Debug, PartialEq, Eq)]
pub enum Stop {
    /// The forms are not what was to be read.
    Misread(Misread),
    /// There is no memory.
    Memory,
}

impl From<AllocError> for Stop {
    ghost from_gives = { λ _ e. e ≡ stop.Memory };

    fn from(_: AllocError) -> Stop {
        Stop::Memory
    }
}

impl<T: Drop> From<AllocFailed<T>> for Stop {
    ghost from_gives = { λ _ e. e ≡ stop.Memory };

    fn from(_: AllocFailed<T>) -> Stop {
        Stop::Memory
    }
}
