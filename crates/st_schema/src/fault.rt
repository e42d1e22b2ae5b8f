ghost use Rattle.std.specs.Prelude.{◌≡◌};
ghost use Rattle.st_schema.specs.declared.fault.SchemaFault.TheVariants.{Form, Memory};

use st_sexp::Misfit;
use st_text::{Duplicate, Letters};
use std::alloc::{AllocError, AllocFailed, Global};
use thiserror::Error;

/// What there can be too many of.
#[derive(Clone, Copy, Debug, PartialEq, Eq)]
pub enum Counted {
    /// Types: at most 64.
    Types,
    /// Attributes: at most 256 of all types together.
    Attributes,
}

/// Why forms are no schema.
#[derive(Debug, Drop, Error)]
pub enum SchemaFault {
    /// A form does not fit the grammar.
    #[error("out of form at byte {place}")]
    Form {
        /// Where the innermost form that does not fit begins, in bytes from the front of the text.
        place: u32,
    },
    /// A type's name, a parent of a type, or a feature of a type stands twice.
    #[error("a repeated name")]
    Repeated {
        /// The name, a feature's without its type's.
        name: Letters,
    },
    /// A parent is not the name of an earlier type.
    #[error("an unknown parent")]
    UnknownParent {
        /// The name that stands there.
        name: Letters,
    },
    /// The type of an attribute's values is not the name of a type.
    #[error("an unknown type")]
    UnknownType {
        /// The name that stands there.
        name: Letters,
    },
    /// A type has features of one name from two different types.
    #[error("an ambiguous name")]
    AmbiguousName {
        /// The type's name.
        ty: Letters,
        /// The features' name, without a type's.
        name: Letters,
    },
    /// A row of a type is wider than 1,000 bytes.
    #[error("a row of {width} bytes")]
    RowTooWide {
        /// The type's name.
        ty: Letters,
        /// How many bytes its rows would have.
        width: u32,
    },
    /// There are more types or attributes than a schema may have.
    #[error("{count} of them, too many")]
    TooMany {
        /// Which of the two.
        what: Counted,
        /// How many are written.
        count: u32,
    },
    /// An option is unknown, repeated, has a wrong value or none, or does not go with the attribute's type.
    #[error("a bad option at byte {place}")]
    BadOption {
        /// Where its word begins, in bytes from the front of the text.
        place: u32,
    },
    /// Memory ran out.
    #[error("out of memory")]
    Memory,
}

impl From<AllocError> for SchemaFault {
    ghost from_gives = { λ _ e. e ≡ Memory };

    fn from(_: AllocError) -> SchemaFault {
        SchemaFault::Memory
    }
}

impl<T: Drop> From<AllocFailed<T>> for SchemaFault {
    ghost from_gives = { λ _ e. e ≡ Memory };

    fn from(_: AllocFailed<T>) -> SchemaFault {
        SchemaFault::Memory
    }
}

impl Misfit for SchemaFault {
    ghost misfit = { Form };

    fn misfit(place: u32) -> SchemaFault {
        SchemaFault::Form { place }
    }
}

impl Duplicate for SchemaFault {
    fn copy(&self, alloc: Global) -> Result<SchemaFault, AllocError> {
        match self {
            SchemaFault::Form { place } => Ok(SchemaFault::Form { place: *place }),
            SchemaFault::Repeated { name } => Ok(SchemaFault::Repeated {
                name: name.copy(alloc)?,
            }),
            SchemaFault::UnknownParent { name } => Ok(SchemaFault::UnknownParent {
                name: name.copy(alloc)?,
            }),
            SchemaFault::UnknownType { name } => Ok(SchemaFault::UnknownType {
                name: name.copy(alloc)?,
            }),
            SchemaFault::AmbiguousName { ty, name } => Ok(SchemaFault::AmbiguousName {
                ty: ty.copy(alloc)?,
                name: name.copy(alloc)?,
            }),
            SchemaFault::RowTooWide { ty, width } => Ok(SchemaFault::RowTooWide {
                ty: ty.copy(alloc)?,
                width: *width,
            }),
            SchemaFault::TooMany { what, count } => Ok(SchemaFault::TooMany {
                what: *what,
                count: *count,
            }),
            SchemaFault::BadOption { place } => Ok(SchemaFault::BadOption { place: *place }),
            SchemaFault::Memory => Ok(SchemaFault::Memory),
        }
    }
}
