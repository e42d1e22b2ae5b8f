ghost use Rattle.std.specs.Prelude.{◌≡◌, IfOk};

use st_text::Duplicate;
use st_values::{EntityId, Letters};
use std::alloc::{AllocError, Global};

/// Why a statement is refused. Each rule has a number, which is printed before its fields.
/// Attributes and other features are named by their qualified names, `type.name`.
#[derive(Debug, Drop)]
pub enum Refusal {
    /// Rule 1: no type, feature, attribute or variable has this name.
    UnknownName {
        /// The name, as it was written.
        name: Letters,
    },
    /// Rule 2: a kind does not fit, or a set stands where a single value is wanted or the reverse.
    WrongType,
    /// Rule 3: an attribute that admits no null would be null, or a null would go into or out of a set.
    NullNotAllowed {
        /// The attribute.
        attribute: Letters,
    },
    /// Rule 4: another entity has the value of an attribute that no two entities share a value of.
    NotUnique {
        /// The attribute.
        attribute: Letters,
        /// The entity that has the value.
        holder: EntityId,
    },
    /// Rule 5: an entity that is written out, or that a variable stands for, is not live.
    NoSuchEntity {
        /// The entity.
        entity: EntityId,
    },
    /// Rule 6: another entity refers to one that is to be deleted, by an attribute that admits no null.
    StillNeeded {
        /// The entity that refers to it.
        entity: EntityId,
        /// The attribute.
        attribute: Letters,
    },
    /// Rule 7: a value is to go into or out of something that is no attribute with sets.
    NotASet {
        /// The name, as it was written.
        name: Letters,
    },
    /// Rule 8: a text is longer than its attribute allows.
    TextTooLong {
        /// The length of the text, in bytes.
        length: u64,
        /// The greatest length that is allowed, in bytes.
        limit: u32,
    },
    /// Rule 9: all serials of a type were given out.
    NumbersSpent {
        /// The name of the type.
        ty: Letters,
    },
    /// Rule 10: the transaction gave itself up.
    Aborted,
    /// Rule 11: what is to be changed or deleted is null.
    NullEntity,
    /// Rule 12: the transaction would change more pages than a transaction may.
    TooManyPages {
        /// How many pages it would change.
        count: u32,
    },
    /// Rule 13: no page is free.
    Full {
        /// How many pages are in use.
        in_use: u32,
    },
}

impl Duplicate for Refusal {
    fn copy(&self, alloc: Global) -> Result<Refusal, AllocError> {
        match self {
            Refusal::UnknownName { name } => Ok(Refusal::UnknownName {
                name: name.copy(alloc)?,
            }),
            Refusal::WrongType => Ok(Refusal::WrongType),
            Refusal::NullNotAllowed { attribute } => Ok(Refusal::NullNotAllowed {
                attribute: attribute.copy(alloc)?,
            }),
            Refusal::NotUnique { attribute, holder } => Ok(Refusal::NotUnique {
                attribute: attribute.copy(alloc)?,
                holder: *holder,
            }),
            Refusal::NoSuchEntity { entity } => Ok(Refusal::NoSuchEntity { entity: *entity }),
            Refusal::StillNeeded { entity, attribute } => Ok(Refusal::StillNeeded {
                entity: *entity,
                attribute: attribute.copy(alloc)?,
            }),
            Refusal::NotASet { name } => Ok(Refusal::NotASet {
                name: name.copy(alloc)?,
            }),
            Refusal::TextTooLong { length, limit } => Ok(Refusal::TextTooLong {
                length: *length,
                limit: *limit,
            }),
            Refusal::NumbersSpent { ty } => Ok(Refusal::NumbersSpent {
                ty: ty.copy(alloc)?,
            }),
            Refusal::Aborted => Ok(Refusal::Aborted),
            Refusal::NullEntity => Ok(Refusal::NullEntity),
            Refusal::TooManyPages { count } => Ok(Refusal::TooManyPages { count: *count }),
            Refusal::Full { in_use } => Ok(Refusal::Full { in_use: *in_use }),
        }
    }
}
