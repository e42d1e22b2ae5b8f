//! An entity with values of its attributes.
ghost use Rattle.std.specs.Prelude.{◌≡◌, ◌==◌, IfOk, find};
ghost use Rattle.std.specs.Option.{option_copied};
ghost use Rattle.st_known.specs.Known.{known_value};

use sqlite_items::Items;
use st_text::Duplicate;
use st_values::{EntityId, Value};
use std::alloc::{AllocError, Global};

/// A value that an attribute has, by its number.
#[derive(Debug, Drop)]
pub struct KnownValue {
    /// The number of the attribute.
    pub number: u16,
    /// The value; null where there is none.
    pub value: Value,
}

/// An entity, and values of its single-valued attributes.
#[derive(Debug, Drop)]
pub struct Known {
    /// The entity.
    pub entity: EntityId,
    /// Values that it has, in any order; other attributes may have values too.
    pub values: Items<KnownValue>,
}

fn numbered(values: &[KnownValue], number: u16) -> Option<&KnownValue>
    ensures { option_copied result ≡ find (λ v. v.number == number) values.now }
{
    values.iter().find(|known| known.number == number)
}

/// A copy of the value that an attribute is known to have, if one is. `AllocError` where there is no memory.
pub fn known_value(alloc: Global, known: &Known, number: u16) -> Result<Option<Value>, AllocError>
    ensures { IfOk result (λ value. value ≡ known_value known.now number) }
{
    match numbered(known.values.as_slice(), number) {
        Some(known) => Ok(Some(known.value.copy(alloc)?)),
        None => Ok(None),
    }
}
