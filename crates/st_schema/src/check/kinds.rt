//! The types of attributes' values.
ghost use Rattle.std.specs.Prelude.{◌≡◌};
ghost use Rattle.st_text.specs.Answer.{Answers};
ghost use Rattle.st_schema.specs.Written.{told};
ghost use Rattle.st_schema.specs.Checks.{unless, unknown_of, unknown_in, unknown_type};

use crate::SchemaFault;
use crate::written::{AttributeForm, TypeForm, Worded};
use st_text::{Duplicate, Letters};
use st_values::has;
use std::alloc::Global;

/// Checks that a type of values that is named is a type of the text.
fn check_type(alloc: Global, names: &[Letters], worded: &Worded) -> Result<(), SchemaFault>
    ensures { Answers told result (unless (unknown_of names.now worded.now) tt) }
{
    match worded {
        Worded::Entity(name) => {
            if has(names, name.as_slice()) {
                return Ok(());
            }
            Err(SchemaFault::UnknownType {
                name: name.copy(alloc)?,
            })
        }
        _ => Ok(()),
    }
}

/// Checks the types of the values of one type's attributes.
fn check_types_in(
    alloc: Global,
    names: &[Letters],
    attributes: &[AttributeForm],
) -> Result<(), SchemaFault>
    ensures { Answers told result (unless (unknown_in names.now attributes.now) tt) }
{
    for attribute in attributes {
        check_type(alloc, names, &attribute.worded)?;
    }
    Ok(())
}

/// Checks the types of all attributes' values.
pub(crate) fn check_types(
    alloc: Global,
    names: &[Letters],
    types: &[TypeForm],
) -> Result<(), SchemaFault>
    ensures { Answers told result (unless (unknown_type names.now types.now) tt) }
{
    for ty in types {
        check_types_in(alloc, names, ty.attributes.as_slice())?;
    }
    Ok(())
}
