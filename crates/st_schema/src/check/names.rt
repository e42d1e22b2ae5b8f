//! The names of types, and their parents.
ghost use Rattle.std.specs.Prelude.{◌≡◌, [], map, IfOk};
ghost use Rattle.std.specs.Option.{option_map};
ghost use Rattle.st_text.specs.Answer.{Answers};
ghost use Rattle.st_values.specs.Names.{first_repeated};
ghost use Rattle.st_schema.specs.declared.fault.SchemaFault.TheVariants.{Repeated};
ghost use Rattle.st_schema.specs.Written.{told};
ghost use Rattle.st_schema.specs.Checks.{unless, parent_fault, parents_fault};

use crate::SchemaFault;
use crate::written::{Names, TypeForm};
use sqlite_items::Items;
use st_text::{Duplicate, Letters};
use st_values::{first_repeated, has};
use std::alloc::{AllocError, Global};

/// The names of types, copied.
pub(crate) fn names_of(alloc: Global, types: &[TypeForm]) -> Result<Names, AllocError>
    ensures { IfOk result (λ names. names ≡ map (λ t. t.name) types.now) }
{
    let mut names = Items::new(alloc);
    for ty in types {
        names.push(ty.name.copy(alloc)?)?;
    }
    Ok(names)
}

/// Checks that no name stands twice.
pub(crate) fn check_repeated(alloc: Global, names: &[Letters]) -> Result<(), SchemaFault>
    ensures { Answers told result (unless (option_map Repeated (first_repeated [] names.now)) tt) }
{
    match first_repeated(names) {
        Some(name) => Err(SchemaFault::Repeated {
            name: name.copy(alloc)?,
        }),
        None => Ok(()),
    }
}

/// Checks that the parents of a type are among the earlier types, and that none stands twice.
fn check_parents_of(
    alloc: Global,
    earlier: &[Letters],
    parents: &[Letters],
) -> Result<(), SchemaFault>
    ensures { Answers told result (unless (parent_fault earlier.now [] parents.now) tt) }
{
    let mut index = 0;
    for parent in parents {
        if !has(earlier, parent.as_slice()) {
            return Err(SchemaFault::UnknownParent {
                name: parent.copy(alloc)?,
            });
        }
        if has(&parents[..index], parent.as_slice()) {
            return Err(SchemaFault::Repeated {
                name: parent.copy(alloc)?,
            });
        }
        index += 1;
    }
    Ok(())
}

/// Checks the parents of all types.
pub(crate) fn check_parents(
    alloc: Global,
    names: &[Letters],
    types: &[TypeForm],
) -> Result<(), SchemaFault>
    requires { names.now ≡ map (λ t. t.name) types.now }
    ensures { Answers told result (unless (parents_fault [] types.now) tt) }
{
    let mut index = 0;
    for ty in types {
        check_parents_of(alloc, &names[..index], ty.parents.as_slice())?;
        index += 1;
    }
    Ok(())
}
