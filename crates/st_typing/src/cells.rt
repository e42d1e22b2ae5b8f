//! The checks of cells and keys, whose attributes are named by their short names.
ghost use Rattle.std.specs.Prelude.{◌≡◌, IfOk};
ghost use Rattle.std.specs.Option.{option_copied};
ghost use Rattle.st_meaning.specs.Checks.{cell_name_refused, key_name_refused, cell_refused, key_refused, cells_refused, ensure_refused};
ghost use Rattle.st_typing.specs.Scope.{names_of};

use crate::kinds::expected_in;
use crate::scope::Scope;
use crate::term::{term_refused, unknown_name, wrong_unless};
use st_lattice::{Attribute, Schema};
use st_query::{Cell, Term};
use st_state::Refusal;
use st_values::Letters;
use std::alloc::{AllocError, Global};

/// The name of a cell has to be that of an attribute with single values.
fn cell_name_refused(
    alloc: Global,
    name: &Letters,
    attribute: Option<&Attribute>,
) -> Result<Option<Refusal>, AllocError>
    ensures { IfOk result (λ refused. refused ≡ cell_name_refused name.now (option_copied attribute.entry)) }
{
    match attribute {
        Some(attribute) => Ok(wrong_unless(!attribute.many)),
        None => unknown_name(alloc, name.as_str()),
    }
}

/// The name of a key has to be that of an attribute whose values are unique.
fn key_name_refused(
    alloc: Global,
    name: &Letters,
    attribute: Option<&Attribute>,
) -> Result<Option<Refusal>, AllocError>
    ensures { IfOk result (λ refused. refused ≡ key_name_refused name.now (option_copied attribute.entry)) }
{
    match attribute {
        Some(attribute) => Ok(wrong_unless(attribute.unique)),
        None => unknown_name(alloc, name.as_str()),
    }
}

/// The checks of a cell of a type: its name and then its value.
fn cell_refused(
    alloc: Global,
    schema: &Schema,
    scope: &Scope<'_>,
    ty: u16,
    cell: &Cell,
) -> Result<Option<Refusal>, AllocError>
    ensures { IfOk result (λ refused. refused ≡ cell_refused schema.now (names_of scope.now) ty cell.now) }
{
    let attribute = schema.attribute_of(ty, cell.name.as_slice());
    if let Some(refusal) = cell_name_refused(alloc, &cell.name, attribute)? {
        return Ok(Some(refusal));
    }
    term_refused(alloc, schema, scope, expected_in(attribute), &cell.value)
}

/// The checks of a key of a type: its name and then its value.
pub(crate) fn key_refused(
    alloc: Global,
    schema: &Schema,
    scope: &Scope<'_>,
    ty: u16,
    key: &Letters,
    value: &Term,
) -> Result<Option<Refusal>, AllocError>
    ensures { IfOk result (λ refused. refused ≡ key_refused schema.now (names_of scope.now) ty key.now value.now) }
{
    let attribute = schema.attribute_of(ty, key.as_slice());
    if let Some(refusal) = key_name_refused(alloc, key, attribute)? {
        return Ok(Some(refusal));
    }
    term_refused(alloc, schema, scope, expected_in(attribute), value)
}

/// The checks of the cells of a type, first to last.
pub(crate) fn cells_refused(
    alloc: Global,
    schema: &Schema,
    scope: &Scope<'_>,
    ty: u16,
    cells: &[Cell],
) -> Result<Option<Refusal>, AllocError>
    ensures { IfOk result (λ refused. refused ≡ cells_refused schema.now (names_of scope.now) ty cells.now) }
{
    for cell in cells {
        if let Some(refusal) = cell_refused(alloc, schema, scope, ty, cell)? {
            return Ok(Some(refusal));
        }
    }
    Ok(None)
}

/// The checks of the cells of an `ensure`, the first of which is its key.
pub(crate) fn key_and_cells_refused(
    alloc: Global,
    schema: &Schema,
    scope: &Scope<'_>,
    ty: u16,
    cells: &[Cell],
) -> Result<Option<Refusal>, AllocError>
    ensures { IfOk result (λ refused. refused ≡ ensure_refused schema.now (names_of scope.now) ty cells.now) }
{
    match cells {
        [] => Ok(None),
        [key, others @ ..] => {
            if let Some(refusal) = key_refused(alloc, schema, scope, ty, &key.name, &key.value)? {
                return Ok(Some(refusal));
            }
            cells_refused(alloc, schema, scope, ty, others)
        }
    }
}
