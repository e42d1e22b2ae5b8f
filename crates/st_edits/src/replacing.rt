//! The cells of a row with another value in one of them.
ghost use Rattle.std.specs.Prelude.{◌≡◌, ◌<◌, IfOk, IfSome, IsTrue, None, Some, true, length, slice_index_or, slice_set};
ghost use Rattle.st_lattice.specs.Lattice.{isa};
ghost use Rattle.st_lattice.specs.Outline.{attribute as numbered};
ghost use Rattle.st_rows.specs.Rows.{AreHeld, cell_fields};
ghost use Rattle.st_index.specs.Turned.{IsOrNull};
ghost use Rattle.st_lookups.specs.Looks.{is_cell};
ghost use Rattle.st_values.specs.declared.value.Value.TheVariants.{Null};
ghost use Rattle.st_edits.specs.Values.{IsCellAt, IsLikeOrNull, IsReplaced};

use st_index::fits;
use st_lattice::{Attribute, Schema};
use st_lookups::{cell_index, is_cell};
use st_text::Duplicate;
use st_values::{Kind, Value, Values};
use std::alloc::{AllocError, Global};

/// Whether a value is null, or has a kind and is not too long for it.
pub(crate) fn is_or_null(value: &Value, kind: Kind) -> bool
    ensures so { IsTrue result → IsOrNull kind value.now }
    ensures like { IsLikeOrNull kind value.now → IsTrue result }
{
    match value {
        Value::Null => true,
        _ => fits(value, kind),
    }
}

/// The index of the cell of an attribute in the rows of a type; none where it has none there.
fn cell_place(schema: &Schema, attribute: &Attribute, ty: u16) -> Option<usize>
    requires numbered { numbered schema.now attribute.now.number ≡ Some attribute.now }
    ensures there { IfSome result (λ index. IsCellAt schema.now ty attribute.now index) }
    ensures none { result ≡ None → is_cell attribute.now ≡ true → isa schema.now ty attribute.now.owner ≡ true → ⊥ }
{
    if !is_cell(attribute) || !schema.isa(ty, attribute.owner) {
        return None;
    }
    cell_index(schema, ty, attribute.number)
}

/// The cells with a value at an index, and the value that was there.
fn exchange(
    alloc: Global,
    index: usize,
    mut cells: Values,
    value: &Value,
) -> Result<(Values, Value), AllocError>
    requires { index < length cells }
    ensures { IfOk result (λ pair. (pair.0 ≡ slice_set cells index value.now) × (pair.1 ≡ slice_index_or cells index Null)) }
{
    let old = cells.as_slice()[index].copy(alloc)?;
    cells.set(index, value.copy(alloc)?);
    Ok((cells, old))
}

/// The cells in a row of a type with a value in place of an attribute's, and the value that was there. None where the attribute
/// has no cell in such rows, or the value doesn't fit it.
pub(crate) fn replaced(
    alloc: Global,
    schema: &Schema,
    attribute: &Attribute,
    ty: u16,
    cells: Values,
    value: &Value,
) -> Result<Option<(Values, Value)>, AllocError>
    requires numbered { numbered schema.now attribute.now.number ≡ Some attribute.now }
    requires held { AreHeld (cell_fields schema.now ty) cells }
    ensures is { IfOk result (λ found. IfSome found (λ pair. IsReplaced schema.now ty attribute.now cells value.now pair.0 pair.1)) }
    ensures none { IfOk result (λ found. found ≡ None → is_cell attribute.now ≡ true → isa schema.now ty attribute.now.owner ≡ true → IsLikeOrNull attribute.now.kind value.now → ⊥) }
{
    let Some(index) = cell_place(schema, attribute, ty) else {
        return Ok(None);
    };
    if !is_or_null(value, attribute.kind) {
        return Ok(None);
    }
    Ok(Some(exchange(alloc, index, cells, value)?))
}
