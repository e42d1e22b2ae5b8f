//! The rows of entities, in the extents of their types.
ghost use Rattle.std.specs.Prelude.{◌≡◌, ◌+◌, ◌^◌, ◌≤◌, ◌<◌, ◌∷◌, ◌++◌, pos, length, option_to_list, IfOk, IfErr};
ghost use Rattle.st_lattice.specs.Stores.{row_width};
ghost use Rattle.st_rows.specs.Rows.{cell_of, cell_fields, row_fields, fields_width, AreHeld, row};
ghost use Rattle.st_rows.specs.Causes.{IsRowCause};
ghost use Rattle.st_rows.specs.Cells.{cells_from};

use crate::fault::{self, RowFault};
use crate::field::Field;
use crate::{read, write};
use byteorder::{BigEndian, ByteOrder};
use sqlite_items::Items;
use st_lattice::{Attribute, Schema};
use st_values::{Value, Values};
use std::alloc::Global;

/// How many bytes a row of a type has.
pub fn row_width(schema: &Schema, ty: u16) -> u32
    requires { ty < length schema.now.names }
    ensures { result ≡ row_width schema.now ty }
{
    schema.row_width(ty)
}

/// The cell of an attribute in a row, if it has one there.
fn cell_of(attribute: &Attribute) -> Option<Field>
    ensures { option_to_list result ≡ cell_of attribute.now }
{
    if attribute.many || attribute.column {
        return None;
    }
    Some(Field::Cell(attribute.kind))
}

/// The cell of the attribute at a position in a row of a type, if the row has one.
fn cell_at(schema: &Schema, ty: u16, position: u16) -> Option<Field>
    requires { position < length schema.now.attributes }
    ensures { cells_from schema.now ty position ≡ option_to_list result ++ cells_from schema.now ty (position + 1) }
{
    let attribute = schema.attribute_at(position);
    if schema.isa(ty, attribute.owner) {
        cell_of(attribute)
    } else {
        None
    }
}

/// Writes the row of an entity into a place of the row's width: its serial, and its values or null for each attribute
/// of its type that is neither a set nor a column, in the order of the attributes.
pub fn write_row(schema: &Schema, ty: u16, serial: u32, cells: &[Value], into: &mut [u8])
    requires known { ty < length schema.now.names }
    requires some { 0 < serial }
    requires held { AreHeld (cell_fields schema.now ty) cells.now }
    requires width { length into.old ≡ row_width schema.now ty }
    ensures { into.new ≡ row (row_fields schema.now ty) (Value.Int (pos serial) ∷ cells.now) }
{
    BigEndian::write_u32(into, serial);
    write_cells(schema, ty, cells, &mut into[4..]);
}

/// Writes the cells of a row, behind its serial.
fn write_cells(schema: &Schema, ty: u16, cells: &[Value], into: &mut [u8])
    requires held { AreHeld (cell_fields schema.now ty) cells.now }
    requires width { length into.old ≡ fields_width (cell_fields schema.now ty) }
    ensures { into.new ≡ row (cell_fields schema.now ty) cells.now }
{
    let mut place = 0usize;
    let mut index = 0usize;
    for position in 0..schema.attribute_count() {
        if let Some(field) = cell_at(schema, ty, position) {
            place = write::put_field(field, &cells[index], into, place);
            index += 1;
        }
    }
}

/// The serial of an entity, and its values or null for each attribute of its type that is neither a set nor a column,
/// from bytes of a row's width, which is at most 1,000. `BadRow` has the place of the first byte that is refused.
pub fn read_row(
    alloc: Global,
    schema: &Schema,
    ty: u16,
    bytes: &[u8],
) -> Result<(u32, Values), RowFault>
    requires known { ty < length schema.now.names }
    requires width { length bytes.now ≡ row_width schema.now ty }
    requires narrow { row_width schema.now ty ≤ 1000 }
    ensures held { IfOk result (λ row. AreHeld (row_fields schema.now ty) (Value.Int (pos row.0) ∷ row.1)) }
    ensures bytes { IfOk result (λ read. row (row_fields schema.now ty) (Value.Int (pos read.0) ∷ read.1) ≡ bytes.now) }
    ensures cause { IfErr result (λ fault. IsRowCause (row_fields schema.now ty) bytes.now fault) }
{
    let serial = read::read_serial(&bytes[..4])?;
    match read_cells(alloc, schema, ty, &bytes[4..]) {
        Ok(cells) => Ok((serial, cells)),
        Err(fault) => Err(fault::moved(fault, 4)),
    }
}

/// The values of the cells, from the bytes behind a row's serial.
fn read_cells(alloc: Global, schema: &Schema, ty: u16, bytes: &[u8]) -> Result<Values, RowFault>
    requires width { length bytes.now ≡ fields_width (cell_fields schema.now ty) }
    requires narrow { length bytes.now ≤ 2 ^ 16 }
    ensures held { IfOk result (λ cells. AreHeld (cell_fields schema.now ty) cells) }
    ensures bytes { IfOk result (λ cells. row (cell_fields schema.now ty) cells ≡ bytes.now) }
    ensures cause { IfErr result (λ fault. IsRowCause (cell_fields schema.now ty) bytes.now fault) }
{
    let mut cells = Items::new(alloc);
    let mut place = 0usize;
    for position in 0..schema.attribute_count() {
        if let Some(field) = cell_at(schema, ty, position) {
            place = read::push_at(alloc, field, bytes, place, &mut cells)?;
        }
    }
    Ok(cells)
}
