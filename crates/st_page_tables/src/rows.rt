//! Rows of the entities of a schema.
ghost use Rattle.std.specs.Prelude.{◌≡◌, ◌<◌, ◌≤◌, ◌∷◌, length, pos};
ghost use Rattle.st_values.specs.declared.value.Value.TheVariants.{Int};
ghost use Rattle.st_lattice.specs.Stores.{row_width};
ghost use Rattle.st_rows.specs.Rows.{AreHeld, row_fields};

use crate::given::{is_filled, next_word};
use crate::told::{push_number, push_whether, shown, wrong};
use st_rows::{RowFault, read_row, row_width, write_row};
use st_schema::{Schema, SchemaFault, read_schema};
use st_sexp::read;
use st_text::Letters;
use st_values::{Value, push_value};
use std::alloc::{AllocError, Global};

/// The serial and the values of a row: the front is a schema, and the text the name of a type and bytes, behind which
/// zeros stand up to the row's width.
pub fn row_answer(alloc: Global, front: &str, text: &str) -> Result<String, AllocError> {
    match schema_of(alloc, front.as_bytes()) {
        Ok(schema) => of_schema(alloc, &schema, text),
        Err(_) => String::from_str(alloc, " no schema"),
    }
}

/// The schema of a text; want of memory where it is longer than texts may be.
fn schema_of(alloc: Global, text: &[u8]) -> Result<Schema, SchemaFault> {
    if text.len() > 1048576 {
        return Err(SchemaFault::Memory);
    }
    match read(alloc, text) {
        Ok(forms) => read_schema(alloc, forms.as_slice()),
        Err(_) => Err(SchemaFault::Memory),
    }
}

fn of_schema(alloc: Global, schema: &Schema, text: &str) -> Result<String, AllocError> {
    let mut words = text.split_whitespace();
    let Some(ty) = schema.type_named(next_word(&mut words).as_bytes()) else {
        return String::from_str(alloc, " no type");
    };
    let mut bytes = [0; 1000];
    let width = row_width(schema, ty) as usize;
    if width > 1000 || !is_filled(&mut bytes[..width], words) {
        return String::from_str(alloc, " no row");
    }
    of_type(alloc, schema, ty, &bytes[..width])
}

fn of_type(alloc: Global, schema: &Schema, ty: u16, bytes: &[u8]) -> Result<String, AllocError>
    requires known { ty < length schema.now.names }
    requires width { length bytes.now ≡ row_width schema.now ty }
    requires narrow { row_width schema.now ty ≤ 1000 }
{
    match read_row(alloc, schema, ty, bytes) {
        Ok((serial, cells)) => of_row(alloc, schema, ty, serial, cells.as_slice(), bytes),
        Err(RowFault::BadRow { place }) => wrong(alloc, place),
        Err(RowFault::Memory) => Err(AllocError),
    }
}

fn of_row(
    alloc: Global,
    schema: &Schema,
    ty: u16,
    serial: u32,
    cells: &[Value],
    bytes: &[u8],
) -> Result<String, AllocError>
    requires known { ty < length schema.now.names }
    requires held { AreHeld (row_fields schema.now ty) (Int (pos serial) ∷ cells.now) }
    requires width { length bytes.now ≡ row_width schema.now ty }
    requires narrow { row_width schema.now ty ≤ 1000 }
{
    let mut out = Letters::new(alloc);
    push_row(&mut out, schema, serial, cells)?;
    push_whether(&mut out, is_again(schema, ty, serial, cells, bytes))?;
    shown(alloc, out.as_str())
}

/// Adds the serial and the values, each behind a blank.
fn push_row(
    out: &mut Letters,
    schema: &Schema,
    serial: u32,
    cells: &[Value],
) -> Result<(), AllocError> {
    out.push_str(" ")?;
    push_number(out, serial)?;
    for cell in cells {
        out.push_str(" ")?;
        push_value(out, cell, schema.type_names())?;
    }
    Ok(())
}

/// Whether a row that is written has these bytes.
fn is_again(schema: &Schema, ty: u16, serial: u32, cells: &[Value], bytes: &[u8]) -> bool
    requires known { ty < length schema.now.names }
    requires held { AreHeld (row_fields schema.now ty) (Int (pos serial) ∷ cells.now) }
    requires width { length bytes.now ≡ row_width schema.now ty }
    requires narrow { row_width schema.now ty ≤ 1000 }
{
    let mut again = [255; 1000];
    let width = bytes.len();
    write_row(schema, ty, serial, cells, &mut again[..width]);
    &again[..width] == bytes
}
