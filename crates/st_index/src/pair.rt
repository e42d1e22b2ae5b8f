//! One row of an index or inverse: how it is written, and how it is read.
ghost use Rattle.std.specs.Prelude.{◌≡◌, length, IfOk, IfErr, true};
ghost use Rattle.st_values.specs.declared.value.Kind.TheVariants as kind;
ghost use Rattle.st_lattice.specs.Lattice.{isa};
ghost use Rattle.st_keys.specs.Keys.{Fits, IsEntity};
ghost use Rattle.st_rows.specs.Rows.{pair_width};
ghost use Rattle.st_index.specs.Turned.{turned_row};
ghost use Rattle.st_index.specs.Bad.{is_of_kind, IsPairCause};

use st_lattice::{Attribute, Schema};
use st_rows::{Field, RowFault, field_width, read_pair};
use st_values::{EntityId, Kind, Value};
use std::alloc::Global;

/// Whether a value is of a kind as far as its type goes, by `is_of_kind`: the type of an entity has to be that of the kind or
/// one below it; any other value is. It never fails.
pub fn is_of_kind(schema: &Schema, kind: Kind, value: &Value) -> bool
    ensures { result ≡ is_of_kind schema.now kind value.now }
{
    match (kind, value) {
        (Kind::Entity(ty), Value::Entity(entity)) => schema.isa(entity.ty, ty),
        _ => true,
    }
}

/// The value and the entity in a row, or the place of the row at which it is none.
pub(crate) fn pair_in(
    alloc: Global,
    schema: &Schema,
    attribute: &Attribute,
    row: &[u8],
) -> Result<(Value, EntityId), RowFault>
    requires { length row.now ≡ pair_width attribute.now.kind }
    ensures value { IfOk result (λ pair. Fits attribute.now.kind pair.0) }
    ensures entity { IfOk result (λ pair. IsEntity pair.1) }
    ensures row { IfOk result (λ pair. turned_row attribute.now.kind pair.0 pair.1 ≡ row.now) }
    ensures cause { IfErr result (λ fault. IsPairCause schema.now attribute.now row.now fault) }
{
    match read_pair(alloc, row, attribute.kind, true) {
        Ok((value, entity)) => {
            if !is_of_kind(schema, attribute.kind, &value) {
                return Err(RowFault::BadRow { place: 0 });
            }
            if !schema.isa(entity.ty, attribute.owner) {
                return Err(RowFault::BadRow {
                    place: field_width(Field::Key(attribute.kind)) as u16,
                });
            }
            Ok((value, entity))
        }
        Err(fault) => Err(fault),
    }
}
