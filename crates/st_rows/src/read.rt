ghost use Rattle.std.specs.Prelude.{◌≡◌, ◌+◌, ◌^◌, ◌≤◌, ◌<◌, pos, length, slice_index, take, drop, position, IfOk, IfErr, IfSome, OnOk};
ghost use Rattle.st_keys.specs.Keys.{width, Fits, key};
ghost use Rattle.st_rows.specs.Rows.{field_width, Holds, HoldsInCell, spelled, serial_bytes, cell_bytes, is_filled};
ghost use Rattle.st_rows.specs.Causes.{IsFieldCause, IsCauseAt, IsPushed};
ghost use Rattle.st_rows.specs.declared.field.Field.TheVariants.{Serial, Cell, Key};

use crate::fault::{self, RowFault};
use crate::field::{self, Field};
use byteorder::{BigEndian, ByteOrder};
use st_keys::{Kind, Value, decode_key};
use st_values::Values;
use std::alloc::Global;

/// The value that a field holds with these bytes, which have the field's width, or `BadRow` with the place of the first
/// one that the field refuses.
pub fn read_field(alloc: Global, field: Field, bytes: &[u8]) -> Result<Value, RowFault>
    requires { length bytes.now ≡ field_width field }
    ensures held { IfOk result (λ value. Holds field value) }
    ensures bytes { IfOk result (λ value. spelled field value ≡ bytes.now) }
    ensures cause { IfErr result (λ fault. IsFieldCause field bytes.now fault) }
{
    match field {
        Field::Serial => Ok(Value::Int(read_serial(bytes)? as i64)),
        Field::Cell(kind) => read_cell(alloc, kind, bytes),
        Field::Key(kind) => read_key(alloc, kind, bytes),
    }
}

/// The serial in 4 bytes.
pub(crate) fn read_serial(bytes: &[u8]) -> Result<u32, RowFault>
    requires { length bytes.now ≡ 4 }
    ensures held { IfOk result (λ serial. Holds Serial (Value.Int (pos serial))) }
    ensures bytes { IfOk result (λ serial. serial_bytes (Value.Int (pos serial)) ≡ bytes.now) }
    ensures cause { IfErr result (λ fault. IsFieldCause Serial bytes.now fault) }
{
    let serial = BigEndian::read_u32(bytes);
    if serial == 0 {
        return Err(RowFault::BadRow { place: 3 });
    }
    Ok(serial)
}

fn read_cell(alloc: Global, kind: Kind, bytes: &[u8]) -> Result<Value, RowFault>
    requires { length bytes.now ≡ 1 + width kind }
    ensures held { IfOk result (λ value. HoldsInCell kind value) }
    ensures bytes { IfOk result (λ value. cell_bytes kind value ≡ bytes.now) }
    ensures cause { IfErr result (λ fault. IsFieldCause (Cell kind) bytes.now fault) }
{
    match bytes[0] {
        0 => read_null(kind, bytes),
        1 => match read_key(alloc, kind, &bytes[1..]) {
            Ok(value) => Ok(value),
            Err(fault) => Err(fault::moved(fault, 1)),
        },
        _ => Err(RowFault::BadRow { place: 0 }),
    }
}

/// Null from a cell whose first byte is 0.
fn read_null(kind: Kind, bytes: &[u8]) -> Result<Value, RowFault>
    requires zero { slice_index bytes.now 0 ≡ 0 }
    requires width { length bytes.now ≡ 1 + width kind }
    ensures held { IfOk result (λ value. HoldsInCell kind value) }
    ensures bytes { IfOk result (λ value. cell_bytes kind value ≡ bytes.now) }
    ensures cause { IfErr result (λ fault. IsFieldCause (Cell kind) bytes.now fault) }
{
    match first_filled(bytes) {
        None => Ok(Value::Null),
        Some(place) => Err(RowFault::BadRow {
            place: place as u16,
        }),
    }
}

fn first_filled(bytes: &[u8]) -> Option<usize>
    ensures value { result ≡ position is_filled bytes.now }
    ensures within { IfSome result (λ place. place < length bytes.now) }
{
    bytes.iter().position(|byte| *byte > 0)
}

fn read_key(alloc: Global, kind: Kind, bytes: &[u8]) -> Result<Value, RowFault>
    requires { length bytes.now ≡ width kind }
    ensures held { IfOk result (λ value. Fits kind value) }
    ensures bytes { IfOk result (λ value. key kind value ≡ bytes.now) }
    ensures cause { IfErr result (λ fault. IsFieldCause (Key kind) bytes.now fault) }
{
    match decode_key(alloc, bytes, kind) {
        Ok(value) => Ok(value),
        Err(fault) => Err(fault::of_key(fault)),
    }
}

/// The value of a field that begins at a byte, or a fault with the place among all bytes.
pub(crate) fn read_at(
    alloc: Global,
    field: Field,
    bytes: &[u8],
    place: usize,
) -> Result<Value, RowFault>
    requires width { place + field_width field ≤ length bytes.now }
    requires small { length bytes.now ≤ 2 ^ 16 }
    ensures held { IfOk result (λ value. Holds field value) }
    ensures bytes { IfOk result (λ value. spelled field value ≡ take (field_width field) (drop place bytes.now)) }
    ensures cause { IfErr result (λ fault. IsCauseAt field bytes.now place fault) }
{
    let end = place + field::field_width(field);
    match read_field(alloc, field, &bytes[place..end]) {
        Ok(value) => Ok(value),
        Err(fault) => Err(fault::moved(fault, place)),
    }
}

/// Adds the value of a field that begins at a byte, and answers where the field ends.
pub(crate) fn push_at(
    alloc: Global,
    field: Field,
    bytes: &[u8],
    place: usize,
    values: &mut Values,
) -> Result<usize, RowFault>
    requires width { place + field_width field ≤ length bytes.now }
    requires small { length bytes.now ≤ 2 ^ 16 }
    ensures ok { IfOk result (λ end. end ≡ place + field_width field) }
    ensures value { OnOk result (IsPushed field bytes.now place values.old values.new) }
    ensures cause { IfErr result (λ fault. IsCauseAt field bytes.now place fault) }
{
    let value = read_at(alloc, field, bytes, place)?;
    values.push(value)?;
    Ok(place + field::field_width(field))
}
