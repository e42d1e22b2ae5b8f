ghost use Rattle.std.specs.Prelude.{◌≡◌, ◌+◌, ◌≤◌, ◌++◌, length, take};
ghost use Rattle.st_keys.specs.Keys.{width, Fits, key};
ghost use Rattle.st_rows.specs.Rows.{field_width, Holds, HoldsInCell, spelled, serial_bytes, cell_bytes};
ghost use Rattle.st_rows.specs.declared.field.Field.TheVariants.{Serial};

use crate::field::{self, Field};
use byteorder::{BigEndian, ByteOrder};
use st_keys::{Kind, Value, encode_key};

/// Writes a value into the place of a field that holds it. The place has the field's width.
pub fn write_field(field: Field, value: &Value, into: &mut [u8])
    requires held { Holds field value.now }
    requires width { length into.old ≡ field_width field }
    ensures { into.new ≡ spelled field value.now }
{
    match field {
        Field::Serial => write_serial(value, into),
        Field::Cell(kind) => write_cell(kind, value, into),
        Field::Key(kind) => write_key(kind, value, into),
    }
}

fn write_serial(value: &Value, into: &mut [u8])
    requires held { Holds Serial value.now }
    requires width { length into.old ≡ 4 }
    ensures { into.new ≡ serial_bytes value.now }
{
    match value {
        Value::Int(serial) => BigEndian::write_u32(into, *serial as u32),
        _ => unreachable!(),
    }
}

fn write_cell(kind: Kind, value: &Value, into: &mut [u8])
    requires held { HoldsInCell kind value.now }
    requires width { length into.old ≡ 1 + width kind }
    ensures { into.new ≡ cell_bytes kind value.now }
{
    match value {
        Value::Null => into.fill(0),
        value => {
            into[0] = 1;
            write_key(kind, value, &mut into[1..]);
        }
    }
}

fn write_key(kind: Kind, value: &Value, into: &mut [u8])
    requires held { Fits kind value.now }
    requires width { length into.old ≡ width kind }
    ensures { into.new ≡ key kind value.now }
{
    match encode_key(value, kind, into) {
        Ok(()) => {}
        Err(_) => unreachable!(),
    }
}

/// Writes a value into the place of a field that begins at a byte, and answers where the field ends.
pub(crate) fn put_field(field: Field, value: &Value, into: &mut [u8], place: usize) -> usize
    requires held { Holds field value.now }
    requires width { place + field_width field ≤ length into.old }
    ensures end { result ≡ place + field_width field }
    ensures bytes { take (place + field_width field) into.new ≡ take place into.old ++ spelled field value.now }
{
    let end = place + field::field_width(field);
    write_field(field, value, &mut into[place..end]);
    end
}
