ghost use Rattle.std.specs.Prelude.{◌≡◌, ◌+◌, length, IsTrue, OnOk, OnErr};
ghost use Rattle.std.specs.Result.{result_err};
ghost use Rattle.st_values.specs.declared.value.Kind.TheVariants as kind;
ghost use Rattle.st_keys.specs.Keys.{width, has_kind, has_serial, Fits, IsEntity, key, entity_key, text_key};
ghost use Rattle.st_keys.specs.Causes.{too_long};

use crate::fault::ValueFault;
use byteorder::{BigEndian, ByteOrder};
use st_values::{EntityId, Kind, Value};

/// Writes the key of a value into a place of the width of its kind, or nothing where the value is a text that is
/// longer than its kind takes.
pub fn encode_key(value: &Value, kind: Kind, into: &mut [u8]) -> Result<(), ValueFault>
    requires kind { IsTrue (has_kind kind value.now) }
    requires width { length into.old ≡ width kind }
    ensures ok { OnOk result (into.new ≡ key kind value.now) }
    ensures fits { OnOk result (IsTrue (has_serial value.now) → Fits kind value.now) }
    ensures kept { OnErr result (into.new ≡ into.old) }
    ensures cause { result_err result ≡ too_long kind value.now }
{
    match (kind, value) {
        (Kind::Int, Value::Int(number)) => encode_integer(*number, into),
        (Kind::Bool, Value::Bool(truth)) => into[0] = u8::from(*truth),
        (Kind::Text(limit), Value::Text(text)) => return encode_text(text.as_slice(), limit, into),
        (Kind::Entity(_), Value::Entity(entity)) => encode_entity(*entity, into),
        _ => unreachable!(),
    }
    Ok(())
}

fn encode_integer(number: i64, into: &mut [u8])
    requires { length into.old ≡ 8 }
    ensures { into.new ≡ key kind.Int (Value.Int number) }
{
    BigEndian::write_u64(into, number.abs_diff(i64::MIN));
}

fn encode_entity(entity: EntityId, into: &mut [u8])
    requires { length into.old ≡ 6 }
    ensures key { into.new ≡ entity_key entity }
    ensures fits { IsTrue (has_serial (Value.Entity entity)) → IsEntity entity }
{
    BigEndian::write_u16(into, entity.ty);
    BigEndian::write_u32(&mut into[2..], entity.serial);
}

fn encode_text(text: &[u8], limit: u8, into: &mut [u8]) -> Result<(), ValueFault>
    requires { length into.old ≡ limit + 1 }
    ensures ok { OnOk result (into.new ≡ text_key limit text.now) }
    ensures kept { OnErr result (into.new ≡ into.old) }
    ensures cause { result_err result ≡ too_long (kind.Text limit) (Value.Text text.now) }
{
    let end = limit as usize;
    if text.len() > end {
        return Err(ValueFault::TextTooLong {
            length: text.len() as u64,
            limit,
        });
    }
    into[..text.len()].copy_from_slice(text);
    into[text.len()..end].fill(0);
    into[end] = text.len() as u8;
    Ok(())
}
