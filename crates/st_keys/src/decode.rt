ghost use Rattle.std.specs.Prelude.{◌≡◌, ◌≢◌, ◌≤◌, ◌+◌, ◌==◌, ℕ, List, length, IsTrue, IsUtf8, IfOk, IfErr, IfSome, IfNone};
ghost use Rattle.std.specs.List.{list_all};
ghost use Rattle.st_values.specs.declared.value.EntityId.{EntityId};
ghost use Rattle.st_values.specs.declared.value.Kind.TheVariants as kind;
ghost use Rattle.st_keys.specs.Keys.{width, has_kind, Fits, IsEntity, key, entity_key, text_key};
ghost use Rattle.st_keys.specs.Causes.{IsCause};

use crate::fault::KeyFault;
use byteorder::{BigEndian, ByteOrder};
use st_values::{EntityId, Kind, Text, Value};
use std::alloc::Global;

/// The value of a kind that has these bytes as its key, or `BadKey` where no value has.
pub fn decode_key(alloc: Global, bytes: &[u8], kind: Kind) -> Result<Value, KeyFault>
    requires { length bytes.now ≡ width kind }
    ensures kind { IfOk result (λ value. IsTrue (has_kind kind value)) }
    ensures fits { IfOk result (λ value. Fits kind value) }
    ensures bytes { IfOk result (λ value. key kind value ≡ bytes.now) }
    ensures cause { IfErr result (λ fault. IsCause kind bytes.now fault) }
{
    match kind {
        Kind::Int => Ok(Value::Int(decode_integer(bytes))),
        Kind::Bool => match bytes[0] {
            0 => Ok(Value::Bool(false)),
            1 => Ok(Value::Bool(true)),
            _ => Err(KeyFault::BadKey { place: 0 }),
        },
        Kind::Text(limit) => match text_of(bytes, limit) {
            Some(text) => Ok(Value::Text(Text::from_text(alloc, text)?)),
            None => Err(KeyFault::BadKey {
                place: limit as u16,
            }),
        },
        Kind::Entity(_) => match entity_of(bytes) {
            Some(entity) => Ok(Value::Entity(entity)),
            None => Err(KeyFault::BadKey { place: 5 }),
        },
    }
}

fn decode_integer(bytes: &[u8]) -> i64
    requires { length bytes.now ≡ 8 }
    ensures { key kind.Int (Value.Int result) ≡ bytes.now }
{
    i64::MIN.wrapping_add_unsigned(BigEndian::read_u64(bytes))
}

fn entity_of(bytes: &[u8]) -> Option<EntityId>
    requires { length bytes.now ≡ 6 }
    ensures some { IfSome result (λ entity. IsEntity entity × (entity_key entity ≡ bytes.now)) }
    ensures none { IfNone result
        ((entity : EntityId) → IsEntity entity → entity_key entity ≢ bytes.now) }
{
    let serial = BigEndian::read_u32(&bytes[2..]);
    if serial == 0 {
        return None;
    }
    let ty = BigEndian::read_u16(bytes);
    Some(EntityId { ty, serial })
}

fn text_of(bytes: &[u8], limit: u8) -> Option<&str>
    requires { length bytes.now ≡ limit + 1 }
    ensures some { IfSome result (λ text.
        (length text.now ≤ limit) × IsUtf8 text.now × (text_key limit text.now ≡ bytes.now)) }
    ensures none { IfNone result
        ((text : List ℕ) → length text ≤ limit → IsUtf8 text → text_key limit text ≢ bytes.now) }
{
    let end = limit as usize;
    let length = bytes[end] as usize;
    if length > end || !is_blank(&bytes[length..end]) {
        return None;
    }
    match std::str::from_utf8(&bytes[..length]) {
        Ok(text) => Some(text),
        Err(_) => None,
    }
}

fn is_blank(bytes: &[u8]) -> bool
    ensures { result ≡ list_all (λ byte. byte == 0) bytes.now }
{
    bytes.iter().all(|byte| *byte == 0)
}
