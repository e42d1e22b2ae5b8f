//! The order of values and that of entities.
ghost use Rattle.std.specs.Prelude.{◌≡◌};
ghost use Rattle.st_values.specs.Order.{entity_order, entity_before, same_entity, value_order, value_before, same_value, kind_place};

use crate::{EntityId, Value};
use std::cmp::Ordering;

/// The order of entities: by type, and then by serial.
pub fn compare_entities(a: EntityId, b: EntityId) -> Ordering
    ensures { result ≡ entity_order a b }
{
    match a.ty.cmp(&b.ty) {
        Ordering::Equal => a.serial.cmp(&b.serial),
        other => other,
    }
}

/// Whether an entity stands before another one.
pub fn is_entity_before(a: EntityId, b: EntityId) -> bool
    ensures { result ≡ entity_before a b }
{
    compare_entities(a, b) == Ordering::Less
}

/// Whether two entities are the same.
pub fn is_same_entity(a: EntityId, b: EntityId) -> bool
    ensures { result ≡ same_entity a b }
{
    compare_entities(a, b) == Ordering::Equal
}

fn kind_place(value: &Value) -> u8
    ensures { result ≡ kind_place value.now }
{
    match value {
        Value::Null => 0,
        Value::Int(_) => 1,
        Value::Bool(_) => 2,
        Value::Text(_) => 3,
        Value::Entity(_) => 4,
    }
}

/// The order of values: null first, then integers by number, false before true, texts by their
/// bytes, and entities by type and serial.
pub fn compare(a: &Value, b: &Value) -> Ordering
    ensures { result ≡ value_order a.now b.now }
{
    match (a, b) {
        (Value::Int(a), Value::Int(b)) => a.cmp(b),
        (Value::Bool(a), Value::Bool(b)) => a.cmp(b),
        (Value::Text(a), Value::Text(b)) => a.as_slice().cmp(b.as_slice()),
        (Value::Entity(a), Value::Entity(b)) => compare_entities(*a, *b),
        (a, b) => kind_place(a).cmp(&kind_place(b)),
    }
}

/// Whether a value stands before another one.
pub fn is_before(a: &Value, b: &Value) -> bool
    ensures { result ≡ value_before a.now b.now }
{
    compare(a, b) == Ordering::Less
}

/// Whether two values are the same.
pub fn is_same(a: &Value, b: &Value) -> bool
    ensures { result ≡ same_value a.now b.now }
{
    compare(a, b) == Ordering::Equal
}
