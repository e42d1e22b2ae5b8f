//! The words of calls.

use st_values::{EntityId, Letters, Value};
use std::alloc::{AllocError, Global};
use std::str::SplitWhitespace;

/// The number that the next word spells, of a type or an attribute; the greatest one where it spells none.
pub fn number(words: &mut SplitWhitespace<'_>) -> u16 {
    words
        .next()
        .unwrap_or("")
        .parse::<u16>()
        .unwrap_or(u16::MAX)
}

/// The entity of the next two words, the number of its type and its serial.
pub fn entity(words: &mut SplitWhitespace<'_>) -> EntityId {
    let ty = number(words);
    EntityId {
        ty,
        serial: serial_of(words.next().unwrap_or("")),
    }
}

fn serial_of(word: &str) -> u32 {
    word.parse::<u32>().unwrap_or(0)
}

/// The value of the next word: `null`, `true`, `false`, a text behind `'`, an entity, or an integer.
pub fn value(alloc: Global, words: &mut SplitWhitespace<'_>) -> Result<Value, AllocError> {
    match words.next().unwrap_or("") {
        "null" => Ok(Value::Null),
        "true" => Ok(Value::Bool(true)),
        "false" => Ok(Value::Bool(false)),
        word => other_value(alloc, word),
    }
}

fn other_value(alloc: Global, word: &str) -> Result<Value, AllocError> {
    if let Some(text) = word.strip_prefix('\'') {
        return Ok(Value::Text(Letters::from_text(alloc, text)?));
    }
    if let Some((ty, serial)) = word.split_once(':') {
        return Ok(Value::Entity(EntityId {
            ty: ty.parse::<u16>().unwrap_or(u16::MAX),
            serial: serial_of(serial),
        }));
    }
    Ok(Value::Int(word.parse::<i64>().unwrap_or(0)))
}
