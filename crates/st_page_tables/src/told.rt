//! Answers as they are printed.

use st_text::Letters;
use st_values::{EntityId, Value, push_value};
use std::alloc::{AllocError, Global};
use std::fmt::Write;

/// Where bytes are refused.
pub fn wrong(alloc: Global, place: u16) -> Result<String, AllocError> {
    format!(in alloc; " wrong at {place}")
}

/// Adds a value of no schema: of an entity the number of its type stands in front of its serial.
pub fn push_plain(out: &mut Letters, value: &Value) -> Result<(), AllocError> {
    match value {
        Value::Entity(entity) => push_entity(out, *entity),
        other => push_value(out, other, &[]),
    }
}

/// Adds an entity: the number of its type, `#` and its serial.
pub fn push_entity(out: &mut Letters, entity: EntityId) -> Result<(), AllocError> {
    push_number(out, u32::from(entity.ty))?;
    out.push_str("#")?;
    push_number(out, entity.serial)
}

/// Adds a number.
pub fn push_number(out: &mut Letters, number: u32) -> Result<(), AllocError> {
    push_value(out, &Value::Int(i64::from(number)), &[])
}

/// Adds that a row or a key was written with other bytes than it was read from, where it was.
pub fn push_whether(out: &mut Letters, is_same: bool) -> Result<(), AllocError> {
    if is_same {
        Ok(())
    } else {
        out.push_str(" otherwise")
    }
}

/// A text as it is printed: of a letter that no line shows stand a backslash and two hexadecimal digits or more.
pub fn shown(alloc: Global, text: &str) -> Result<String, AllocError> {
    let mut out = String::new(alloc);
    for letter in text.chars() {
        push_shown(&mut out, letter)?;
    }
    Ok(out)
}

fn push_shown(out: &mut String, letter: char) -> Result<(), AllocError> {
    if letter < ' ' || letter == '\u{7f}' {
        let code = u32::from(letter);
        write!(out, "\\{code:02x}")
    } else {
        out.push(letter)
    }
}
