//! What a call is given: forms, as a schema names what they stand for.

use st_lattice::{Called, Schema};
use st_sexp::{Form, Forms, SexpFault, Shape, as_name, as_number, read};
use st_text::Duplicate;
use st_values::{EntityId, Value};
use std::alloc::{AllocError, Global};

/// The forms of a text; it has a fault of memory where it is longer than texts may be.
pub fn forms_of(alloc: Global, text: &[u8]) -> Result<Forms, SexpFault> {
    if text.len() > 1048576 {
        return Err(SexpFault::Memory);
    }
    read(alloc, text)
}

/// The name that a form is, or nothing.
pub fn name_of(form: Option<&Form>) -> &str {
    let Some(form) = form else {
        return "";
    };
    match as_name(form) {
        Some(name) => name.as_str(),
        None => "",
    }
}

/// The entity that a form writes out, `type#serial`; of a type that no schema has where it writes none.
pub fn entity_of(schema: &Schema, form: Option<&Form>) -> EntityId {
    let (ty, serial) = name_of(form).split_once('#').unwrap_or(("", ""));
    EntityId {
        ty: schema.type_named(ty.as_bytes()).unwrap_or(u16::MAX),
        serial: serial.parse::<u32>().unwrap_or(0),
    }
}

/// The number of the attribute that a form calls; one that no attribute has where it calls none.
pub fn number_of(schema: &Schema, form: Option<&Form>) -> u16 {
    match schema.called(name_of(form).as_bytes()) {
        Called::Own(attribute) => attribute.number,
        Called::Inverse(_) | Called::Nothing => u16::MAX,
    }
}

/// The value that a form writes out; null where it writes none.
pub fn value_of(alloc: Global, schema: &Schema, form: Option<&Form>) -> Result<Value, AllocError> {
    match form {
        Some(form) => match &form.shape {
            Shape::Number(number) => Ok(Value::Int(*number)),
            Shape::Quoted(text) => Ok(Value::Text(text.copy(alloc)?)),
            _ => Ok(named_value(schema, Some(form))),
        },
        None => Ok(Value::Null),
    }
}

fn named_value(schema: &Schema, form: Option<&Form>) -> Value {
    match name_of(form) {
        "true" => Value::Bool(true),
        "false" => Value::Bool(false),
        name if name.contains('#') => Value::Entity(entity_of(schema, form)),
        _ => Value::Null,
    }
}

/// The serial that a form is; 0 where it is none.
pub fn serial_of(form: &Form) -> u32 {
    match as_number(form) {
        Some(number) => u32::try_from(number).unwrap_or(0),
        None => 0,
    }
}
