//! Values: how they are printed, and their order.

use crate::forms::forms_of;
use sqlite_items::Items;
use st_cases::Case;
use st_sexp::{Form, Shape, as_number, as_pair};
use st_text::{Duplicate, Letters};
use st_values::{EntityId, Value, Values, compare, push_value};
use std::alloc::{AllocError, Global};
use std::cmp::Ordering;

/// The values that a text spells, as they are printed, each with its order to the next: `<`, `=` or `>`.
///
/// A number, a quoted text, `true` and `false` spell themselves, `(1 12)` the entity 12 of the type at position 1, and
/// each other name spells null. The front has the names of the types.
pub fn printed(alloc: Global, case: &Case) -> Result<String, AllocError> {
    let names = names_of(alloc, str::from_utf8(&case.front).unwrap_or(""))?;
    let values = values_of(alloc, &case.text)?;
    let mut out = Letters::new(alloc);
    let mut last = None;
    for value in values.as_slice() {
        if let Some(last) = last {
            out.push_str(sign(compare(last, value)))?;
        }
        out.push(' ')?;
        push_value(&mut out, value, &names)?;
        last = Some(value);
    }
    Ok(out.into_string())
}

fn sign(order: Ordering) -> &'static str {
    match order {
        Ordering::Less => " <",
        Ordering::Equal => " =",
        Ordering::Greater => " >",
    }
}

fn names_of(alloc: Global, text: &str) -> Result<Vec<Letters>, AllocError> {
    let mut names = Vec::new(alloc);
    for name in text.split_whitespace() {
        names.push(Letters::from_text(alloc, name)?)?;
    }
    Ok(names)
}

/// The values of the forms of a text, by way of their copies; none where it has a fault.
fn values_of(alloc: Global, text: &[u8]) -> Result<Values, AllocError> {
    let mut values = Items::new(alloc);
    if let Ok(forms) = forms_of(alloc, text) {
        for form in forms.as_slice() {
            let value = value_of(alloc, form)?;
            values.push(value.copy(alloc)?)?;
        }
    }
    Ok(values)
}

fn value_of(alloc: Global, form: &Form) -> Result<Value, AllocError> {
    match &form.shape {
        Shape::Name(name) => Ok(named(name.as_str())),
        Shape::Number(number) => Ok(Value::Int(*number)),
        Shape::Quoted(text) => Ok(Value::Text(text.copy(alloc)?)),
        Shape::List(forms) => Ok(entity(forms.as_slice())),
    }
}

fn named(name: &str) -> Value {
    match name {
        "true" => Value::Bool(true),
        "false" => Value::Bool(false),
        _ => Value::Null,
    }
}

fn entity(forms: &[Form]) -> Value {
    let Some((ty, serial)) = as_pair(forms) else {
        return Value::Null;
    };
    Value::Entity(EntityId {
        ty: as_number(ty)
            .and_then(|ty| u16::try_from(ty).ok())
            .unwrap_or(0),
        serial: as_number(serial)
            .and_then(|serial| u32::try_from(serial).ok())
            .unwrap_or(0),
    })
}
