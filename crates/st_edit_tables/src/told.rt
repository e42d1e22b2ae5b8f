//! Answers as they are printed, each behind a blank.

use st_page::PageFault;
use st_plain::{BaseFault, Refusal};
use st_values::{EntityId, Value};
use std::alloc::AllocError;
use std::fmt::Write;

/// Whether something is so.
pub fn push_whether(out: &mut String, is_so: bool) -> Result<(), AllocError> {
    out.push_str(if is_so { " true" } else { " false" })
}

/// An entity, by the number of its type and its serial.
pub fn push_entity(out: &mut String, entity: EntityId) -> Result<(), AllocError> {
    let ty = entity.ty;
    let serial = entity.serial;
    write!(out, " {ty}:{serial}")
}

/// Entities in brackets.
pub fn push_entities(out: &mut String, entities: &[EntityId]) -> Result<(), AllocError> {
    out.push_str(" [")?;
    for entity in entities {
        push_entity(out, *entity)?;
    }
    out.push_str(" ]")
}

/// A value, as calls are given it.
pub fn push_value(out: &mut String, value: &Value) -> Result<(), AllocError> {
    match value {
        Value::Null => out.push_str(" null"),
        Value::Bool(is_so) => push_whether(out, *is_so),
        Value::Int(number) => write!(out, " {number}"),
        Value::Text(letters) => {
            out.push_str(" '")?;
            out.push_str(letters.as_str())
        }
        Value::Entity(entity) => push_entity(out, *entity),
    }
}

/// Values in brackets.
pub fn push_values(out: &mut String, values: &[Value]) -> Result<(), AllocError> {
    out.push_str(" [")?;
    for value in values {
        push_value(out, value)?;
    }
    out.push_str(" ]")
}

/// Why a call did not do what was asked. `AllocError` where memory wanted.
pub fn push_fault(out: &mut String, fault: &BaseFault) -> Result<(), AllocError> {
    match fault {
        BaseFault::Refused(refusal) => push_refused(out, refusal),
        BaseFault::Page(PageFault::BadPage { page, place }) => write!(out, " bad {page} {place}"),
        BaseFault::Page(_) => out.push_str(" fault"),
        BaseFault::Memory => Err(AllocError),
    }
}

/// The number of the rule that refuses, and its fields.
fn push_refused(out: &mut String, refusal: &Refusal) -> Result<(), AllocError> {
    match refusal {
        Refusal::NotUnique { attribute, holder } => {
            out.push_str(" refused 4 ")?;
            out.push_str(attribute.as_str())?;
            push_entity(out, *holder)
        }
        Refusal::StillNeeded { entity, attribute } => {
            out.push_str(" refused 6")?;
            push_entity(out, *entity)?;
            out.push_str(" ")?;
            out.push_str(attribute.as_str())
        }
        Refusal::NumbersSpent { .. } => out.push_str(" refused 9"),
        Refusal::TooManyPages { .. } => out.push_str(" refused 12"),
        Refusal::Full { .. } => out.push_str(" refused 13"),
        _ => out.push_str(" refused"),
    }
}
