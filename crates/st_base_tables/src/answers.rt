//! Answers as they are printed: each is added to the end of a text.

use st_lattice::Schema;
use st_plain::{BaseFault, Refusal};
use st_text::Letters;
use st_values::{EntityId, Value, push_value};
use std::alloc::AllocError;

/// Whether something is so.
pub fn push_whether(out: &mut Letters, is_so: bool) -> Result<(), AllocError> {
    out.push_str(if is_so { "true" } else { "false" })
}

/// An entity.
pub fn push_entity(out: &mut Letters, schema: &Schema, entity: EntityId) -> Result<(), AllocError> {
    push_value(out, &Value::Entity(entity), schema.type_names())
}

/// Values in braces.
pub fn push_values(out: &mut Letters, schema: &Schema, values: &[Value]) -> Result<(), AllocError> {
    out.push_str("{")?;
    for (index, value) in values.iter().enumerate() {
        if index > 0 {
            out.push_str(" ")?;
        }
        push_value(out, value, schema.type_names())?;
    }
    out.push_str("}")
}

/// Entities in braces.
pub fn push_entities(
    out: &mut Letters,
    schema: &Schema,
    entities: &[EntityId],
) -> Result<(), AllocError> {
    out.push_str("{")?;
    for (index, entity) in entities.iter().enumerate() {
        if index > 0 {
            out.push_str(" ")?;
        }
        push_entity(out, schema, *entity)?;
    }
    out.push_str("}")
}

/// The rule that refuses, and its fields; or another fault.
pub fn push_fault(out: &mut Letters, schema: &Schema, fault: &BaseFault) -> Result<(), AllocError> {
    match fault {
        BaseFault::Refused(refusal) => push_refused(out, schema, refusal),
        BaseFault::Page(_) => out.push_str("page"),
        BaseFault::Memory => out.push_str("memory"),
    }
}

fn push_refused(out: &mut Letters, schema: &Schema, refusal: &Refusal) -> Result<(), AllocError> {
    match refusal {
        Refusal::NotUnique { attribute, holder } => {
            out.push_str("refused 4 ")?;
            out.push_str(attribute.as_str())?;
            out.push_str(" ")?;
            push_entity(out, schema, *holder)
        }
        Refusal::StillNeeded { entity, attribute } => {
            out.push_str("refused 6 ")?;
            push_entity(out, schema, *entity)?;
            out.push_str(" ")?;
            out.push_str(attribute.as_str())
        }
        Refusal::NumbersSpent { ty } => {
            out.push_str("refused 9 ")?;
            out.push_str(ty.as_str())
        }
        _ => out.push_str("refused"),
    }
}
