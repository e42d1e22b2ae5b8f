//! The rules that need no base: 11, 8 and 3.
ghost use Rattle.std.specs.Prelude.{◌≡◌, ◌∷◌, [], IfOk};
ghost use Rattle.st_lattice.specs.Outline.{type_name, attribute_name};
ghost use Rattle.st_lattice.specs.Called.{called_copied};
ghost use Rattle.st_state.specs.Refusals.{first_of};
ghost use Rattle.st_state.specs.Bases.{shared_with};
ghost use Rattle.st_meaning.specs.Rules.{null_target, too_long, missing};
ghost use Rattle.st_changes.specs.Effects.{Tells, filling_rules, set_rules, add_rules, take_rules};

use st_lattice::{Attribute, Called, Schema};
use st_plain::{BaseFault, Refusal};
use st_text::Letters;
use st_values::{EntityId, Kind, Value};
use std::alloc::{AllocError, Global};

fn name_of(schema: &Schema, ty: u16) -> &str
    ensures { result.now ≡ type_name schema.now ty }
{
    match schema.type_names().get(ty as usize) {
        Some(name) => name.as_str(),
        None => "",
    }
}

fn attribute_name(
    alloc: Global,
    schema: &Schema,
    attribute: &Attribute,
) -> Result<Letters, AllocError>
    ensures { IfOk result (λ name. name ≡ attribute_name schema.now attribute.now) }
{
    let mut name = Letters::from_text(alloc, name_of(schema, attribute.owner))?;
    name.push_str(".")?;
    name.push_str(attribute.name.as_str())?;
    Ok(name)
}

/// Rule 11: what is to be changed or deleted must not be null.
pub(crate) fn not_null(target: &Value) -> Result<(), BaseFault>
    ensures { Tells (null_target target.now) result }
{
    match target {
        Value::Null => Err(BaseFault::Refused(Refusal::NullEntity)),
        _ => Ok(()),
    }
}

/// Rule 8 where a text is longer than an attribute's kind allows.
pub(crate) fn too_long(kind: Kind, value: &Value) -> Option<Refusal>
    ensures { result ≡ too_long kind value.now }
{
    match (kind, value) {
        (Kind::Text(limit), Value::Text(text)) => {
            if text.len() <= limit as usize {
                None
            } else {
                Some(Refusal::TextTooLong {
                    length: text.len() as u64,
                    limit: limit as u32,
                })
            }
        }
        _ => None,
    }
}

/// Rule 8: a text that is to be stored must not be longer than the attribute's kind allows.
#[tactic(auto, using(crate::proofs::Running::long_own))]
fn short_enough(kind: Kind, value: &Value) -> Result<(), BaseFault>
    ensures { Tells (too_long kind value.now) result }
{
    match too_long(kind, value) {
        None => Ok(()),
        Some(refusal) => Err(BaseFault::Refused(refusal)),
    }
}

/// Rule 3: where a value is wanted, it must not be null.
fn given(
    alloc: Global,
    schema: &Schema,
    attribute: &Attribute,
    value: &Value,
    wanted: bool,
) -> Result<(), BaseFault>
    ensures { Tells (missing schema.now (record { attribute = attribute.now; value = value.now; wanted = wanted })) result }
{
    match value {
        Value::Null if wanted => Err(BaseFault::Refused(Refusal::NullNotAllowed {
            attribute: attribute_name(alloc, schema, attribute)?,
        })),
        _ => Ok(()),
    }
}

/// Rule 4 of a value that goes into a set or out of it: no entity has it.
pub(crate) fn not_held(
    alloc: Global,
    schema: &Schema,
    attribute: &Attribute,
    holder: Option<EntityId>,
) -> Result<(), BaseFault>
    ensures { Tells (shared_with schema.now attribute.now holder) result }
{
    match holder {
        Some(holder) => {
            let attribute = attribute_name(alloc, schema, attribute)?;
            Err(BaseFault::Refused(Refusal::NotUnique { attribute, holder }))
        }
        None => Ok(()),
    }
}

/// Rules 8 and 3.
fn fits(
    alloc: Global,
    schema: &Schema,
    attribute: &Attribute,
    value: &Value,
    wanted: bool,
) -> Result<(), BaseFault>
    ensures { Tells (first_of (filling_rules schema.now (record { attribute = attribute.now; value = value.now; wanted = wanted } ∷ []))) result }
{
    short_enough(attribute.kind, value)?;
    given(alloc, schema, attribute, value, wanted)
}

/// Rules 11, 8 and 3 of a set.
pub(crate) fn can_set(
    alloc: Global,
    schema: &Schema,
    called: Called<&Attribute>,
    target: &Value,
    value: &Value,
) -> Result<(), BaseFault>
    ensures { Tells (first_of (set_rules schema.now (called_copied called.entry) target.now value.now)) result }
{
    not_null(target)?;
    match called {
        Called::Own(attribute) => fits(alloc, schema, attribute, value, attribute.no_nulls),
        Called::Nothing | Called::Inverse(_) => Ok(()),
    }
}

/// Rules 11, 8 and 3 of a value that is put into a set: null is in none.
pub(crate) fn can_add(
    alloc: Global,
    schema: &Schema,
    called: Called<&Attribute>,
    target: &Value,
    value: &Value,
) -> Result<(), BaseFault>
    ensures { Tells (first_of (add_rules schema.now (called_copied called.entry) target.now value.now)) result }
{
    not_null(target)?;
    match called {
        Called::Own(attribute) => fits(alloc, schema, attribute, value, true),
        Called::Nothing | Called::Inverse(_) => Ok(()),
    }
}

/// Rules 11 and 3 of a value that is taken out of a set. It is not stored, so that a text may be too long.
pub(crate) fn can_take(
    alloc: Global,
    schema: &Schema,
    called: Called<&Attribute>,
    target: &Value,
    value: &Value,
) -> Result<(), BaseFault>
    ensures { Tells (first_of (take_rules schema.now (called_copied called.entry) target.now value.now)) result }
{
    not_null(target)?;
    match called {
        Called::Own(attribute) => given(alloc, schema, attribute, value, true),
        Called::Nothing | Called::Inverse(_) => Ok(()),
    }
}
