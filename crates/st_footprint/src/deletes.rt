//! What is noted of an entity that is deleted.
ghost use Rattle.std.specs.Prelude.{◌≡◌, flat_map, filter, IfOk, OnOk};
ghost use Rattle.std.specs.Option.{option_copied};
ghost use Rattle.st_lattice.specs.Called.{called_copied};
ghost use Rattle.st_lattice.specs.Stores.{whole, kind_types, may_refer, deleted};
ghost use Rattle.st_query.specs.Terms.{bound_to};
ghost use Rattle.st_query.specs.Ways.{way};
ghost use Rattle.st_query.specs.Footprint.{value_types, feature_types, possible_types};
ghost use Rattle.st_footprint.specs.Noted.{noted};

use crate::Footprint;
use crate::notes::{note_asides, note_whole};
use crate::starts::variable_named;
use sqlite_items::Items;
use st_lattice::{Attribute, Called, Numbers, Schema, StoreKind, store};
use st_query::{Term, Variable, literal_value};
use st_values::{Kind, Value};
use std::alloc::{AllocError, Global};

/// The types of the entities that values of a kind are.
fn kind_types(alloc: Global, schema: &Schema, kind: Kind) -> Result<Numbers, AllocError>
    ensures { IfOk result (λ types. types ≡ kind_types schema.now kind) }
{
    match kind {
        Kind::Entity(ty) => schema.descendants(alloc, ty),
        Kind::Int | Kind::Bool | Kind::Text(_) => Ok(Items::new(alloc)),
    }
}

/// The type of the entity that a value is.
fn value_types(alloc: Global, value: &Value) -> Result<Numbers, AllocError>
    ensures { IfOk result (λ types. types ≡ value_types value.now) }
{
    let mut types = Items::new(alloc);
    if let Value::Entity(entity) = value {
        types.push(entity.ty)?;
    }
    Ok(types)
}

/// The type of the entity that a variable is bound to.
fn bound_types(alloc: Global, variable: Option<&Variable>) -> Result<Numbers, AllocError>
    ensures { IfOk result (λ types. types ≡ value_types (bound_to (option_copied variable.entry))) }
{
    match variable {
        Some(variable) => value_types(alloc, &variable.value),
        None => Ok(Items::new(alloc)),
    }
}

/// The types of the entities that a feature gives.
fn feature_types(
    alloc: Global,
    schema: &Schema,
    feature: Called<&Attribute>,
) -> Result<Numbers, AllocError>
    ensures { IfOk result (λ types. types ≡ feature_types schema.now (called_copied feature.entry)) }
{
    match feature {
        Called::Nothing => Ok(Items::new(alloc)),
        Called::Own(attribute) => kind_types(alloc, schema, attribute.kind),
        Called::Inverse(attribute) => schema.descendants(alloc, attribute.owner),
    }
}

/// The types that the entity may have for which a term stands.
fn possible_types(
    alloc: Global,
    schema: &Schema,
    variables: &[Variable],
    term: &Term,
) -> Result<Numbers, AllocError>
    ensures { IfOk result (λ types. types ≡ possible_types schema.now variables.now (way term.now).features (way term.now).start) }
{
    match term {
        Term::Literal(written) => {
            let value = literal_value(alloc, schema, written)?;
            value_types(alloc, &value)
        }
        Term::Variable(name) => bound_types(alloc, variable_named(variables, name.as_slice())),
        Term::Path(feature, _) => feature_types(alloc, schema, schema.called(feature.as_slice())),
    }
}

/// Whether an attribute may refer to an entity of a type.
fn may_refer(
    alloc: Global,
    schema: &Schema,
    ty: u16,
    attribute: &Attribute,
) -> Result<bool, AllocError>
    ensures { IfOk result (λ answer. answer ≡ may_refer schema.now ty attribute.now) }
{
    let types = kind_types(alloc, schema, attribute.kind)?;
    Ok(types.as_slice().contains(&ty))
}

/// Notes all of the attributes that may refer to an entity of a type.
fn note_referring(
    alloc: Global,
    schema: &Schema,
    ty: u16,
    into: &mut Footprint,
) -> Result<(), AllocError>
    ensures { OnOk result (into.new ≡ noted (flat_map (whole schema.now) (filter (may_refer schema.now ty) schema.now.attributes)) into.old) }
{
    for attribute in schema.attributes() {
        if may_refer(alloc, schema, ty, attribute)? {
            note_whole(alloc, schema, attribute, into)?;
        }
    }
    Ok(())
}

/// Notes all that changes with an entity of a type that is deleted.
fn note_deleted(
    alloc: Global,
    schema: &Schema,
    ty: u16,
    into: &mut Footprint,
) -> Result<(), AllocError>
    ensures { OnOk result (into.new ≡ noted (deleted schema.now ty) into.old) }
{
    into.note(store(StoreKind::Extent, ty))?;
    note_asides(schema, ty, into)?;
    note_referring(alloc, schema, ty, into)
}

/// Notes all that changes with the entity for which a term stands, where that is deleted.
pub(crate) fn note_delete(
    alloc: Global,
    schema: &Schema,
    variables: &[Variable],
    term: &Term,
    into: &mut Footprint,
) -> Result<(), AllocError>
    ensures { OnOk result (into.new ≡ noted (flat_map (deleted schema.now) (possible_types schema.now variables.now (way term.now).features (way term.now).start)) into.old) }
{
    let types = possible_types(alloc, schema, variables, term)?;
    for ty in types.as_slice() {
        note_deleted(alloc, schema, *ty, into)?;
    }
    Ok(())
}
