//! Who has a value of an attribute.
ghost use Rattle.std.specs.Prelude.{◌≡◌, [], find};
ghost use Rattle.st_lattice.specs.Lattice.{isa};
ghost use Rattle.st_state.specs.State.{State, turned};
ghost use Rattle.st_state.specs.Legal.{IsNearlyLegal};
ghost use Rattle.st_state.specs.Calls.{HasAttribute, CanHold};
ghost use Rattle.st_meaning.specs.Statements.{holder};
ghost use Rattle.st_terms.specs.Looks.{Looks, Keeps};
ghost use Rattle.st_makes.specs.Makes.{may_have, IsMeant, found_stores};

use st_lattice::{Attribute, Schema};
use st_plain::{Base, BaseFault};
use st_values::{EntityId, Kind, Value};
use std::alloc::Global;

pub(crate) fn may_have(kind: Kind, value: &Value) -> bool
    ensures { result ≡ may_have kind value.now }
{
    match (kind, value) {
        (_, Value::Null) => false,
        (Kind::Text(limit), Value::Text(text)) => text.len() <= limit as usize,
        _ => true,
    }
}

fn first_of_type(schema: &Schema, ty: u16, entities: &[EntityId]) -> Option<EntityId>
    ensures { result ≡ find (λ e. isa schema.now e.ty ty) entities.now }
{
    entities
        .iter()
        .copied()
        .find(|entity| schema.isa(entity.ty, ty))
}

/// The first entity of a type that has a value of an attribute.
fn first_with<B: Base>(
    base: &mut B,
    alloc: Global,
    schema: &Schema,
    ty: u16,
    number: u16,
    value: &Value,
) -> Result<Option<EntityId>, BaseFault>
    requires schema { schema.now ≡ B.schema base.old }
    requires there { HasAttribute (B.schema base.old) number }
    ensures looks { (w : B.Witness) (s : State) → B.agrees base.new w → B.stands base.old w s → CanHold s number value.now →
        Looks (B.stands base.new w s) (B.asks base.old base.new w) (B.reached base.new w)
        (λ found. found ≡ find (λ e. isa s.schema e.ty ty) (turned number value.now s.triples)) (found_stores s.schema number) [] result }
    ensures keeps { Keeps (B.follows base.old base.new) (B.met base.old) (B.met base.new) result }
{
    let entities = base.turned(alloc, number, value)?;
    Ok(first_of_type(schema, ty, entities.as_slice()))
}

/// The entity of a type that has a value of an attribute; none where it can't have the value.
pub(crate) fn holder<B: Base>(
    base: &mut B,
    alloc: Global,
    schema: &Schema,
    ty: u16,
    attribute: &Attribute,
    value: &Value,
) -> Result<Option<EntityId>, BaseFault>
    requires schema { schema.now ≡ B.schema base.old }
    requires there { HasAttribute (B.schema base.old) attribute.now.number }
    ensures looks { (w : B.Witness) (s : State) → B.agrees base.new w → B.stands base.old w s → IsNearlyLegal s → IsMeant s attribute.now value.now →
        Looks (B.stands base.new w s) (B.asks base.old base.new w) (B.reached base.new w)
        (λ found. found ≡ holder s ty (Some attribute.now) value.now) (found_stores s.schema attribute.now.number) [] result }
    ensures keeps { Keeps (B.follows base.old base.new) (B.met base.old) (B.met base.new) result }
{
    if may_have(attribute.kind, value) {
        first_with(base, alloc, schema, ty, attribute.number, value)
    } else {
        Ok(None)
    }
}
