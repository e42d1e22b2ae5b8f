//! The rules on what an entity is to get: 8, then 3, then 4, each for all of it.
ghost use Rattle.std.specs.Prelude.{◌≡◌, [], ◌∷◌, map, flat_map, find, All, IfOk};
ghost use Rattle.st_lattice.specs.Outline.{type_name, attribute_name};
ghost use Rattle.st_lattice.specs.Stores.{aside};
ghost use Rattle.st_state.specs.State.{State, turned};
ghost use Rattle.st_state.specs.Legal.{IsNearlyLegal};
ghost use Rattle.st_state.specs.Refusals.{first_of};
ghost use Rattle.st_state.specs.Bases.{is_other, shared_with};
ghost use Rattle.st_state.specs.Calls.{HasAttribute, CanHold};
ghost use Rattle.st_meaning.specs.Selection.{is_null};
ghost use Rattle.st_meaning.specs.Rules.{too_long, missing, shared};
ghost use Rattle.st_terms.specs.Looks.{Looks, Keeps};
ghost use Rattle.st_makes.specs.Makes.{rule_of, refused_by, IsMeant, found_stores, IsOfState};

use crate::filling::Filling;
use crate::holders::may_have;
use st_lattice::{Attribute, Schema};
use st_plain::{Base, BaseFault};
use st_state::Refusal;
use st_values::{EntityId, Kind, Letters, Value, is_same_entity};
use std::alloc::{AllocError, Global};

fn name_of(schema: &Schema, ty: u16) -> &str
    ensures { result.now ≡ type_name schema.now ty }
{
    match schema.type_names().get(ty as usize) {
        Some(name) => name.as_str(),
        None => "",
    }
}

fn attribute_name(
    alloc: Global,
    schema: &Schema,
    attribute: &Attribute,
) -> Result<Letters, AllocError>
    ensures { IfOk result (λ name. name ≡ attribute_name schema.now attribute.now) }
{
    let mut name = Letters::from_text(alloc, name_of(schema, attribute.owner))?;
    name.push_str(".")?;
    name.push_str(attribute.name.as_str())?;
    Ok(name)
}

/// Rule 8.
fn too_long(kind: Kind, value: &Value) -> Option<Refusal>
    ensures value { result ≡ too_long kind value.now }
    ensures own { IsOfState result }
{
    match (kind, value) {
        (Kind::Text(limit), Value::Text(text)) => {
            if text.len() <= limit as usize {
                None
            } else {
                Some(Refusal::TextTooLong {
                    length: text.len() as u64,
                    limit: limit as u32,
                })
            }
        }
        _ => None,
    }
}

fn first_too_long(fillings: &[Filling]) -> Option<Refusal>
    ensures value { result ≡ first_of (map (λ f. too_long f.attribute.kind f.value) (map rule_of fillings.now)) }
    ensures own { IsOfState result }
{
    for filling in fillings {
        if let Some(refusal) = too_long(filling.attribute.kind, &filling.value) {
            return Some(refusal);
        }
    }
    None
}

fn is_null(value: &Value) -> bool
    ensures { result ≡ is_null value.now }
{
    match value {
        Value::Null => true,
        _ => false,
    }
}

/// Rule 3.
fn missing(alloc: Global, schema: &Schema, filling: &Filling) -> Result<Option<Refusal>, AllocError>
    ensures value { IfOk result (λ refusal. refusal ≡ missing schema.now (rule_of filling.now)) }
    ensures own { IfOk result IsOfState }
{
    if filling.wanted && is_null(&filling.value) {
        let attribute = attribute_name(alloc, schema, &filling.attribute)?;
        Ok(Some(Refusal::NullNotAllowed { attribute }))
    } else {
        Ok(None)
    }
}

fn first_missing(
    alloc: Global,
    schema: &Schema,
    fillings: &[Filling],
) -> Result<Option<Refusal>, AllocError>
    ensures value { IfOk result (λ refusal. refusal ≡ first_of (map (missing schema.now) (map rule_of fillings.now))) }
    ensures own { IfOk result IsOfState }
{
    for filling in fillings {
        if let Some(refusal) = missing(alloc, schema, filling)? {
            return Ok(Some(refusal));
        }
    }
    Ok(None)
}

/// Rules 8 and 3, for which no base is asked.
fn refused_at_once(
    alloc: Global,
    schema: &Schema,
    fillings: &[Filling],
) -> Result<Option<Refusal>, AllocError>
    ensures value { IfOk result (λ refusal. refusal ≡ first_of (first_of (map (λ f. too_long f.attribute.kind f.value) (map rule_of fillings.now))
        ∷ first_of (map (missing schema.now) (map rule_of fillings.now)) ∷ [])) }
    ensures own { IfOk result IsOfState }
{
    match first_too_long(fillings) {
        Some(refusal) => Ok(Some(refusal)),
        None => first_missing(alloc, schema, fillings),
    }
}

fn is_other(filled: Option<EntityId>, entity: EntityId) -> bool
    ensures { result ≡ is_other filled entity }
{
    match filled {
        Some(filled) => !is_same_entity(filled, entity),
        None => true,
    }
}

fn other_than(filled: Option<EntityId>, entities: &[EntityId]) -> Option<EntityId>
    ensures { result ≡ find (is_other filled) entities.now }
{
    entities
        .iter()
        .copied()
        .find(|entity| is_other(filled, *entity))
}

fn shared_with(
    alloc: Global,
    schema: &Schema,
    attribute: &Attribute,
    holder: Option<EntityId>,
) -> Result<Option<Refusal>, AllocError>
    ensures value { IfOk result (λ refusal. refusal ≡ shared_with schema.now attribute.now holder) }
    ensures own { IfOk result IsOfState }
{
    match holder {
        Some(holder) => {
            let attribute = attribute_name(alloc, schema, attribute)?;
            Ok(Some(Refusal::NotUnique { attribute, holder }))
        }
        None => Ok(None),
    }
}

/// Rule 4 where the attribute can have the value.
fn taken_by<B: Base>(
    base: &mut B,
    alloc: Global,
    schema: &Schema,
    filled: Option<EntityId>,
    attribute: &Attribute,
    value: &Value,
) -> Result<Option<Refusal>, BaseFault>
    requires schema { schema.now ≡ B.schema base.old }
    requires there { HasAttribute (B.schema base.old) attribute.now.number }
    ensures looks { (w : B.Witness) (s : State) → B.agrees base.new w → B.stands base.old w s → CanHold s attribute.now.number value.now →
        Looks (B.stands base.new w s) (B.asks base.old base.new w) (B.reached base.new w)
        (λ refusal. refusal ≡ shared_with s.schema attribute.now (find (is_other filled) (turned attribute.now.number value.now s.triples)))
        (found_stores s.schema attribute.now.number) [] result }
    ensures keeps { Keeps (B.follows base.old base.new) (B.met base.old) (B.met base.new) result }
    ensures own { IfOk result IsOfState }
{
    let entities = base.turned(alloc, attribute.number, value)?;
    let holder = other_than(filled, entities.as_slice());
    Ok(shared_with(alloc, schema, attribute, holder)?)
}

/// Rule 4: another entity than the one that is filled, if one is, has the value of a unique attribute.
fn shared<B: Base>(
    base: &mut B,
    alloc: Global,
    schema: &Schema,
    filled: Option<EntityId>,
    filling: &Filling,
) -> Result<Option<Refusal>, BaseFault>
    requires schema { schema.now ≡ B.schema base.old }
    requires there { HasAttribute (B.schema base.old) filling.now.attribute.number }
    ensures looks { (w : B.Witness) (s : State) → B.agrees base.new w → B.stands base.old w s → IsNearlyLegal s → IsMeant s filling.now.attribute filling.now.value →
        Looks (B.stands base.new w s) (B.asks base.old base.new w) (B.reached base.new w)
        (λ refusal. refusal ≡ shared s filled (rule_of filling.now)) (aside filling.now.attribute) [] result }
    ensures keeps { Keeps (B.follows base.old base.new) (B.met base.old) (B.met base.new) result }
    ensures own { IfOk result IsOfState }
{
    let attribute = &filling.attribute;
    if attribute.unique && may_have(attribute.kind, &filling.value) {
        taken_by(base, alloc, schema, filled, attribute, &filling.value)
    } else {
        Ok(None)
    }
}

fn first_shared<B: Base>(
    base: &mut B,
    alloc: Global,
    schema: &Schema,
    filled: Option<EntityId>,
    fillings: &[Filling],
) -> Result<Option<Refusal>, BaseFault>
    requires schema { schema.now ≡ B.schema base.old }
    requires there { All (λ f. HasAttribute (B.schema base.old) f.attribute.number) fillings.now }
    ensures looks { (w : B.Witness) (s : State) → B.agrees base.new w → B.stands base.old w s → IsNearlyLegal s → All (λ f. IsMeant s f.attribute f.value) fillings.now →
        Looks (B.stands base.new w s) (B.asks base.old base.new w) (B.reached base.new w)
        (λ refusal. refusal ≡ first_of (map (shared s filled) (map rule_of fillings.now))) (flat_map (λ f. aside f.attribute) fillings.now) [] result }
    ensures keeps { Keeps (B.follows base.old base.new) (B.met base.old) (B.met base.new) result }
    ensures own { IfOk result IsOfState }
{
    for filling in fillings {
        if let Some(refusal) = shared(base, alloc, schema, filled, filling)? {
            return Ok(Some(refusal));
        }
    }
    Ok(None)
}

/// Rules 8, 3 and 4 on what an entity is to get: one that is there already, or a new one.
pub(crate) fn refused<B: Base>(
    base: &mut B,
    alloc: Global,
    schema: &Schema,
    filled: Option<EntityId>,
    fillings: &[Filling],
) -> Result<Option<Refusal>, BaseFault>
    requires schema { schema.now ≡ B.schema base.old }
    requires there { All (λ f. HasAttribute (B.schema base.old) f.attribute.number) fillings.now }
    ensures looks { (w : B.Witness) (s : State) → B.agrees base.new w → B.stands base.old w s → IsNearlyLegal s → All (λ f. IsMeant s f.attribute f.value) fillings.now →
        Looks (B.stands base.new w s) (B.asks base.old base.new w) (B.reached base.new w)
        (λ refusal. refusal ≡ refused_by s filled (map rule_of fillings.now)) (flat_map (λ f. aside f.attribute) fillings.now) [] result }
    ensures keeps { Keeps (B.follows base.old base.new) (B.met base.old) (B.met base.new) result }
    ensures own { IfOk result IsOfState }
{
    match refused_at_once(alloc, schema, fillings)? {
        Some(refusal) => Ok(Some(refusal)),
        None => first_shared(base, alloc, schema, filled, fillings),
    }
}
