//! Tests of triples.
ghost use Rattle.std.specs.Prelude.{◌≡◌, ◌==◌, ◌&&◌, ◌||◌, not};
ghost use Rattle.st_values.specs.Order.{entity_before, same_entity, value_before, same_value};
ghost use Rattle.st_values.specs.declared.value.Value.TheVariants.{Entity};
ghost use Rattle.st_state.specs.State.{is_at, triple_before, same_triple, speaks_of};
ghost use Rattle.st_triples.specs.Marked.{triple_of};

use st_state::Triple;
use st_undo::Sieve;
use st_values::{EntityId, Value, compare_entities, is_before, is_same, is_same_entity};
use std::cmp::Ordering;

/// Whether the entity of a triple stands before another one, or its value where the two are the same.
fn is_rest_before(other: &Triple, entity: EntityId, value: &Value) -> bool
    ensures { result ≡ (entity_before other.now.entity entity
        || (same_entity other.now.entity entity && value_before other.now.value value.now)) }
{
    match compare_entities(other.entity, entity) {
        Ordering::Less => true,
        Ordering::Equal => is_before(&other.value, value),
        Ordering::Greater => false,
    }
}

/// Whether a triple stands before the one of these parts.
pub fn is_triple_before(other: &Triple, attribute: u16, entity: EntityId, value: &Value) -> bool
    ensures { result ≡ triple_before other.now (triple_of attribute entity value.now) }
{
    if other.attribute != attribute {
        return other.attribute < attribute;
    }
    is_rest_before(other, entity, value)
}

/// Whether a triple is of this attribute of this entity.
pub fn is_at(attribute: u16, entity: EntityId, triple: &Triple) -> bool
    ensures { result ≡ is_at attribute entity triple.now }
{
    triple.attribute == attribute && is_same_entity(triple.entity, entity)
}

fn is_rest_same(entity: EntityId, value: &Value, other: &Triple) -> bool
    ensures { result ≡ (same_entity entity other.now.entity && same_value value.now other.now.value) }
{
    is_same_entity(entity, other.entity) && is_same(value, &other.value)
}

/// Whether a triple is the one of these parts.
pub fn is_triple(attribute: u16, entity: EntityId, value: &Value, other: &Triple) -> bool
    ensures { result ≡ same_triple (triple_of attribute entity value.now) other.now }
{
    attribute == other.attribute && is_rest_same(entity, value, other)
}

/// Whether a triple says that an attribute has this value.
pub fn has_value(attribute: u16, value: &Value, triple: &Triple) -> bool
    ensures { result ≡ ((triple.now.attribute == attribute) && same_value triple.now.value value.now) }
{
    triple.attribute == attribute && is_same(&triple.value, value)
}

/// Whether a triple says that an attribute of another entity has this value.
pub fn is_others(attribute: u16, entity: EntityId, value: &Value, triple: &Triple) -> bool
    ensures { result ≡ (((triple.now.attribute == attribute) && same_value triple.now.value value.now) && not (same_entity entity triple.now.entity)) }
{
    has_value(attribute, value, triple) && !is_same_entity(entity, triple.entity)
}

fn is_reference(entity: EntityId, triple: &Triple) -> bool
    ensures { result ≡ same_value triple.now.value (Entity entity) }
{
    is_same(&triple.value, &Value::Entity(entity))
}

/// Whether a triple is of an entity or refers to it.
pub fn speaks_of(entity: EntityId, triple: &Triple) -> bool
    ensures { result ≡ speaks_of entity triple.now }
{
    is_same_entity(triple.entity, entity) || is_reference(entity, triple)
}

/// The sieve that takes the triples that are of an entity or refer to it.
#[derive(Drop)]
pub struct OfEntity {
    /// The entity.
    pub entity: EntityId,
}

impl Sieve<Triple> for OfEntity {
    ghost takes = { λ sieve triple. speaks_of sieve.entity triple };

    fn takes(&self, item: &Triple) -> bool {
        speaks_of(self.entity, item)
    }

    fn hole(&self) -> Triple {
        Triple {
            attribute: 0,
            entity: self.entity,
            value: Value::Null,
        }
    }
}
