//! Who else has a value of a unique attribute.
ghost use Rattle.std.specs.Prelude.{◌≡◌, None, Some, find, true, if◌then◌else◌};
ghost use Rattle.st_lattice.specs.declared.attribute.Attribute.{Attribute};
ghost use Rattle.std.specs.List.{All};
ghost use Rattle.st_lattice.specs.Outline.{attribute as numbered};
ghost use Rattle.st_lattice.specs.Stores.{aside};
ghost use Rattle.st_catalog.specs.Stores.{AreOf};
ghost use Rattle.st_store.specs.Stores.{IsPlace};
ghost use Rattle.st_state.specs.State.{turned};
ghost use Rattle.st_state.specs.Bases.{is_other};
ghost use Rattle.st_lookups.specs.Looks.{Finds, OfState, Peeks};

use st_database::laws_of_places;
use st_lattice::{Attribute, Schema};
use st_lookups::found_holders;
use st_page::PageFault;
use st_pages::{Pages, Places};
use st_store::Store;
use st_values::{EntityId, Value, is_same_entity};
use std::alloc::Global;

/// The first of some entities that is another one than one; none where there is no other.
pub fn first_other(entities: &[EntityId], entity: EntityId) -> Option<EntityId>
    ensures { result ≡ find (is_other (Some entity)) entities.now }
{
    for other in entities {
        if !is_same_entity(entity, *other) {
            return Some(*other);
        }
    }
    None
}

/// The least other entity that has the value of an attribute.
fn other_holder<S: Store, P: Pages>(
    alloc: Global,
    schema: &Schema,
    places: &Places,
    pages: &mut P,
    number: u16,
    entity: EntityId,
    value: &Value,
) -> Result<Option<EntityId>, PageFault>
    requires of { AreOf schema.now places.now }
    requires fair { All IsPlace places.now }
    ensures keeps { Peeks (P.follows pages.old pages.new) (P.attempt pages.old) (P.attempt pages.new) (P.met pages.old) (P.met pages.new) result }
    ensures finds { OfState S.holds (P.attempt pages.old) (P.attempt pages.new) schema.now places.now (λ array s. (a : Attribute) → numbered s.schema number ≡ Some a → a.unique ≡ true →
        Finds (P.asked pages.old pages.new) (P.attempt pages.old) (P.attempt pages.new) array
        (λ other. other ≡ find (is_other (Some entity)) (turned number value.now s.triples)) (aside a) result) }
{
    laws_of_places();
    match found_holders::<S, P>(alloc, schema, places, pages, number, value) {
        Ok(entities) => Ok(first_other(entities.as_slice(), entity)),
        Err(fault) => Err(fault),
    }
}

/// The least other entity that has the value of an attribute, where the attribute is unique.
pub(crate) fn holder<S: Store, P: Pages>(
    alloc: Global,
    schema: &Schema,
    places: &Places,
    pages: &mut P,
    attribute: &Attribute,
    entity: EntityId,
    value: &Value,
) -> Result<Option<EntityId>, PageFault>
    requires of { AreOf schema.now places.now }
    requires fair { All IsPlace places.now }
    ensures keeps { Peeks (P.follows pages.old pages.new) (P.attempt pages.old) (P.attempt pages.new) (P.met pages.old) (P.met pages.new) result }
    ensures finds { OfState S.holds (P.attempt pages.old) (P.attempt pages.new) schema.now places.now (λ array s. numbered s.schema attribute.now.number ≡ Some attribute.now →
        Finds (P.asked pages.old pages.new) (P.attempt pages.old) (P.attempt pages.new) array
        (λ other. other ≡ (if attribute.now.unique then find (is_other (Some entity)) (turned attribute.now.number value.now s.triples) else None)) (aside attribute.now) result) }
{
    if !attribute.unique {
        return Ok(None);
    }
    other_holder::<S, P>(
        alloc,
        schema,
        places,
        pages,
        attribute.number,
        entity,
        value,
    )
}
