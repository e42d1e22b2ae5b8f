//! What speaks of an entity, taken out of attributes: references of other entities, and the entity's own sets.
ghost use Rattle.std.specs.Prelude.{◌≡◌, true, false, IsTrue, Some};
ghost use Rattle.std.specs.List.{All, list_all};
ghost use Rattle.st_values.specs.Order.{same_entity};
ghost use Rattle.st_lattice.specs.Outline.{attribute as numbered};
ghost use Rattle.st_pages.specs.Calls.{HandsOn};
ghost use Rattle.st_catalog.specs.Stores.{AreOf};
ghost use Rattle.st_store.specs.Stores.{IsPlace};
ghost use Rattle.st_state.specs.State.{is_live};
ghost use Rattle.st_state.specs.Calls.{CanHold, HasSet};
ghost use Rattle.st_lookups.specs.Looks.{OfState};
ghost use Rattle.st_edits.specs.Edits.{PutsStores};
ghost use Rattle.st_removals.specs.Clears.{Clears};
ghost use Rattle.st_removals.specs.Taken.{is_own_or_strange};
ghost use Rattle.st_deletes.specs.Cleared.{AreCleared, AreUnheld, AreWithout, IsHolder, is_cleared, is_memberless, is_unheld, is_unreferred};
ghost use Rattle.st_deletes.specs.Needs.{names_type};

use crate::needs::names_type;
use st_lattice::{Attribute, Schema};
use st_lookups::{members, turned};
use st_page::PageFault;
use st_pages::{Pages, Places};
use st_removals::{forget, unrefer};
use st_store::Store;
use st_values::{EntityId, Value, is_same_entity};
use std::alloc::Global;

/// Takes an entity out of an attribute of one that may have it, unless that is the entity itself.
fn clear_holder<S: Store, P: Pages>(
    alloc: Global,
    schema: &Schema,
    places: &Places,
    pages: &mut P,
    attribute: &Attribute,
    entity: EntityId,
    holder: EntityId,
) -> Result<(), PageFault>
    requires of { AreOf schema.now places.now }
    requires fair { All IsPlace places.now }
    ensures follows { P.follows pages.old pages.new }
    ensures met { HandsOn (P.met pages.old) (P.met pages.new) result }
    ensures kinds { PutsStores (P.attempt pages.old) (P.attempt pages.new) }
    ensures clears { OfState S.holds (P.attempt pages.old) (P.attempt pages.new) schema.now places.now (λ array s. is_live s entity ≡ true → numbered s.schema attribute.now.number ≡ Some attribute.now → names_type schema.now entity.ty attribute.now.kind ≡ true → IsHolder s attribute.now holder →
        Clears S.holds (P.asked pages.old pages.new) (P.attempt pages.old) (P.attempt pages.new) array places.now entity s (λ t. same_entity holder entity ≡ false → IsTrue (list_all (is_unheld attribute.now.number entity holder) t.triples)) result) }
{
    if is_same_entity(holder, entity) {
        return Ok(());
    }
    if attribute.many {
        forget::<S, P>(
            alloc,
            schema,
            places,
            pages,
            holder,
            attribute.number,
            &Value::Entity(entity),
        )
    } else {
        unrefer::<S, P>(alloc, schema, places, pages, holder, entity)
    }
}

/// Takes an entity out of an attribute of each of those that have it, itself aside.
fn clear_holders<S: Store, P: Pages>(
    alloc: Global,
    schema: &Schema,
    places: &Places,
    pages: &mut P,
    attribute: &Attribute,
    entity: EntityId,
    holders: &[EntityId],
) -> Result<(), PageFault>
    requires of { AreOf schema.now places.now }
    requires fair { All IsPlace places.now }
    ensures follows { P.follows pages.old pages.new }
    ensures met { HandsOn (P.met pages.old) (P.met pages.new) result }
    ensures kinds { PutsStores (P.attempt pages.old) (P.attempt pages.new) }
    ensures clears { OfState S.holds (P.attempt pages.old) (P.attempt pages.new) schema.now places.now (λ array s. is_live s entity ≡ true → numbered s.schema attribute.now.number ≡ Some attribute.now → names_type schema.now entity.ty attribute.now.kind ≡ true → All (IsHolder s attribute.now) holders.now →
        Clears S.holds (P.asked pages.old pages.new) (P.attempt pages.old) (P.attempt pages.new) array places.now entity s (AreUnheld attribute.now.number entity holders.now) result) }
{
    for holder in holders {
        match clear_holder::<S, P>(alloc, schema, places, pages, attribute, entity, *holder) {
            Ok(()) => {}
            Err(fault) => return Err(fault),
        }
    }
    Ok(())
}

/// Takes an entity out of an attribute of all other ones.
fn clear_references<S: Store, P: Pages>(
    alloc: Global,
    schema: &Schema,
    places: &Places,
    pages: &mut P,
    attribute: &Attribute,
    entity: EntityId,
) -> Result<(), PageFault>
    requires of { AreOf schema.now places.now }
    requires fair { All IsPlace places.now }
    ensures follows { P.follows pages.old pages.new }
    ensures met { HandsOn (P.met pages.old) (P.met pages.new) result }
    ensures kinds { PutsStores (P.attempt pages.old) (P.attempt pages.new) }
    ensures clears { OfState S.holds (P.attempt pages.old) (P.attempt pages.new) schema.now places.now (λ array s. is_live s entity ≡ true → numbered s.schema attribute.now.number ≡ Some attribute.now →
        Clears S.holds (P.asked pages.old pages.new) (P.attempt pages.old) (P.attempt pages.new) array places.now entity s (λ t. IsTrue (list_all (is_unreferred attribute.now.number entity) t.triples)) result) }
{
    if !names_type(schema, attribute.kind, entity.ty) {
        return Ok(());
    }
    match turned::<S, P>(
        alloc,
        schema,
        places,
        pages,
        attribute.number,
        &Value::Entity(entity),
    ) {
        Ok(holders) => clear_holders::<S, P>(
            alloc,
            schema,
            places,
            pages,
            attribute,
            entity,
            holders.as_slice(),
        ),
        Err(fault) => Err(fault),
    }
}

/// Takes values out of a set of an entity.
fn forget_members<S: Store, P: Pages>(
    alloc: Global,
    schema: &Schema,
    places: &Places,
    pages: &mut P,
    number: u16,
    entity: EntityId,
    values: &[Value],
) -> Result<(), PageFault>
    requires of { AreOf schema.now places.now }
    requires fair { All IsPlace places.now }
    ensures follows { P.follows pages.old pages.new }
    ensures met { HandsOn (P.met pages.old) (P.met pages.new) result }
    ensures kinds { PutsStores (P.attempt pages.old) (P.attempt pages.new) }
    ensures clears { OfState S.holds (P.attempt pages.old) (P.attempt pages.new) schema.now places.now (λ array s. is_live s entity ≡ true → HasSet s entity number → All (CanHold s number) values.now →
        Clears S.holds (P.asked pages.old pages.new) (P.attempt pages.old) (P.attempt pages.new) array places.now entity s (AreWithout number entity values.now) result) }
{
    for value in values {
        match forget::<S, P>(alloc, schema, places, pages, entity, number, value) {
            Ok(()) => {}
            Err(fault) => return Err(fault),
        }
    }
    Ok(())
}

/// Takes all values out of the set of an attribute of an entity, if it has one.
fn clear_members<S: Store, P: Pages>(
    alloc: Global,
    schema: &Schema,
    places: &Places,
    pages: &mut P,
    attribute: &Attribute,
    entity: EntityId,
) -> Result<(), PageFault>
    requires of { AreOf schema.now places.now }
    requires fair { All IsPlace places.now }
    ensures follows { P.follows pages.old pages.new }
    ensures met { HandsOn (P.met pages.old) (P.met pages.new) result }
    ensures kinds { PutsStores (P.attempt pages.old) (P.attempt pages.new) }
    ensures clears { OfState S.holds (P.attempt pages.old) (P.attempt pages.new) schema.now places.now (λ array s. is_live s entity ≡ true → numbered s.schema attribute.now.number ≡ Some attribute.now →
        Clears S.holds (P.asked pages.old pages.new) (P.attempt pages.old) (P.attempt pages.new) array places.now entity s (λ t. IsTrue (list_all (is_memberless attribute.now entity) t.triples)) result) }
{
    if !attribute.many || !schema.isa(entity.ty, attribute.owner) {
        return Ok(());
    }
    match members::<S, P>(alloc, schema, places, pages, entity, attribute.number) {
        Ok(values) => forget_members::<S, P>(
            alloc,
            schema,
            places,
            pages,
            attribute.number,
            entity,
            values.as_slice(),
        ),
        Err(fault) => Err(fault),
    }
}

/// Takes what speaks of an entity out of an attribute, but for a single value of the entity itself.
fn clear_attribute<S: Store, P: Pages>(
    alloc: Global,
    schema: &Schema,
    places: &Places,
    pages: &mut P,
    attribute: &Attribute,
    entity: EntityId,
) -> Result<(), PageFault>
    requires of { AreOf schema.now places.now }
    requires fair { All IsPlace places.now }
    ensures follows { P.follows pages.old pages.new }
    ensures met { HandsOn (P.met pages.old) (P.met pages.new) result }
    ensures kinds { PutsStores (P.attempt pages.old) (P.attempt pages.new) }
    ensures clears { OfState S.holds (P.attempt pages.old) (P.attempt pages.new) schema.now places.now (λ array s. is_live s entity ≡ true → numbered s.schema attribute.now.number ≡ Some attribute.now →
        Clears S.holds (P.asked pages.old pages.new) (P.attempt pages.old) (P.attempt pages.new) array places.now entity s (λ t. IsTrue (list_all (is_cleared attribute.now entity) t.triples)) result) }
{
    match clear_references::<S, P>(alloc, schema, places, pages, attribute, entity) {
        Ok(()) => clear_members::<S, P>(alloc, schema, places, pages, attribute, entity),
        Err(fault) => Err(fault),
    }
}

/// The same of some attributes.
fn clear_some<S: Store, P: Pages>(
    alloc: Global,
    schema: &Schema,
    places: &Places,
    pages: &mut P,
    attributes: &[Attribute],
    entity: EntityId,
) -> Result<(), PageFault>
    requires of { AreOf schema.now places.now }
    requires fair { All IsPlace places.now }
    ensures follows { P.follows pages.old pages.new }
    ensures met { HandsOn (P.met pages.old) (P.met pages.new) result }
    ensures kinds { PutsStores (P.attempt pages.old) (P.attempt pages.new) }
    ensures clears { OfState S.holds (P.attempt pages.old) (P.attempt pages.new) schema.now places.now (λ array s. is_live s entity ≡ true → All (λ a. numbered s.schema a.number ≡ Some a) attributes.now →
        Clears S.holds (P.asked pages.old pages.new) (P.attempt pages.old) (P.attempt pages.new) array places.now entity s (AreCleared entity attributes.now) result) }
{
    for attribute in attributes {
        match clear_attribute::<S, P>(alloc, schema, places, pages, attribute, entity) {
            Ok(()) => {}
            Err(fault) => return Err(fault),
        }
    }
    Ok(())
}

/// Takes what speaks of an entity out of all attributes, but for the single values of the entity itself.
pub(crate) fn clear_attributes<S: Store, P: Pages>(
    alloc: Global,
    schema: &Schema,
    places: &Places,
    pages: &mut P,
    entity: EntityId,
) -> Result<(), PageFault>
    requires of { AreOf schema.now places.now }
    requires fair { All IsPlace places.now }
    ensures follows { P.follows pages.old pages.new }
    ensures met { HandsOn (P.met pages.old) (P.met pages.new) result }
    ensures kinds { PutsStores (P.attempt pages.old) (P.attempt pages.new) }
    ensures clears { OfState S.holds (P.attempt pages.old) (P.attempt pages.new) schema.now places.now (λ array s. is_live s entity ≡ true →
        Clears S.holds (P.asked pages.old pages.new) (P.attempt pages.old) (P.attempt pages.new) array places.now entity s (λ t. IsTrue (list_all (is_own_or_strange schema.now entity) t.triples)) result) }
{
    clear_some::<S, P>(alloc, schema, places, pages, schema.attributes(), entity)
}
