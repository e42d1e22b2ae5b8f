//! Rule 6: an entity that another one refers to by an attribute that admits no null.
ghost use Rattle.std.specs.Prelude.{◌≡◌, true, find, map, IfOk, IfSome, Some};
ghost use Rattle.std.specs.List.{All};
ghost use Rattle.st_values.specs.declared.value.Value.TheVariants.{Entity};
ghost use Rattle.st_lattice.specs.Outline.{attribute as numbered};
ghost use Rattle.st_lattice.specs.Stores.{deleted};
ghost use Rattle.st_catalog.specs.Stores.{AreOf};
ghost use Rattle.st_store.specs.Stores.{IsPlace};
ghost use Rattle.st_state.specs.State.{is_live, turned};
ghost use Rattle.st_state.specs.Calls.{CanHold, found_in, stores_by};
ghost use Rattle.st_state.specs.Bases.{is_other, needed, still_needed};
ghost use Rattle.st_state.specs.Refusals.{first_of};
ghost use Rattle.st_lookups.specs.Looks.{Finds, OfState, Peeks};
ghost use Rattle.st_deletes.specs.Needs.{IsNeeded, names_type};

use st_database::laws_of_places;
use st_edits::first_other;
use st_lattice::{Attribute, Schema};
use st_lookups::turned;
use st_page::PageFault;
use st_pages::{Pages, Places};
use st_plain::{Refusal, by_number, needed_by};
use st_store::Store;
use st_values::{EntityId, Kind, Value};
use std::alloc::Global;

/// Whether values of a kind may be entities of a type.
pub(crate) fn names_type(schema: &Schema, kind: Kind, ty: u16) -> bool
    ensures { result ≡ names_type schema.now ty kind }
{
    match kind {
        Kind::Entity(of) => schema.isa(ty, of),
        _ => false,
    }
}

/// The least other entity that has one by an attribute.
fn needed_at<S: Store, P: Pages>(
    alloc: Global,
    schema: &Schema,
    places: &Places,
    pages: &mut P,
    number: u16,
    entity: EntityId,
) -> Result<Option<EntityId>, PageFault>
    requires of { AreOf schema.now places.now }
    requires fair { All IsPlace places.now }
    ensures keeps { Peeks (P.follows pages.old pages.new) (P.attempt pages.old) (P.attempt pages.new) (P.met pages.old) (P.met pages.new) result }
    ensures finds { OfState S.holds (P.attempt pages.old) (P.attempt pages.new) schema.now places.now (λ array s. CanHold s number (Entity entity) → Finds (P.asked pages.old pages.new) (P.attempt pages.old) (P.attempt pages.new) array
        (λ other. other ≡ find (is_other (Some entity)) (turned number (Entity entity) s.triples)) (stores_by (found_in schema.now) (numbered schema.now number)) result) }
{
    match turned::<S, P>(alloc, schema, places, pages, number, &Value::Entity(entity)) {
        Ok(entities) => Ok(first_other(entities.as_slice(), entity)),
        Err(fault) => Err(fault),
    }
}

/// Rule 6 for an attribute: the least other entity that refers to one by it, where it admits no null.
fn needed<S: Store, P: Pages>(
    alloc: Global,
    schema: &Schema,
    places: &Places,
    pages: &mut P,
    attribute: &Attribute,
    entity: EntityId,
) -> Result<Option<Refusal>, PageFault>
    requires of { AreOf schema.now places.now }
    requires fair { All IsPlace places.now }
    ensures keeps { Peeks (P.follows pages.old pages.new) (P.attempt pages.old) (P.attempt pages.new) (P.met pages.old) (P.met pages.new) result }
    ensures own { IfOk result (λ refusal. IfSome refusal IsNeeded) }
    ensures finds { OfState S.holds (P.attempt pages.old) (P.attempt pages.new) schema.now places.now (λ array s. is_live s entity ≡ true → numbered s.schema attribute.now.number ≡ Some attribute.now →
        Finds (P.asked pages.old pages.new) (P.attempt pages.old) (P.attempt pages.new) array
        (λ refusal. refusal ≡ needed s entity attribute.now) (deleted schema.now entity.ty) result) }
{
    if !attribute.no_nulls || !names_type(schema, attribute.kind, entity.ty) {
        return Ok(None);
    }
    match needed_at::<S, P>(alloc, schema, places, pages, attribute.number, entity) {
        Ok(other) => match needed_by(alloc, schema, attribute, other) {
            Ok(refusal) => Ok(refusal),
            Err(_) => Err(PageFault::Memory),
        },
        Err(fault) => Err(fault),
    }
}

/// Rule 6 by these attributes, in their order.
fn needed_by_some<S: Store, P: Pages>(
    alloc: Global,
    schema: &Schema,
    places: &Places,
    pages: &mut P,
    attributes: &[Attribute],
    entity: EntityId,
) -> Result<Option<Refusal>, PageFault>
    requires of { AreOf schema.now places.now }
    requires fair { All IsPlace places.now }
    ensures keeps { Peeks (P.follows pages.old pages.new) (P.attempt pages.old) (P.attempt pages.new) (P.met pages.old) (P.met pages.new) result }
    ensures own { IfOk result (λ refusal. IfSome refusal IsNeeded) }
    ensures finds { OfState S.holds (P.attempt pages.old) (P.attempt pages.new) schema.now places.now (λ array s. is_live s entity ≡ true → All (λ a. numbered s.schema a.number ≡ Some a) attributes.now →
        Finds (P.asked pages.old pages.new) (P.attempt pages.old) (P.attempt pages.new) array
        (λ refusal. refusal ≡ first_of (map (needed s entity) attributes.now)) (deleted schema.now entity.ty) result) }
{
    for attribute in attributes {
        let refusal = needed::<S, P>(alloc, schema, places, pages, attribute, entity)?;
        if refusal.is_some() {
            return Ok(refusal);
        }
    }
    Ok(None)
}

/// Rule 6: the least other entity that refers to one by an attribute that admits no null; of several attributes the one with the
/// least number.
pub(crate) fn still_needed<S: Store, P: Pages>(
    alloc: Global,
    schema: &Schema,
    places: &Places,
    pages: &mut P,
    entity: EntityId,
) -> Result<Option<Refusal>, PageFault>
    requires of { AreOf schema.now places.now }
    requires fair { All IsPlace places.now }
    ensures keeps { Peeks (P.follows pages.old pages.new) (P.attempt pages.old) (P.attempt pages.new) (P.met pages.old) (P.met pages.new) result }
    ensures own { IfOk result (λ refusal. IfSome refusal IsNeeded) }
    ensures finds { OfState S.holds (P.attempt pages.old) (P.attempt pages.new) schema.now places.now (λ array s. is_live s entity ≡ true →
        Finds (P.asked pages.old pages.new) (P.attempt pages.old) (P.attempt pages.new) array
        (λ refusal. refusal ≡ still_needed s entity) (deleted schema.now entity.ty) result) }
{
    match by_number(alloc, schema.attributes()) {
        Ok(attributes) => needed_by_some::<S, P>(
            alloc,
            schema,
            places,
            pages,
            attributes.as_slice(),
            entity,
        ),
        Err(_) => Err(PageFault::Memory),
    }
}
