//! A setting of a single value.
ghost use Rattle.std.specs.Prelude.{◌≡◌, ◌⊎◌, ℕ, [], ◌∷◌, ⊤, false, None, Some, Ok, IfOk, IfSome, IsSome, OnOk};
ghost use Rattle.std.specs.Int.{w32, to_be_bytes};
ghost use Rattle.std.specs.List.{All};
ghost use Rattle.st_lattice.specs.Outline.{attribute as numbered};
ghost use Rattle.st_lattice.specs.Stores.{store};
ghost use Rattle.st_keys.specs.Keys.{IsEntity};
ghost use Rattle.st_rows.specs.Rows.{AreHeld, cell_fields};
ghost use Rattle.st_pages.specs.declared.places.Place.{Place};
ghost use Rattle.st_pages.specs.Attempt.{over};
ghost use Rattle.st_pages.specs.Calls.{HandsOn};
ghost use Rattle.st_pages.specs.Places.{place_of};
ghost use Rattle.st_catalog.specs.Stores.{AreOf};
ghost use Rattle.st_store.specs.Stores.{IsPlace};
ghost use Rattle.st_state.specs.Calls.{Admits, Set};
ghost use Rattle.st_state.specs.Rows.{entity_row};
ghost use Rattle.st_database.specs.Touches.{Touches};
ghost use Rattle.st_lookups.specs.Looks.{IsExtent, OfState};
ghost use Rattle.st_edits.specs.Edits.{Behaves, Edits, IsUnanswered, PutsStores};
ghost use Rattle.st_edits.specs.Steps.{EndsInLook, IsSettled, IsShared, Turns};
ghost use Rattle.st_edits.specs.Values.{IsToBeSet};

use crate::fault::told;
use crate::holder::holder;
use crate::values::change;
use st_lattice::{Attribute, Schema, StoreKind};
use st_lookups::{cells_at, extent_of};
use st_page::PageFault;
use st_pages::{Pages, Place, Places};
use st_plain::{BaseFault, Refusal, shared_with};
use st_store::Store;
use st_values::{EntityId, Value, Values};
use std::alloc::Global;

/// Puts a value in place of an attribute's, or answers the refusal that is due by rule 4.
fn settle<S: Store, P: Pages>(
    alloc: Global,
    schema: &Schema,
    places: &Places,
    place: Place,
    pages: &mut P,
    entity: EntityId,
    attribute: &Attribute,
    cells: Values,
    value: &Value,
) -> Result<Option<Refusal>, PageFault>
    requires of { AreOf schema.now places.now }
    requires fair { All IsPlace places.now }
    requires extent { IsExtent schema.now entity.ty place }
    requires entity { IsEntity entity }
    requires numbered { numbered schema.now attribute.now.number ≡ Some attribute.now }
    requires held { AreHeld (cell_fields schema.now entity.ty) cells }
    ensures follows { P.follows pages.old pages.new }
    ensures met { HandsOn (P.met pages.old) (P.met pages.new) result }
    ensures own { IfOk result (λ settled. IfSome settled IsShared) }
    ensures kinds { PutsStores (P.attempt pages.old) (P.attempt pages.new) }
    ensures turns { OfState S.holds (P.attempt pages.old) (P.attempt pages.new) schema.now places.now (λ array s. place_of place.store places.now ≡ Some place →
        IsToBeSet s entity attribute.now value.now → cells ≡ (entity_row s entity).cells →
        Turns (P.asked pages.old pages.new) (P.attempt pages.old) (P.attempt pages.new) array s (Set entity attribute.now.number value.now)
        (IsSettled S.holds (P.attempt pages.new) array places.now s (Set entity attribute.now.number value.now)) result) }
    ensures put { OnOk result (OfState S.holds (P.attempt pages.old) (P.attempt pages.new) schema.now places.now (λ array s. place_of place.store places.now ≡ Some place →
        IsToBeSet s entity attribute.now value.now → result ≡ Ok None →
        (page : ℕ) × S.spot place (over (P.attempt pages.old) array) (to_be_bytes w32 entity.serial) page × IsSome ((P.attempt pages.new).written page))) }
{
    match holder::<S, P>(alloc, schema, places, pages, attribute, entity, value) {
        Ok(other) => match shared_with(alloc, schema, attribute, other) {
            Ok(None) => match change::<S, P>(
                alloc, schema, places, place, pages, entity, attribute, cells, value,
            ) {
                Ok(()) => Ok(None),
                Err(fault) => Err(fault),
            },
            Ok(Some(refusal)) => Ok(Some(refusal)),
            Err(_) => Err(PageFault::Memory),
        },
        Err(fault) => Err(fault),
    }
}

/// The same, of an attribute by its number.
fn set_cells<S: Store, P: Pages>(
    alloc: Global,
    schema: &Schema,
    places: &Places,
    pages: &mut P,
    entity: EntityId,
    number: u16,
    cells: Values,
    value: &Value,
) -> Result<Option<Refusal>, PageFault>
    requires of { AreOf schema.now places.now }
    requires fair { All IsPlace places.now }
    requires held { AreHeld (cell_fields schema.now entity.ty) cells }
    ensures follows { P.follows pages.old pages.new }
    ensures met { HandsOn (P.met pages.old) (P.met pages.new) result }
    ensures own { IfOk result (λ settled. IfSome settled IsShared) }
    ensures kinds { PutsStores (P.attempt pages.old) (P.attempt pages.new) }
    ensures turns { OfState S.holds (P.attempt pages.old) (P.attempt pages.new) schema.now places.now (λ array s. Admits s (Set entity number value.now) → cells ≡ (entity_row s entity).cells →
        Turns (P.asked pages.old pages.new) (P.attempt pages.old) (P.attempt pages.new) array s (Set entity number value.now) (IsSettled S.holds (P.attempt pages.new) array places.now s (Set entity number value.now)) result) }
    ensures put { OnOk result (OfState S.holds (P.attempt pages.old) (P.attempt pages.new) schema.now places.now (λ array s. Admits s (Set entity number value.now) → result ≡ Ok None →
        (place : Place) → place_of (store StoreKind.Extent entity.ty) places.now ≡ Some place →
        (page : ℕ) × S.spot place (over (P.attempt pages.old) array) (to_be_bytes w32 entity.serial) page × IsSome ((P.attempt pages.new).written page))) }
{
    let Some(attribute) = schema.attribute(number) else {
        return Ok(None);
    };
    let Some(place) = extent_of(schema, places, entity.ty) else {
        return Ok(None);
    };
    if entity.serial == 0 {
        return Ok(None);
    }
    settle::<S, P>(
        alloc, schema, places, place, pages, entity, attribute, cells, value,
    )
}

/// The same, of an entity whose row is looked for first.
fn set_found<S: Store, P: Pages>(
    alloc: Global,
    schema: &Schema,
    places: &Places,
    pages: &mut P,
    entity: EntityId,
    number: u16,
    value: &Value,
) -> Result<Option<Refusal>, PageFault>
    requires of { AreOf schema.now places.now }
    requires fair { All IsPlace places.now }
    ensures follows { P.follows pages.old pages.new }
    ensures met { HandsOn (P.met pages.old) (P.met pages.new) result }
    ensures own { IfOk result (λ settled. IfSome settled IsShared) }
    ensures kinds { PutsStores (P.attempt pages.old) (P.attempt pages.new) }
    ensures turns { OfState S.holds (P.attempt pages.old) (P.attempt pages.new) schema.now places.now (λ array s. Admits s (Set entity number value.now) →
        Turns (P.asked pages.old pages.new) (P.attempt pages.old) (P.attempt pages.new) array s (Set entity number value.now) (IsSettled S.holds (P.attempt pages.new) array places.now s (Set entity number value.now)) result) }
    ensures first { OfState S.holds (P.attempt pages.old) (P.attempt pages.new) schema.now places.now (λ array s. Admits s (Set entity number value.now) →
        (place : Place) → place_of (store StoreKind.Extent entity.ty) places.now ≡ Some place →
        ((page : ℕ) × S.spot place (over (P.attempt pages.old) array) (to_be_bytes w32 entity.serial) page × IsSome ((P.attempt pages.new).seen page))
        ⊎ (EndsInLook result × Touches (P.asked pages.old pages.new) (P.attempt pages.old) (P.attempt pages.new) array (store StoreKind.Extent entity.ty ∷ []) false 0 0)) }
    ensures put { OnOk result (OfState S.holds (P.attempt pages.old) (P.attempt pages.new) schema.now places.now (λ array s. Admits s (Set entity number value.now) → result ≡ Ok None →
        (place : Place) → place_of (store StoreKind.Extent entity.ty) places.now ≡ Some place →
        (page : ℕ) × S.spot place (over (P.attempt pages.old) array) (to_be_bytes w32 entity.serial) page × IsSome ((P.attempt pages.new).written page))) }
{
    match cells_at::<S, P>(alloc, schema, places, pages, entity) {
        Ok(Some(cells)) => set_cells::<S, P>(
            alloc, schema, places, pages, entity, number, cells, value,
        ),
        Ok(None) => Ok(None),
        Err(fault) => Err(fault),
    }
}

/// Sets a single-valued attribute of an entity; null where it is to have no value. The page of the entity's row is got before
/// anything is put or drawn, and it is put, also where the value is the one that it was.
///
/// # Errors
/// `Refused` by rule 4 where another entity has the value of a unique attribute, and by the rules 12 and 13 where pages
/// refuse; otherwise what a call of `Pages` answered, and `Memory`. Behind a fault of pages the attempt can only be given up.
pub fn set_value<S: Store, P: Pages>(
    alloc: Global,
    schema: &Schema,
    places: &Places,
    pages: &mut P,
    entity: EntityId,
    number: u16,
    value: &Value,
) -> Result<(), BaseFault>
    requires of { AreOf schema.now places.now }
    requires fair { All IsPlace places.now }
    ensures behaves { Behaves (P.follows pages.old pages.new) (P.met pages.old) (P.met pages.new) (Set entity number value.now) result }
    ensures kinds { PutsStores (P.attempt pages.old) (P.attempt pages.new) }
    ensures edits { OfState S.holds (P.attempt pages.old) (P.attempt pages.new) schema.now places.now (λ array s. Admits s (Set entity number value.now) →
        Edits S.holds (P.asked pages.old pages.new) (P.attempt pages.old) (P.attempt pages.new) array places.now s (Set entity number value.now) (λ _. ⊤) result) }
    ensures first { OfState S.holds (P.attempt pages.old) (P.attempt pages.new) schema.now places.now (λ array s. Admits s (Set entity number value.now) →
        (place : Place) → place_of (store StoreKind.Extent entity.ty) places.now ≡ Some place →
        ((page : ℕ) × S.spot place (over (P.attempt pages.old) array) (to_be_bytes w32 entity.serial) page × IsSome ((P.attempt pages.new).seen page))
        ⊎ (IsUnanswered result × Touches (P.asked pages.old pages.new) (P.attempt pages.old) (P.attempt pages.new) array (store StoreKind.Extent entity.ty ∷ []) false 0 0)) }
    ensures put { OnOk result (OfState S.holds (P.attempt pages.old) (P.attempt pages.new) schema.now places.now (λ array s. Admits s (Set entity number value.now) →
        (place : Place) → place_of (store StoreKind.Extent entity.ty) places.now ≡ Some place →
        (page : ℕ) × S.spot place (over (P.attempt pages.old) array) (to_be_bytes w32 entity.serial) page × IsSome ((P.attempt pages.new).written page))) }
{
    match set_found::<S, P>(alloc, schema, places, pages, entity, number, value) {
        Ok(None) => Ok(()),
        Ok(Some(refusal)) => Err(BaseFault::Refused(refusal)),
        Err(fault) => Err(told(fault)),
    }
}
