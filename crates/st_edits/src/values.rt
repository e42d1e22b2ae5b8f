//! Single values of attributes.
ghost use Rattle.std.specs.Prelude.{◌≡◌, ◌+◌, ◌*◌, [], ◌∷◌, ⊤, true, if◌then◌else◌, ℕ, Some, IfSome, IsSome, OnOk};
ghost use Rattle.std.specs.List.{All};
ghost use Rattle.std.specs.Int.{w32, to_be_bytes};
ghost use Rattle.st_values.specs.Order.{same_value};
ghost use Rattle.st_lattice.specs.Outline.{attribute as numbered};
ghost use Rattle.st_keys.specs.Keys.{IsEntity};
ghost use Rattle.st_rows.specs.Rows.{AreHeld, cell_fields};
ghost use Rattle.st_pages.specs.Attempt.{may_put, over};
ghost use Rattle.st_pages.specs.Calls.{HandsOn};
ghost use Rattle.st_pages.specs.Places.{place_of};
ghost use Rattle.st_catalog.specs.Stores.{AreOf};
ghost use Rattle.st_index.specs.Turned.{IsOrNull, turned_places};
ghost use Rattle.st_store.specs.Stores.{HasPutStores, IsPlace, any_page};
ghost use Rattle.st_database.specs.Database.{noted_view};
ghost use Rattle.st_database.specs.Touches.{Leads, OfDatabase, WithStore, added_by, changed_by, pairs_added, pairs_changed, stores_at};
ghost use Rattle.st_lookups.specs.Looks.{IsExtent, OfState};
ghost use Rattle.st_state.specs.Calls.{Set};
ghost use Rattle.st_state.specs.Rows.{entity_row};
ghost use Rattle.st_edits.specs.Edits.{Alters, PutsStores};
ghost use Rattle.st_edits.specs.Values.{IsFreeFor, IsToBeSet, its_row, put_view};

use crate::replacing::replaced;
use st_database::{insert_row, laws_of_order, laws_of_places, note_pair};
use st_keys::laws_of_keys;
use st_lattice::{Attribute, Schema};
use st_page::PageFault;
use st_pages::{Pages, Place, Places};
use st_rows::{laws_of_rows, write_row};
use st_store::Store;
use st_values::{EntityId, Value, Values};
use std::alloc::Global;

/// The most bytes that a row has.
const MOST_BYTES: usize = 1000;

/// Puts the row of an entity with these cells into the extent at a place, which is that of its type. Whether it was there.
///
/// # Errors
/// What a call of `Pages` answered; `BadPage` only where the pages are no database with such a store. The attempt can then only
/// be given up.
pub fn put_row<S: Store, P: Pages>(
    alloc: Global,
    schema: &Schema,
    place: Place,
    pages: &mut P,
    entity: EntityId,
    cells: &[Value],
) -> Result<bool, PageFault>
    requires extent { IsExtent schema.now entity.ty place }
    requires entity { IsEntity entity }
    requires held { AreHeld (cell_fields schema.now entity.ty) cells.now }
    ensures follows { P.follows pages.old pages.new }
    ensures met { HandsOn (P.met pages.old) (P.met pages.new) result }
    ensures kinds { HasPutStores (P.attempt pages.old) → P.asked pages.old pages.new any_page (may_put (P.attempt pages.new)) 17 }
    ensures leads { WithStore S.holds (P.attempt pages.old) (P.attempt pages.new) place (λ array outline places view.
        Leads S.holds (P.asked pages.old pages.new) (P.attempt pages.old) (P.attempt pages.new) array outline places
        (put_view schema.now place.store entity cells.now view) (λ _. ⊤)
        (place.store ∷ []) true (17 * added_by 4 (its_row schema.now entity cells.now) (view.rows place.store)) (34 * changed_by 4 (its_row schema.now entity cells.now) (view.rows place.store)) result) }
    ensures put { OnOk result (WithStore S.holds (P.attempt pages.old) (P.attempt pages.new) place (λ array outline places view.
        (page : ℕ) × S.spot place (over (P.attempt pages.old) array) (to_be_bytes w32 entity.serial) page × IsSome ((P.attempt pages.new).written page))) }
{
    let mut bytes = [0; MOST_BYTES];
    let row = &mut bytes[..place.width as usize];
    write_row(schema, entity.ty, entity.serial, cells, row);
    insert_row::<S, P>(alloc, place, pages, row)
}

/// Puts the row of an entity with these cells, and notes in the attribute's index and inverse that its value changed.
fn put_cells<S: Store, P: Pages>(
    alloc: Global,
    schema: &Schema,
    places: &Places,
    place: Place,
    pages: &mut P,
    entity: EntityId,
    number: u16,
    cells: &[Value],
    old: &Value,
    new: &Value,
) -> Result<(), PageFault>
    requires of { AreOf schema.now places.now }
    requires fair { All IsPlace places.now }
    requires extent { IsExtent schema.now entity.ty place }
    requires entity { IsEntity entity }
    requires held { AreHeld (cell_fields schema.now entity.ty) cells.now }
    requires there { IfSome (numbered schema.now number) (λ a. IsOrNull a.kind old.now × IsOrNull a.kind new.now) }
    ensures follows { P.follows pages.old pages.new }
    ensures met { HandsOn (P.met pages.old) (P.met pages.new) result }
    ensures kinds { HasPutStores (P.attempt pages.old) → P.asked pages.old pages.new any_page (may_put (P.attempt pages.new)) (17 + 17 * pairs_added number places.now old.now new.now) }
    ensures leads { OfDatabase S.holds (P.attempt pages.old) (P.attempt pages.new) schema.now places.now (λ array view. place_of place.store places.now ≡ Some place → IfSome (numbered schema.now number) (λ a.
        Leads S.holds (P.asked pages.old pages.new) (P.attempt pages.old) (P.attempt pages.new) array schema.now places.now
        (if same_value old.now new.now then put_view schema.now place.store entity cells.now view else noted_view number a.kind entity old.now new.now (put_view schema.now place.store entity cells.now view)) (λ _. ⊤)
        (place.store ∷ stores_at (turned_places number places.now)) true
        (17 * (added_by 4 (its_row schema.now entity cells.now) (view.rows place.store) + pairs_added number places.now old.now new.now))
        (34 * (changed_by 4 (its_row schema.now entity cells.now) (view.rows place.store) + pairs_changed number places.now old.now new.now)) result)) }
    ensures put { OnOk result (OfDatabase S.holds (P.attempt pages.old) (P.attempt pages.new) schema.now places.now (λ array view. place_of place.store places.now ≡ Some place →
        (page : ℕ) × S.spot place (over (P.attempt pages.old) array) (to_be_bytes w32 entity.serial) page × IsSome ((P.attempt pages.new).written page))) }
{
    match put_row::<S, P>(alloc, schema, place, pages, entity, cells) {
        Ok(_) => note_pair::<S, P>(alloc, schema, places, pages, number, entity, old, new),
        Err(fault) => Err(fault),
    }
}

/// Puts a value in place of an attribute's in the row of an entity with these cells, and notes the change in the attribute's
/// index and inverse. Nothing is done where the attribute has no such cell, or the value doesn't fit it.
pub(crate) fn change<S: Store, P: Pages>(
    alloc: Global,
    schema: &Schema,
    places: &Places,
    place: Place,
    pages: &mut P,
    entity: EntityId,
    attribute: &Attribute,
    cells: Values,
    value: &Value,
) -> Result<(), PageFault>
    requires of { AreOf schema.now places.now }
    requires fair { All IsPlace places.now }
    requires extent { IsExtent schema.now entity.ty place }
    requires entity { IsEntity entity }
    requires numbered { numbered schema.now attribute.now.number ≡ Some attribute.now }
    requires held { AreHeld (cell_fields schema.now entity.ty) cells }
    ensures follows { P.follows pages.old pages.new }
    ensures met { HandsOn (P.met pages.old) (P.met pages.new) result }
    ensures kinds { PutsStores (P.attempt pages.old) (P.attempt pages.new) }
    ensures alters { OfState S.holds (P.attempt pages.old) (P.attempt pages.new) schema.now places.now (λ array s. place_of place.store places.now ≡ Some place →
        IsToBeSet s entity attribute.now value.now → cells ≡ (entity_row s entity).cells → IsFreeFor s entity attribute.now value.now →
        Alters S.holds (P.asked pages.old pages.new) (P.attempt pages.old) (P.attempt pages.new) array places.now s (Set entity attribute.now.number value.now) result) }
    ensures put { OnOk result (OfState S.holds (P.attempt pages.old) (P.attempt pages.new) schema.now places.now (λ array s. place_of place.store places.now ≡ Some place →
        IsToBeSet s entity attribute.now value.now →
        (page : ℕ) × S.spot place (over (P.attempt pages.old) array) (to_be_bytes w32 entity.serial) page × IsSome ((P.attempt pages.new).written page))) }
{
    laws_of_keys();
    laws_of_rows();
    laws_of_order();
    laws_of_places();
    match replaced(alloc, schema, attribute, entity.ty, cells, value) {
        Ok(Some((cells, old))) => put_cells::<S, P>(
            alloc,
            schema,
            places,
            place,
            pages,
            entity,
            attribute.number,
            cells.as_slice(),
            &old,
            value,
        ),
        Ok(None) => Ok(()),
        Err(_) => Err(PageFault::Memory),
    }
}
