//! The row of an entity that is deleted.
ghost use Rattle.std.specs.Prelude.{◌≡◌, true, IsTrue, Some};
ghost use Rattle.std.specs.List.{All, list_all};
ghost use Rattle.st_keys.specs.Keys.{IsEntity};
ghost use Rattle.st_rows.specs.Rows.{AreHeld, cell_fields};
ghost use Rattle.st_pages.specs.Calls.{HandsOn};
ghost use Rattle.st_pages.specs.Places.{place_of};
ghost use Rattle.st_catalog.specs.Stores.{AreOf};
ghost use Rattle.st_store.specs.Stores.{IsPlace};
ghost use Rattle.st_state.specs.State.{is_live};
ghost use Rattle.st_state.specs.Rows.{entity_row};
ghost use Rattle.st_lookups.specs.Looks.{IsExtent, OfState};
ghost use Rattle.st_edits.specs.Edits.{PutsStores};
ghost use Rattle.st_removals.specs.Clears.{Removes};
ghost use Rattle.st_removals.specs.Taken.{is_own_or_strange};

use crate::notes::note_gone;
use st_database::{laws_of_order, laws_of_places, remove_row};
use st_keys::laws_of_keys;
use st_lattice::Schema;
use st_lookups::{cells_at, extent_of};
use st_page::PageFault;
use st_pages::{Pages, Place, Places};
use st_rows::laws_of_rows;
use st_store::Store;
use st_values::{EntityId, Value};
use std::alloc::Global;

/// Takes the row of an entity out of the extent at a place, and its cells out of the indexes and the inverses of their
/// attributes.
fn remove_at<S: Store, P: Pages>(
    alloc: Global,
    schema: &Schema,
    places: &Places,
    place: Place,
    pages: &mut P,
    entity: EntityId,
    cells: &[Value],
) -> Result<(), PageFault>
    requires of { AreOf schema.now places.now }
    requires fair { All IsPlace places.now }
    requires extent { IsExtent schema.now entity.ty place }
    requires is { IsEntity entity }
    requires held { AreHeld (cell_fields schema.now entity.ty) cells.now }
    ensures follows { P.follows pages.old pages.new }
    ensures met { HandsOn (P.met pages.old) (P.met pages.new) result }
    ensures kinds { PutsStores (P.attempt pages.old) (P.attempt pages.new) }
    ensures removes { OfState S.holds (P.attempt pages.old) (P.attempt pages.new) schema.now places.now (λ array s. place_of place.store places.now ≡ Some place → is_live s entity ≡ true → cells.now ≡ (entity_row s entity).cells →
        IsTrue (list_all (is_own_or_strange schema.now entity) s.triples) →
        Removes S.holds (P.asked pages.old pages.new) (P.attempt pages.old) (P.attempt pages.new) array places.now entity s result) }
{
    laws_of_keys();
    laws_of_rows();
    laws_of_order();
    laws_of_places();
    let key = entity.serial.to_be_bytes();
    match remove_row::<S, P>(alloc, place, pages, &key) {
        Ok(_) => note_gone::<S, P>(alloc, schema, places, pages, entity, cells, None),
        Err(fault) => Err(fault),
    }
}

/// The same, by the entity's type.
fn remove_there<S: Store, P: Pages>(
    alloc: Global,
    schema: &Schema,
    places: &Places,
    pages: &mut P,
    entity: EntityId,
    cells: &[Value],
) -> Result<(), PageFault>
    requires of { AreOf schema.now places.now }
    requires fair { All IsPlace places.now }
    requires held { AreHeld (cell_fields schema.now entity.ty) cells.now }
    ensures follows { P.follows pages.old pages.new }
    ensures met { HandsOn (P.met pages.old) (P.met pages.new) result }
    ensures kinds { PutsStores (P.attempt pages.old) (P.attempt pages.new) }
    ensures removes { OfState S.holds (P.attempt pages.old) (P.attempt pages.new) schema.now places.now (λ array s. is_live s entity ≡ true → cells.now ≡ (entity_row s entity).cells → IsTrue (list_all (is_own_or_strange schema.now entity) s.triples) →
        Removes S.holds (P.asked pages.old pages.new) (P.attempt pages.old) (P.attempt pages.new) array places.now entity s result) }
{
    if entity.serial == 0 {
        return Ok(());
    }
    let Some(place) = extent_of(schema, places, entity.ty) else {
        return Ok(());
    };
    remove_at::<S, P>(alloc, schema, places, place, pages, entity, cells)
}

/// Takes the row of an entity out of its extent, and its cells out of the indexes and the inverses of their attributes: what is
/// left to be done of a deletion where all sets and all other entities were cleared.
///
/// # Errors
/// What a call of `Pages` answered, and `Memory`. The attempt can then only be given up.
pub fn remove<S: Store, P: Pages>(
    alloc: Global,
    schema: &Schema,
    places: &Places,
    pages: &mut P,
    entity: EntityId,
) -> Result<(), PageFault>
    requires of { AreOf schema.now places.now }
    requires fair { All IsPlace places.now }
    ensures follows { P.follows pages.old pages.new }
    ensures met { HandsOn (P.met pages.old) (P.met pages.new) result }
    ensures kinds { PutsStores (P.attempt pages.old) (P.attempt pages.new) }
    ensures removes { OfState S.holds (P.attempt pages.old) (P.attempt pages.new) schema.now places.now (λ array s. is_live s entity ≡ true → IsTrue (list_all (is_own_or_strange schema.now entity) s.triples) →
        Removes S.holds (P.asked pages.old pages.new) (P.attempt pages.old) (P.attempt pages.new) array places.now entity s result) }
{
    match cells_at::<S, P>(alloc, schema, places, pages, entity) {
        Ok(Some(cells)) => {
            remove_there::<S, P>(alloc, schema, places, pages, entity, cells.as_slice())
        }
        Ok(None) => Ok(()),
        Err(fault) => Err(fault),
    }
}
