//! References in the rows of other entities.
ghost use Rattle.std.specs.Prelude.{◌≡◌, true, false, map, IfOk, IsTrue, Some};
ghost use Rattle.std.specs.List.{All, list_all, list_any};
ghost use Rattle.st_values.specs.Order.{same_entity};
ghost use Rattle.st_lattice.specs.Stores.{deleted, store};
ghost use Rattle.st_keys.specs.Keys.{IsEntity};
ghost use Rattle.st_rows.specs.Rows.{AreHeld, cell_fields};
ghost use Rattle.st_pages.specs.Calls.{HandsOn};
ghost use Rattle.st_pages.specs.Places.{place_of};
ghost use Rattle.st_catalog.specs.Stores.{AreOf};
ghost use Rattle.st_store.specs.Stores.{IsPlace, among};
ghost use Rattle.st_state.specs.State.{is_live};
ghost use Rattle.st_state.specs.Rows.{entity_row};
ghost use Rattle.st_lookups.specs.Looks.{IsExtent, OfState};
ghost use Rattle.st_edits.specs.Edits.{PutsStores};
ghost use Rattle.st_removals.specs.Clears.{Clears};
ghost use Rattle.st_removals.specs.Taken.{goes, is_unreferring, left_of};

use crate::notes::{goes, note_gone};
use st_database::{laws_of_order, laws_of_places};
use st_edits::put_row;
use st_keys::laws_of_keys;
use st_lattice::{Schema, StoreKind};
use st_lookups::{cells_at, extent_of};
use st_page::PageFault;
use st_pages::{Pages, Place, Places};
use st_rows::laws_of_rows;
use st_store::Store;
use st_text::Duplicate;
use st_values::{EntityId, Value, Values};
use std::alloc::{AllocError, Global};

/// Whether some cell is an entity.
fn refers(cells: &[Value], entity: EntityId) -> bool
    ensures { result ≡ list_any (goes (Some entity)) cells.now }
{
    for cell in cells {
        if goes(Some(entity), cell) {
            return true;
        }
    }
    false
}

/// The cells with null in place of an entity.
fn emptied(alloc: Global, cells: &[Value], entity: EntityId) -> Result<Values, AllocError>
    ensures { IfOk result (λ left. left ≡ map (left_of (Some entity)) cells.now) }
{
    let mut left = Values::new(alloc);
    for cell in cells {
        if goes(Some(entity), cell) {
            left.push(Value::Null)?;
        } else {
            left.push(cell.copy(alloc)?)?;
        }
    }
    Ok(left)
}

/// Puts the row of an entity with null in place of another one, and takes the cells that were the other one out of the indexes
/// and the inverses of their attributes.
fn empty_row<S: Store, P: Pages>(
    alloc: Global,
    schema: &Schema,
    places: &Places,
    place: Place,
    pages: &mut P,
    other: EntityId,
    entity: EntityId,
    cells: &[Value],
) -> Result<(), PageFault>
    requires of { AreOf schema.now places.now }
    requires fair { All IsPlace places.now }
    requires extent { IsExtent schema.now other.ty place }
    requires is { IsEntity other }
    requires held { AreHeld (cell_fields schema.now other.ty) cells.now }
    ensures follows { P.follows pages.old pages.new }
    ensures met { HandsOn (P.met pages.old) (P.met pages.new) result }
    ensures kinds { PutsStores (P.attempt pages.old) (P.attempt pages.new) }
    ensures clears { OfState S.holds (P.attempt pages.old) (P.attempt pages.new) schema.now places.now (λ array s. place_of place.store places.now ≡ Some place → is_live s entity ≡ true → is_live s other ≡ true → same_entity other entity ≡ false →
        cells.now ≡ (entity_row s other).cells → IsTrue (list_any (goes (Some entity)) cells.now) →
        Clears S.holds (P.asked pages.old pages.new) (P.attempt pages.old) (P.attempt pages.new) array places.now entity s (λ t. IsTrue (list_all (is_unreferring schema.now other entity) t.triples)) result) }
{
    laws_of_keys();
    laws_of_rows();
    laws_of_order();
    laws_of_places();
    match emptied(alloc, cells, entity) {
        Ok(left) => match put_row::<S, P>(alloc, schema, place, pages, other, left.as_slice()) {
            Ok(_) => { note_gone::<S, P>(alloc, schema, places, pages, other, cells, Some(entity)) }
            Err(fault) => Err(fault),
        },
        Err(_) => Err(PageFault::Memory),
    }
}

/// The same of a row that may refer to the other one.
fn clear_row<S: Store, P: Pages>(
    alloc: Global,
    schema: &Schema,
    places: &Places,
    pages: &mut P,
    other: EntityId,
    entity: EntityId,
    cells: &[Value],
) -> Result<(), PageFault>
    requires of { AreOf schema.now places.now }
    requires fair { All IsPlace places.now }
    requires held { AreHeld (cell_fields schema.now other.ty) cells.now }
    ensures follows { P.follows pages.old pages.new }
    ensures met { HandsOn (P.met pages.old) (P.met pages.new) result }
    ensures kinds { PutsStores (P.attempt pages.old) (P.attempt pages.new) }
    ensures clears { OfState S.holds (P.attempt pages.old) (P.attempt pages.new) schema.now places.now (λ array s. is_live s entity ≡ true → is_live s other ≡ true → same_entity other entity ≡ false → cells.now ≡ (entity_row s other).cells →
        Clears S.holds (P.asked pages.old pages.new) (P.attempt pages.old) (P.attempt pages.new) array places.now entity s (λ t. IsTrue (list_all (is_unreferring schema.now other entity) t.triples)) result) }
{
    laws_of_places();
    if !refers(cells, entity) || other.serial == 0 {
        return Ok(());
    }
    let Some(place) = extent_of(schema, places, other.ty) else {
        return Ok(());
    };
    empty_row::<S, P>(alloc, schema, places, place, pages, other, entity, cells)
}

/// Takes the references to an entity out of the row of another one, all at once, and out of the indexes and the inverses of
/// their attributes. The row is put only where it refers to the entity.
///
/// # Errors
/// What a call of `Pages` answered, and `Memory`. The attempt can then only be given up.
pub fn unrefer<S: Store, P: Pages>(
    alloc: Global,
    schema: &Schema,
    places: &Places,
    pages: &mut P,
    other: EntityId,
    entity: EntityId,
) -> Result<(), PageFault>
    requires of { AreOf schema.now places.now }
    requires fair { All IsPlace places.now }
    ensures follows { P.follows pages.old pages.new }
    ensures met { HandsOn (P.met pages.old) (P.met pages.new) result }
    ensures kinds { PutsStores (P.attempt pages.old) (P.attempt pages.new) }
    ensures clears { OfState S.holds (P.attempt pages.old) (P.attempt pages.new) schema.now places.now (λ array s. is_live s entity ≡ true → is_live s other ≡ true → same_entity other entity ≡ false → IsTrue (among (deleted schema.now entity.ty) (store StoreKind.Extent other.ty)) →
        Clears S.holds (P.asked pages.old pages.new) (P.attempt pages.old) (P.attempt pages.new) array places.now entity s (λ t. IsTrue (list_all (is_unreferring schema.now other entity) t.triples)) result) }
{
    match cells_at::<S, P>(alloc, schema, places, pages, other) {
        Ok(Some(cells)) => clear_row::<S, P>(
            alloc,
            schema,
            places,
            pages,
            other,
            entity,
            cells.as_slice(),
        ),
        Ok(None) => Ok(()),
        Err(fault) => Err(fault),
    }
}
