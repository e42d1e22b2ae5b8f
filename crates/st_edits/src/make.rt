//! New entities.
ghost use Rattle.std.specs.Prelude.{◌≡◌, ◌<◌, ◌≤◌, ◌++◌, ⊤, [], ◌∷◌, true, length, replicate, Some};
ghost use Rattle.std.specs.Int.{w32, to_be_bytes};
ghost use Rattle.std.specs.List.{All};
ghost use Rattle.st_pages.specs.Attempt.{may_put};
ghost use Rattle.st_pages.specs.Calls.{HandsOn};
ghost use Rattle.st_catalog.specs.Stores.{AreOf};
ghost use Rattle.st_database.specs.Database.{with_last, with_rows};
ghost use Rattle.st_database.specs.Touches.{Leads, WithStore};
ghost use Rattle.st_lookups.specs.Looks.{IsExtent, OfState};
ghost use Rattle.st_store.specs.Rows.{with_row};
ghost use Rattle.st_store.specs.Stores.{HasPutStores, IsPlace, any_page};
ghost use Rattle.st_state.specs.State.{next_entity};
ghost use Rattle.st_state.specs.Calls.{Make};
ghost use Rattle.st_edits.specs.Edits.{Behaves, Edits, PutsStores};
ghost use Rattle.st_edits.specs.Steps.{Made, MakesAt, Turns, new_row};

use crate::fault::told;
use st_counts::laws_of_made;
use st_database::{insert_new, serial_of};
use st_keys::laws_of_keys;
use st_lattice::Schema;
use st_lookups::extent_of;
use st_page::PageFault;
use st_pages::{Pages, Place, Places};
use st_plain::{BaseFault, spent};
use st_rows::laws_of_rows;
use st_store::Store;
use st_values::EntityId;
use std::alloc::Global;

/// The most bytes that a row has.
const MOST_BYTES: usize = 1000;

/// A row of the greatest width: a serial, and zeros.
fn blank_row(serial: u32) -> [u8; MOST_BYTES]
    ensures { result ≡ to_be_bytes w32 serial ++ replicate 996 0 }
{
    let mut row = [0; MOST_BYTES];
    row[..4].copy_from_slice(&serial.to_be_bytes());
    row
}

/// Puts a row of a serial and zeros into the extent at a place, and sets the extent's last serial to it.
fn insert_blank<S: Store, P: Pages>(
    alloc: Global,
    place: Place,
    pages: &mut P,
    serial: u32,
) -> Result<(), PageFault>
    requires is { IsPlace place }
    requires extent { place.store < 65536 }
    requires wide { 4 ≤ place.width }
    ensures follows { P.follows pages.old pages.new }
    ensures met { HandsOn (P.met pages.old) (P.met pages.new) result }
    ensures kinds { HasPutStores (P.attempt pages.old) → P.asked pages.old pages.new any_page (may_put (P.attempt pages.new)) 17 }
    ensures leads { WithStore S.holds (P.attempt pages.old) (P.attempt pages.new) place (λ array schema places view.
        Leads S.holds (P.asked pages.old pages.new) (P.attempt pages.old) (P.attempt pages.new) array schema places
        (with_last place.store serial (with_rows place.store (with_row place.key (new_row place.width serial) (view.rows place.store)) view)) (λ done. ⊤) (place.store ∷ []) true 17 34 result) }
{
    let row = blank_row(serial);
    insert_new::<S, P>(alloc, place, pages, &row[..place.width as usize], serial)
}

/// Puts a new entity with a serial into the extent at a place, with no values.
fn make_with<S: Store, P: Pages>(
    alloc: Global,
    place: Place,
    pages: &mut P,
    ty: u16,
    serial: u32,
) -> Result<Option<EntityId>, PageFault>
    requires is { IsPlace place }
    requires extent { place.store < 65536 }
    requires wide { 4 ≤ place.width }
    ensures follows { P.follows pages.old pages.new }
    ensures met { HandsOn (P.met pages.old) (P.met pages.new) result }
    ensures kinds { HasPutStores (P.attempt pages.old) → P.asked pages.old pages.new any_page (may_put (P.attempt pages.new)) 17 }
    ensures small { serial < 4294967296 }
    ensures leads { WithStore S.holds (P.attempt pages.old) (P.attempt pages.new) place (λ array schema places view.
        Leads S.holds (P.asked pages.old pages.new) (P.attempt pages.old) (P.attempt pages.new) array schema places
        (with_last place.store serial (with_rows place.store (with_row place.key (new_row place.width serial) (view.rows place.store)) view))
        (λ made. made ≡ Some (record { ty = ty; serial = serial })) (place.store ∷ []) true 17 34 result) }
{
    match insert_blank::<S, P>(alloc, place, pages, serial) {
        Ok(()) => Ok(Some(EntityId { ty, serial })),
        Err(fault) => Err(fault),
    }
}

/// Makes an entity with the next serial of the extent at a place; none where that was the last one.
fn make_at<S: Store, P: Pages>(
    alloc: Global,
    place: Place,
    pages: &mut P,
    ty: u16,
) -> Result<Option<EntityId>, PageFault>
    requires is { IsPlace place }
    requires extent { place.store < 65536 }
    requires wide { 4 ≤ place.width }
    ensures follows { P.follows pages.old pages.new }
    ensures met { HandsOn (P.met pages.old) (P.met pages.new) result }
    ensures kinds { PutsStores (P.attempt pages.old) (P.attempt pages.new) }
    ensures makes { WithStore S.holds (P.attempt pages.old) (P.attempt pages.new) place (λ array schema places view.
        MakesAt S.holds (P.asked pages.old pages.new) (P.attempt pages.old) (P.attempt pages.new) array schema places place view ty result) }
{
    match serial_of::<S, P>(alloc, place, pages) {
        Ok(u32::MAX) => Ok(None),
        Ok(serial) => make_with::<S, P>(alloc, place, pages, ty, serial + 1),
        Err(fault) => Err(fault),
    }
}

/// Makes an entity of a type with the next serial; none where all serials were given out.
fn make_next<S: Store, P: Pages>(
    alloc: Global,
    schema: &Schema,
    places: &Places,
    pages: &mut P,
    ty: u16,
) -> Result<Option<EntityId>, PageFault>
    requires of { AreOf schema.now places.now }
    requires fair { All IsPlace places.now }
    requires known { ty < length schema.now.names }
    ensures follows { P.follows pages.old pages.new }
    ensures met { HandsOn (P.met pages.old) (P.met pages.new) result }
    ensures kinds { PutsStores (P.attempt pages.old) (P.attempt pages.new) }
    ensures turns { OfState S.holds (P.attempt pages.old) (P.attempt pages.new) schema.now places.now (λ array s.
        Turns (P.asked pages.old pages.new) (P.attempt pages.old) (P.attempt pages.new) array s (Make ty) (Made S.holds (P.attempt pages.new) array places.now s ty) result) }
{
    laws_of_keys();
    laws_of_made();
    laws_of_rows();
    let Some(place) = extent_of(schema, places, ty) else {
        unreachable!();
    };
    make_at::<S, P>(alloc, place, pages, ty)
}

/// Makes an entity of a type, with the next serial and no values.
///
/// # Errors
/// `Refused` by rule 9 where all serials of the type were given out, and by the rules 12 and 13 where pages refuse; otherwise
/// what a call of `Pages` answered, and `Memory`. Behind a fault of pages the attempt can only be given up.
pub fn make_entity<S: Store, P: Pages>(
    alloc: Global,
    schema: &Schema,
    places: &Places,
    pages: &mut P,
    ty: u16,
) -> Result<EntityId, BaseFault>
    requires of { AreOf schema.now places.now }
    requires fair { All IsPlace places.now }
    requires known { ty < length schema.now.names }
    ensures behaves { Behaves (P.follows pages.old pages.new) (P.met pages.old) (P.met pages.new) (Make ty) result }
    ensures kinds { PutsStores (P.attempt pages.old) (P.attempt pages.new) }
    ensures edits { OfState S.holds (P.attempt pages.old) (P.attempt pages.new) schema.now places.now (λ array s.
        Edits S.holds (P.asked pages.old pages.new) (P.attempt pages.old) (P.attempt pages.new) array places.now s (Make ty) (λ entity. entity ≡ next_entity s ty) result) }
{
    match make_next::<S, P>(alloc, schema, places, pages, ty) {
        Ok(Some(entity)) => Ok(entity),
        Ok(None) => match spent(alloc, schema, ty) {
            Ok(refusal) => Err(BaseFault::Refused(refusal)),
            Err(_) => Err(BaseFault::Memory),
        },
        Err(fault) => Err(told(fault)),
    }
}
