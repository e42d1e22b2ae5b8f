//! The last serial of an extent of a database.
ghost use Rattle.std.specs.Prelude.{◌≡◌, ◌<◌, [], ◌∷◌, ⊤, true, false, length, IsTrue, IfErr};
ghost use Rattle.st_pages.specs.Attempt.{may_put};
ghost use Rattle.st_pages.specs.Calls.{HandsOn, is_of_looking, no_page, only};
ghost use Rattle.st_store.specs.Rows.{with_row};
ghost use Rattle.st_store.specs.Stores.{HasPutStores, IsPlace, any_page};
ghost use Rattle.st_database.specs.Database.{with_last, with_rows};
ghost use Rattle.st_database.specs.Touches.{Leads, WithStore};

use crate::order::laws_of_order;
use st_catalog::{last_serial, set_last_serial};
use st_page::PageFault;
use st_pages::{Pages, Place};
use st_store::Store;
use std::alloc::Global;

/// The last serial of the extent at a place.
///
/// # Errors
/// What a call of `Pages` answered; `BadPage` only where the pages are no database with such an extent.
pub fn serial_of<S: Store, P: Pages>(
    alloc: Global,
    place: Place,
    pages: &mut P,
) -> Result<u32, PageFault>
    requires place { IsPlace place }
    requires extent { place.store < 65536 }
    ensures follows { P.follows pages.old pages.new }
    ensures written { (P.attempt pages.new).written ≡ (P.attempt pages.old).written }
    ensures met { HandsOn (P.met pages.old) (P.met pages.new) result }
    ensures looks { IfErr result (λ fault. IsTrue (is_of_looking fault)) }
    ensures asked { P.asked pages.old pages.new (only place.first) no_page 0 }
    ensures leads { WithStore S.holds (P.attempt pages.old) (P.attempt pages.new) place (λ array schema places view.
        Leads S.holds (P.asked pages.old pages.new) (P.attempt pages.old) (P.attempt pages.new) array schema places
        view (λ serial. serial ≡ view.last place.store) (place.store ∷ []) false 0 0 result) }
{
    last_serial(alloc, pages, place)
}

/// Puts a row into the extent at a place, and sets the extent's last serial.
///
/// # Errors
/// What a call of `Pages` answered; `BadPage` only where the pages are no database with such an extent. The attempt can then
/// only be given up.
pub fn insert_new<S: Store, P: Pages>(
    alloc: Global,
    place: Place,
    pages: &mut P,
    row: &[u8],
    serial: u32,
) -> Result<(), PageFault>
    requires place { IsPlace place }
    requires extent { place.store < 65536 }
    requires row { length row.now ≡ place.width }
    ensures follows { P.follows pages.old pages.new }
    ensures met { HandsOn (P.met pages.old) (P.met pages.new) result }
    ensures kinds { HasPutStores (P.attempt pages.old) → P.asked pages.old pages.new any_page (may_put (P.attempt pages.new)) 17 }
    ensures leads { WithStore S.holds (P.attempt pages.old) (P.attempt pages.new) place (λ array schema places view.
        Leads S.holds (P.asked pages.old pages.new) (P.attempt pages.old) (P.attempt pages.new) array schema places
        (with_last place.store serial (with_rows place.store (with_row place.key row.now (view.rows place.store)) view)) (λ done. ⊤) (place.store ∷ []) true 17 34 result) }
{
    laws_of_order();
    let store = S::at(place);
    match store.insert(alloc, pages, row) {
        Ok(_) => set_last_serial(alloc, pages, place, serial),
        Err(fault) => Err(fault),
    }
}
