//! Calls on one store of a database.
ghost use Rattle.std.specs.Prelude.{◌≡◌, ◌*◌, ℕ, [], ◌∷◌, true, false, is_some, length, IsSome, IsTrue, IfErr, OnOk};
ghost use Rattle.st_pages.specs.Attempt.{may_put, over};
ghost use Rattle.st_pages.specs.Calls.{HandsOn, is_of_looking};
ghost use Rattle.st_store.specs.Rows.{row_with, with_row, without_row};
ghost use Rattle.st_store.specs.Stores.{Found, HasPutStores, IsPlace, any_page};
ghost use Rattle.st_database.specs.Database.{with_rows};
ghost use Rattle.st_database.specs.Touches.{Leads, WithStore, added_by, changed_by, removed_by};

use crate::order::laws_of_order;
use st_page::PageFault;
use st_pages::{Pages, Place};
use st_store::Store;
use std::alloc::Global;

/// Looks for the row with a key in the store at a place, and copies it. Where there is none, what `row` holds is left open,
/// as at an error.
///
/// # Errors
/// What a call of `Pages` answered; `BadPage` only where the pages are no database with such a store.
pub fn find_row<S: Store, P: Pages>(
    alloc: Global,
    place: Place,
    pages: &mut P,
    key: &[u8],
    row: &mut [u8],
) -> Result<bool, PageFault>
    requires place { IsPlace place }
    requires key { length key.now ≡ place.key }
    requires row { length row.old ≡ place.width }
    ensures follows { P.follows pages.old pages.new }
    ensures written { (P.attempt pages.new).written ≡ (P.attempt pages.old).written }
    ensures met { HandsOn (P.met pages.old) (P.met pages.new) result }
    ensures looks { IfErr result (λ fault. IsTrue (is_of_looking fault)) }
    ensures leads { WithStore S.holds (P.attempt pages.old) (P.attempt pages.new) place (λ array schema places view.
        Leads S.holds (P.asked pages.old pages.new) (P.attempt pages.old) (P.attempt pages.new) array schema places
        view (λ found. Found place.key key.now (view.rows place.store) found row.new) (place.store ∷ []) false 0 0 result) }
    ensures seen { OnOk result (WithStore S.holds (P.attempt pages.old) (P.attempt pages.new) place (λ array schema places view.
        (page : ℕ) × S.spot place (over (P.attempt pages.old) array) key.now page × IsSome ((P.attempt pages.new).seen page))) }
{
    let store = S::at(place);
    store.find(alloc, pages, key, row)
}

/// Puts a row into the store at a place, instead of the one with its key if there is one; whether there was.
///
/// # Errors
/// What a call of `Pages` answered; `BadPage` only where the pages are no database with such a store. The attempt can then
/// only be given up.
pub fn insert_row<S: Store, P: Pages>(
    alloc: Global,
    place: Place,
    pages: &mut P,
    row: &[u8],
) -> Result<bool, PageFault>
    requires place { IsPlace place }
    requires row { length row.now ≡ place.width }
    ensures follows { P.follows pages.old pages.new }
    ensures met { HandsOn (P.met pages.old) (P.met pages.new) result }
    ensures kinds { HasPutStores (P.attempt pages.old) → P.asked pages.old pages.new any_page (may_put (P.attempt pages.new)) 17 }
    ensures leads { WithStore S.holds (P.attempt pages.old) (P.attempt pages.new) place (λ array schema places view.
        Leads S.holds (P.asked pages.old pages.new) (P.attempt pages.old) (P.attempt pages.new) array schema places
        (with_rows place.store (with_row place.key row.now (view.rows place.store)) view) (λ was. was ≡ is_some (row_with place.key row.now (view.rows place.store)))
        (place.store ∷ []) true (17 * added_by place.key row.now (view.rows place.store)) (34 * changed_by place.key row.now (view.rows place.store)) result) }
    ensures put { OnOk result (WithStore S.holds (P.attempt pages.old) (P.attempt pages.new) place (λ array schema places view.
        (page : ℕ) × S.spot place (over (P.attempt pages.old) array) row.now page × IsSome ((P.attempt pages.new).written page))) }
{
    laws_of_order();
    let store = S::at(place);
    store.insert(alloc, pages, row)
}

/// Takes the row with a key out of the store at a place; whether there was one. Where there was none, the page on which it
/// would stand is put as it is.
///
/// # Errors
/// What a call of `Pages` answered; `BadPage` only where the pages are no database with such a store. The attempt can then
/// only be given up.
pub fn remove_row<S: Store, P: Pages>(
    alloc: Global,
    place: Place,
    pages: &mut P,
    key: &[u8],
) -> Result<bool, PageFault>
    requires place { IsPlace place }
    requires key { length key.now ≡ place.key }
    ensures follows { P.follows pages.old pages.new }
    ensures met { HandsOn (P.met pages.old) (P.met pages.new) result }
    ensures kinds { HasPutStores (P.attempt pages.old) → P.asked pages.old pages.new any_page (may_put (P.attempt pages.new)) 0 }
    ensures leads { WithStore S.holds (P.attempt pages.old) (P.attempt pages.new) place (λ array schema places view.
        Leads S.holds (P.asked pages.old pages.new) (P.attempt pages.old) (P.attempt pages.new) array schema places
        (with_rows place.store (without_row place.key key.now (view.rows place.store)) view) (λ was. was ≡ is_some (row_with place.key key.now (view.rows place.store)))
        (place.store ∷ []) true 0 (34 * removed_by place.key key.now (view.rows place.store)) result) }
    ensures put { OnOk result (WithStore S.holds (P.attempt pages.old) (P.attempt pages.new) place (λ array schema places view.
        (page : ℕ) × S.spot place (over (P.attempt pages.old) array) key.now page × IsSome ((P.attempt pages.new).written page))) }
{
    laws_of_order();
    let store = S::at(place);
    store.remove(alloc, pages, key)
}
