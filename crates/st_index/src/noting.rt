//! How an index and an inverse are kept in step with an attribute's values.
ghost use Rattle.std.specs.Prelude.{◌≡◌, ◌+◌, ◌*◌, ◌||◌, ◌≤◌, true, false, OnOk, IfErr, IfSome, length};
ghost use Rattle.std.specs.List.{All};
ghost use Rattle.st_lattice.specs.Outline.{attribute as numbered};
ghost use Rattle.st_keys.specs.Keys.{Fits, IsEntity};
ghost use Rattle.st_rows.specs.Rows.{pair_width};
ghost use Rattle.st_catalog.specs.Stores.{AreOf};
ghost use Rattle.st_pages.specs.Calls.{HandsOn, no_page};
ghost use Rattle.st_pages.specs.Attempt.{may_put};
ghost use Rattle.st_pages.specs.Reading.{ForEach, OfDamage};
ghost use Rattle.st_store.specs.Stores.{IsPlace, OfStore, ForBoth, Changed, HasPutStores, KeepNumbers, any_page, drew_between};
ghost use Rattle.st_store.specs.Rows.{with_row, without_row};
ghost use Rattle.st_index.specs.Turned.{IsOrNull, turned_row, noted, with_value, without_value, turned_places};
ghost use Rattle.st_index.specs.Change.{IsTurned, Moved, AreApart, one_place, two_places};
ghost use Rattle.st_index.specs.Noted.{IsNoted, AllHold, reach_any, rows_for, differences};
ghost use Rattle.st_values.specs.Order.{same_value};

use st_lattice::{Attribute, Schema, StoreKind, store};
use st_page::PageFault;
use st_pages::{Pages, Place, Places};
use st_rows::{pair_row, pair_width};
use st_store::Store;
use st_values::{EntityId, Kind, Value, is_same};
use std::alloc::Global;

/// The most bytes that a row of a value and an entity has.
const MOST_BYTES: usize = 262;

/// Takes the row of an entity's value out of an index or inverse.
fn forget_row<S: Store, P: Pages>(
    alloc: Global,
    store: &S,
    pages: &mut P,
    kind: Kind,
    entity: EntityId,
    value: &Value,
) -> Result<(), PageFault>
    requires turned { IsTurned kind (S.location store.now) }
    requires value { Fits kind value.now }
    requires entity { IsEntity entity }
    ensures follows { P.follows pages.old pages.new }
    ensures met { HandsOn (P.met pages.old) (P.met pages.new) result }
    ensures asked { ForEach (P.attempt pages.old) (P.attempt pages.new) (λ array. P.asked pages.old pages.new (S.reach (S.location store.now) array) (S.reach (S.location store.now) array) 0) }
    ensures kinds { HasPutStores (P.attempt pages.old) → P.asked pages.old pages.new any_page (may_put (P.attempt pages.new)) 0 }
    ensures few { ForBoth (P.attempt pages.old) (P.attempt pages.new) (λ before after. differences before after ≤ 34) }
    ensures numbers { ForBoth (P.attempt pages.old) (P.attempt pages.new) (λ before after. OfStore S.holds (S.location store.now) before (λ _ _. KeepNumbers (P.attempt pages.old) (P.attempt pages.new) before after)) }
    ensures changed { OnOk result (ForBoth (P.attempt pages.old) (P.attempt pages.new) (λ before after. OfStore S.holds (S.location store.now) before (λ had rows.
        Changed S.holds S.spot (P.asked pages.old pages.new) S.reach (S.location store.now) (P.attempt pages.old) (P.attempt pages.new) before after had (without_row (pair_width kind) (turned_row kind value.now entity) rows)))) }
    ensures bad { IfErr result (OfDamage (λ page at. ForEach (P.attempt pages.old) (P.attempt pages.new) (λ array. S.bad (S.location store.now) array page at))) }
{
    let mut bytes = [0; MOST_BYTES];
    let row = &mut bytes[..pair_width(kind)];
    pair_row(value, kind, entity, true, row);
    match store.remove(alloc, pages, row) {
        Ok(_) => Ok(()),
        Err(fault) => Err(fault),
    }
}

/// Takes an entity's value out of an index or inverse. Null has no row there.
fn forget<S: Store, P: Pages>(
    alloc: Global,
    store: &S,
    pages: &mut P,
    kind: Kind,
    entity: EntityId,
    value: &Value,
) -> Result<(), PageFault>
    requires turned { IsTurned kind (S.location store.now) }
    requires value { IsOrNull kind value.now }
    requires entity { IsEntity entity }
    ensures follows { P.follows pages.old pages.new }
    ensures met { HandsOn (P.met pages.old) (P.met pages.new) result }
    ensures asked { ForEach (P.attempt pages.old) (P.attempt pages.new) (λ array. P.asked pages.old pages.new (S.reach (S.location store.now) array) (S.reach (S.location store.now) array) 0) }
    ensures kinds { HasPutStores (P.attempt pages.old) → P.asked pages.old pages.new any_page (may_put (P.attempt pages.new)) 0 }
    ensures few { ForBoth (P.attempt pages.old) (P.attempt pages.new) (λ before after. differences before after ≤ 34 * rows_for value.now) }
    ensures numbers { ForBoth (P.attempt pages.old) (P.attempt pages.new) (λ before after. OfStore S.holds (S.location store.now) before (λ _ _. KeepNumbers (P.attempt pages.old) (P.attempt pages.new) before after)) }
    ensures changed { OnOk result (ForBoth (P.attempt pages.old) (P.attempt pages.new) (λ before after. OfStore S.holds (S.location store.now) before (λ had rows.
        Changed S.holds S.spot (P.asked pages.old pages.new) S.reach (S.location store.now) (P.attempt pages.old) (P.attempt pages.new) before after had (without_value kind entity value.now rows)))) }
    ensures bad { IfErr result (OfDamage (λ page at. ForEach (P.attempt pages.old) (P.attempt pages.new) (λ array. S.bad (S.location store.now) array page at))) }
{
    match value {
        Value::Null => Ok(()),
        _ => forget_row(alloc, store, pages, kind, entity, value),
    }
}

/// Puts the row of an entity's value into an index or inverse.
fn keep_row<S: Store, P: Pages>(
    alloc: Global,
    store: &S,
    pages: &mut P,
    kind: Kind,
    entity: EntityId,
    value: &Value,
) -> Result<(), PageFault>
    requires turned { IsTurned kind (S.location store.now) }
    requires value { Fits kind value.now }
    requires entity { IsEntity entity }
    ensures follows { P.follows pages.old pages.new }
    ensures met { HandsOn (P.met pages.old) (P.met pages.new) result }
    ensures asked { ForEach (P.attempt pages.old) (P.attempt pages.new) (λ array. P.asked pages.old pages.new (S.reach (S.location store.now) array)
        (λ page. S.reach (S.location store.now) array page || drew_between (P.attempt pages.old) (P.attempt pages.new) page) 17) }
    ensures kinds { HasPutStores (P.attempt pages.old) → P.asked pages.old pages.new any_page (may_put (P.attempt pages.new)) 17 }
    ensures few { ForBoth (P.attempt pages.old) (P.attempt pages.new) (λ before after. differences before after ≤ 34) }
    ensures numbers { ForBoth (P.attempt pages.old) (P.attempt pages.new) (λ before after. OfStore S.holds (S.location store.now) before (λ _ _. KeepNumbers (P.attempt pages.old) (P.attempt pages.new) before after)) }
    ensures changed { OnOk result (ForBoth (P.attempt pages.old) (P.attempt pages.new) (λ before after. OfStore S.holds (S.location store.now) before (λ had rows.
        Changed S.holds S.spot (P.asked pages.old pages.new) S.reach (S.location store.now) (P.attempt pages.old) (P.attempt pages.new) before after had (with_row (pair_width kind) (turned_row kind value.now entity) rows)))) }
    ensures bad { IfErr result (OfDamage (λ page at. ForEach (P.attempt pages.old) (P.attempt pages.new) (λ array. S.bad (S.location store.now) array page at))) }
{
    let mut bytes = [0; MOST_BYTES];
    let row = &mut bytes[..pair_width(kind)];
    pair_row(value, kind, entity, true, row);
    match store.insert(alloc, pages, row) {
        Ok(_) => Ok(()),
        Err(fault) => Err(fault),
    }
}

/// Puts an entity's value into an index or inverse. Null has no row there.
fn keep<S: Store, P: Pages>(
    alloc: Global,
    store: &S,
    pages: &mut P,
    kind: Kind,
    entity: EntityId,
    value: &Value,
) -> Result<(), PageFault>
    requires turned { IsTurned kind (S.location store.now) }
    requires value { IsOrNull kind value.now }
    requires entity { IsEntity entity }
    ensures follows { P.follows pages.old pages.new }
    ensures met { HandsOn (P.met pages.old) (P.met pages.new) result }
    ensures asked { ForEach (P.attempt pages.old) (P.attempt pages.new) (λ array. P.asked pages.old pages.new (S.reach (S.location store.now) array)
        (λ page. S.reach (S.location store.now) array page || drew_between (P.attempt pages.old) (P.attempt pages.new) page) (17 * rows_for value.now)) }
    ensures kinds { HasPutStores (P.attempt pages.old) → P.asked pages.old pages.new any_page (may_put (P.attempt pages.new)) (17 * rows_for value.now) }
    ensures few { ForBoth (P.attempt pages.old) (P.attempt pages.new) (λ before after. differences before after ≤ 34 * rows_for value.now) }
    ensures numbers { ForBoth (P.attempt pages.old) (P.attempt pages.new) (λ before after. OfStore S.holds (S.location store.now) before (λ _ _. KeepNumbers (P.attempt pages.old) (P.attempt pages.new) before after)) }
    ensures changed { OnOk result (ForBoth (P.attempt pages.old) (P.attempt pages.new) (λ before after. OfStore S.holds (S.location store.now) before (λ had rows.
        Changed S.holds S.spot (P.asked pages.old pages.new) S.reach (S.location store.now) (P.attempt pages.old) (P.attempt pages.new) before after had (with_value kind entity value.now rows)))) }
    ensures bad { IfErr result (OfDamage (λ page at. ForEach (P.attempt pages.old) (P.attempt pages.new) (λ array. S.bad (S.location store.now) array page at))) }
{
    match value {
        Value::Null => Ok(()),
        _ => keep_row(alloc, store, pages, kind, entity, value),
    }
}

/// Notes a change of an entity's value in the store at a place.
fn note_in<S: Store, P: Pages>(
    alloc: Global,
    place: Place,
    pages: &mut P,
    kind: Kind,
    entity: EntityId,
    old: &Value,
    new: &Value,
) -> Result<(), PageFault>
    requires turned { IsTurned kind place }
    requires old { IsOrNull kind old.now }
    requires new { IsOrNull kind new.now }
    requires entity { IsEntity entity }
    ensures follows { P.follows pages.old pages.new }
    ensures met { HandsOn (P.met pages.old) (P.met pages.new) result }
    ensures asked { ForEach (P.attempt pages.old) (P.attempt pages.new) (λ array. OfStore S.holds place array (λ had rows. P.asked pages.old pages.new (S.reach place array)
        (λ page. S.reach place array page || drew_between (P.attempt pages.old) (P.attempt pages.new) page) (17 * rows_for new.now))) }
    ensures kinds { HasPutStores (P.attempt pages.old) → P.asked pages.old pages.new any_page (may_put (P.attempt pages.new)) (17 * rows_for new.now) }
    ensures few { ForBoth (P.attempt pages.old) (P.attempt pages.new) (λ before after. differences before after ≤ 34 * (rows_for old.now + rows_for new.now)) }
    ensures numbers { ForBoth (P.attempt pages.old) (P.attempt pages.new) (λ before after. OfStore S.holds place before (λ _ _. KeepNumbers (P.attempt pages.old) (P.attempt pages.new) before after)) }
    ensures changed { OnOk result (ForBoth (P.attempt pages.old) (P.attempt pages.new) (λ before after. OfStore S.holds place before (λ had rows.
        Changed S.holds S.spot (P.asked pages.old pages.new) S.reach place (P.attempt pages.old) (P.attempt pages.new) before after had (noted kind entity old.now new.now rows)))) }
    ensures bad { IfErr result (OfDamage (λ page at. ForEach (P.attempt pages.old) (P.attempt pages.new) (λ array. OfStore S.holds place array (λ _ _. ⊥)))) }
{
    let store = S::at(place);
    match forget(alloc, &store, pages, kind, entity, old) {
        Ok(()) => keep(alloc, &store, pages, kind, entity, new),
        Err(fault) => Err(fault),
    }
}

/// Notes a change of an entity's value in the store at a place, if there is one.
fn note_at<S: Store, P: Pages>(
    alloc: Global,
    place: Option<Place>,
    pages: &mut P,
    kind: Kind,
    entity: EntityId,
    old: &Value,
    new: &Value,
) -> Result<(), PageFault>
    requires turned { All (IsTurned kind) (one_place place) }
    requires old { IsOrNull kind old.now }
    requires new { IsOrNull kind new.now }
    requires entity { IsEntity entity }
    ensures follows { P.follows pages.old pages.new }
    ensures met { HandsOn (P.met pages.old) (P.met pages.new) result }
    ensures asked { ForEach (P.attempt pages.old) (P.attempt pages.new) (λ array. AllHold S.holds S.reach (one_place place) array →
        P.asked pages.old pages.new (reach_any S.holds S.reach (one_place place) array)
        (λ page. reach_any S.holds S.reach (one_place place) array page || drew_between (P.attempt pages.old) (P.attempt pages.new) page)
        (17 * length (one_place place) * rows_for new.now)) }
    ensures kinds { HasPutStores (P.attempt pages.old) → P.asked pages.old pages.new any_page (may_put (P.attempt pages.new)) (17 * length (one_place place) * rows_for new.now) }
    ensures few { ForBoth (P.attempt pages.old) (P.attempt pages.new) (λ before after. differences before after ≤ 34 * length (one_place place) * (rows_for old.now + rows_for new.now)) }
    ensures numbers { ForBoth (P.attempt pages.old) (P.attempt pages.new) (λ before after. AllHold S.holds S.reach (one_place place) before → KeepNumbers (P.attempt pages.old) (P.attempt pages.new) before after) }
    ensures moved { OnOk result (ForBoth (P.attempt pages.old) (P.attempt pages.new) (λ before after. AllHold S.holds S.reach (one_place place) before →
        Moved S.holds S.reach (one_place place) (noted kind entity old.now new.now) (P.attempt pages.old) (P.attempt pages.new) before after)) }
    ensures bad { IfErr result (OfDamage (λ page at. ForEach (P.attempt pages.old) (P.attempt pages.new) (λ array. AllHold S.holds S.reach (one_place place) array → ⊥))) }
{
    match place {
        Some(place) => note_in::<S, P>(alloc, place, pages, kind, entity, old, new),
        None => Ok(()),
    }
}

/// Notes a change of an entity's value in an index and in an inverse, if there are any.
fn note_both<S: Store, P: Pages>(
    alloc: Global,
    index: Option<Place>,
    inverse: Option<Place>,
    pages: &mut P,
    kind: Kind,
    entity: EntityId,
    old: &Value,
    new: &Value,
) -> Result<(), PageFault>
    requires index { All (IsTurned kind) (one_place index) }
    requires inverse { All (IsTurned kind) (one_place inverse) }
    requires apart { AreApart (one_place index) (one_place inverse) }
    requires old { IsOrNull kind old.now }
    requires new { IsOrNull kind new.now }
    requires entity { IsEntity entity }
    ensures follows { P.follows pages.old pages.new }
    ensures met { HandsOn (P.met pages.old) (P.met pages.new) result }
    ensures asked { ForEach (P.attempt pages.old) (P.attempt pages.new) (λ array. AllHold S.holds S.reach (two_places index inverse) array →
        P.asked pages.old pages.new (reach_any S.holds S.reach (two_places index inverse) array)
        (λ page. reach_any S.holds S.reach (two_places index inverse) array page || drew_between (P.attempt pages.old) (P.attempt pages.new) page)
        (17 * length (two_places index inverse) * rows_for new.now)) }
    ensures kinds { HasPutStores (P.attempt pages.old) → P.asked pages.old pages.new any_page (may_put (P.attempt pages.new)) (17 * length (two_places index inverse) * rows_for new.now) }
    ensures few { ForBoth (P.attempt pages.old) (P.attempt pages.new) (λ before after. differences before after ≤ 34 * length (two_places index inverse) * (rows_for old.now + rows_for new.now)) }
    ensures numbers { ForBoth (P.attempt pages.old) (P.attempt pages.new) (λ before after. AllHold S.holds S.reach (two_places index inverse) before → KeepNumbers (P.attempt pages.old) (P.attempt pages.new) before after) }
    ensures moved { OnOk result (ForBoth (P.attempt pages.old) (P.attempt pages.new) (λ before after. AllHold S.holds S.reach (two_places index inverse) before →
        Moved S.holds S.reach (two_places index inverse) (noted kind entity old.now new.now) (P.attempt pages.old) (P.attempt pages.new) before after)) }
    ensures bad { IfErr result (OfDamage (λ page at. ForEach (P.attempt pages.old) (P.attempt pages.new) (λ array. AllHold S.holds S.reach (two_places index inverse) array → ⊥))) }
{
    match note_at::<S, P>(alloc, index, pages, kind, entity, old, new) {
        Ok(()) => note_at::<S, P>(alloc, inverse, pages, kind, entity, old, new),
        Err(fault) => Err(fault),
    }
}

/// Notes that the value of an attribute of an entity changes: its index and its inverse, where it has them, lose the old value
/// with the entity, and gain the new one. Null has no row there.
///
/// # Errors
/// `BadPage` where a page of them is bad; otherwise what a call of `Pages` answered. The attempt can then only be given up.
pub fn note<S: Store, P: Pages>(
    alloc: Global,
    schema: &Schema,
    places: &Places,
    pages: &mut P,
    attribute: u16,
    entity: EntityId,
    old: &Value,
    new: &Value,
) -> Result<(), PageFault>
    requires of { AreOf schema.now places.now }
    requires fair { All IsPlace places.now }
    requires there { IfSome (numbered schema.now attribute) (λ a. IsOrNull a.kind old.now × IsOrNull a.kind new.now) }
    requires entity { IsEntity entity }
    ensures follows { P.follows pages.old pages.new }
    ensures met { HandsOn (P.met pages.old) (P.met pages.new) result }
    ensures asked { ForEach (P.attempt pages.old) (P.attempt pages.new) (λ array. AllHold S.holds S.reach (turned_places attribute places.now) array →
        P.asked pages.old pages.new (reach_any S.holds S.reach (turned_places attribute places.now) array)
        (λ page. reach_any S.holds S.reach (turned_places attribute places.now) array page || drew_between (P.attempt pages.old) (P.attempt pages.new) page)
        (17 * length (turned_places attribute places.now) * rows_for new.now)) }
    ensures kinds { HasPutStores (P.attempt pages.old) → P.asked pages.old pages.new any_page (may_put (P.attempt pages.new)) (17 * length (turned_places attribute places.now) * rows_for new.now) }
    ensures few { ForBoth (P.attempt pages.old) (P.attempt pages.new) (λ before after. differences before after ≤ 34 * length (turned_places attribute places.now) * (rows_for old.now + rows_for new.now)) }
    ensures numbers { ForBoth (P.attempt pages.old) (P.attempt pages.new) (λ before after. AllHold S.holds S.reach (turned_places attribute places.now) before → KeepNumbers (P.attempt pages.old) (P.attempt pages.new) before after) }
    ensures same { same_value old.now new.now ≡ true → P.asked pages.old pages.new no_page no_page 0 }
    ensures noted { OnOk result (IfSome (numbered schema.now attribute) (λ a. same_value old.now new.now ≡ false → ForBoth (P.attempt pages.old) (P.attempt pages.new) (λ before after.
        AllHold S.holds S.reach (turned_places attribute places.now) before →
        IsNoted S.holds S.reach places.now attribute a.kind entity old.now new.now (P.attempt pages.old) (P.attempt pages.new) before after))) }
    ensures bad { IfErr result (OfDamage (λ page at. ForEach (P.attempt pages.old) (P.attempt pages.new) (λ array. AllHold S.holds S.reach (turned_places attribute places.now) array → ⊥))) }
{
    let Some(found) = schema.attribute(attribute) else {
        return Ok(());
    };
    if is_same(old, new) {
        return Ok(());
    }
    let index = places.find(store(StoreKind::Index, attribute));
    let inverse = places.find(store(StoreKind::Inverse, attribute));
    note_both::<S, P>(alloc, index, inverse, pages, found.kind, entity, old, new)
}
