//! Values more and fewer in sets.
ghost use Rattle.std.specs.Prelude.{◌≡◌, ◌+◌, ◌*◌, ◌∷◌, [], ◌<◌, ◌≤◌, ℕ, true, false, not, is_some, Some, None, IsTrue, IfSome, length};
ghost use Rattle.std.specs.List.{All};
ghost use Rattle.st_catalog.specs.Stores.{AreOf};
ghost use Rattle.st_lattice.specs.declared.attribute.Attribute.{Attribute};
ghost use Rattle.st_lattice.specs.Outline.{attribute as numbered};
ghost use Rattle.st_lattice.specs.Stores.{store};
ghost use Rattle.st_keys.specs.Keys.{Fits, IsEntity};
ghost use Rattle.st_rows.specs.Rows.{pair_width};
ghost use Rattle.st_pages.specs.Attempt.{may_put};
ghost use Rattle.st_pages.specs.Calls.{HandsOn};
ghost use Rattle.st_pages.specs.Places.{place_of};
ghost use Rattle.st_lookups.specs.Looks.{OfState};
ghost use Rattle.st_store.specs.Rows.{row_with, with_row, without_row};
ghost use Rattle.st_store.specs.Stores.{HasPutStores, IsPlace, any_page};
ghost use Rattle.st_database.specs.Database.{with_rows};
ghost use Rattle.st_database.specs.Touches.{Leads, WithStore, added_by, changed_by, removed_by};
ghost use Rattle.st_counts.specs.Counts.{turned_count};
ghost use Rattle.st_standing.specs.Standing.{pair_bytes};
ghost use Rattle.st_state.specs.State.{State, has_value};
ghost use Rattle.st_state.specs.Legal.{can_hold};
ghost use Rattle.st_state.specs.Calls.{Add, Take, Admits};
ghost use Rattle.st_edits.specs.Edits.{Behaves, Edits, PutsStores};
ghost use Rattle.st_edits.specs.Steps.{IsSet, Left, Takes, Turns};

use crate::fault::told;
use st_counts::laws_of_members;
use st_database::{insert_row, laws_of_order, laws_of_places, note_pair, remove_row};
use st_index::fits;
use st_keys::laws_of_keys;
use st_lattice::{Attribute, Schema, StoreKind, store};
use st_page::PageFault;
use st_pages::{Pages, Place, Places};
use st_plain::BaseFault;
use st_rows::{laws_of_rows, pair_row, pair_width};
use st_store::Store;
use st_values::{EntityId, Kind, Value};
use std::alloc::Global;

/// The most bytes that a row of a value and an entity has.
const MOST_BYTES: usize = 262;

/// Whether an entity has a serial.
fn has_serial(entity: EntityId) -> bool
    ensures so { IsTrue result → IsEntity entity }
    ensures all { IsEntity entity → result ≡ true }
{
    entity.serial != 0
}

/// Whether an attribute of a kind may hold a value, as far as the value alone tells.
fn may_hold(value: &Value, kind: Kind) -> bool
    ensures so { IsTrue result → Fits kind value.now }
    ensures all { (s : State) → All IsEntity s.live → can_hold s kind value.now ≡ true → result ≡ true }
{
    fits(value, kind)
}

/// The place of the set of an attribute, by the places of the schema's stores.
fn set_place(schema: &Schema, places: &Places, number: u16, attribute: &Attribute) -> Option<Place>
    requires of { AreOf schema.now places.now }
    requires fair { All IsPlace places.now }
    requires there { numbered schema.now number ≡ Some attribute.now }
    ensures value { result ≡ place_of (store StoreKind.Set number) places.now }
    ensures laid { IfSome result (IsSet number attribute.now) }
{
    let _ = schema;
    let _ = attribute;
    places.find(store(StoreKind::Set, number))
}

/// Puts the row of an entity and a value into the set at a place; whether it was there.
fn put_pair<S: Store, P: Pages>(
    alloc: Global,
    place: Place,
    pages: &mut P,
    kind: Kind,
    entity: EntityId,
    value: &Value,
) -> Result<bool, PageFault>
    requires is { IsPlace place }
    requires wide { place.width ≡ pair_width kind }
    requires fits { Fits kind value.now }
    requires entity { IsEntity entity }
    ensures follows { P.follows pages.old pages.new }
    ensures met { HandsOn (P.met pages.old) (P.met pages.new) result }
    ensures kinds { HasPutStores (P.attempt pages.old) → P.asked pages.old pages.new any_page (may_put (P.attempt pages.new)) 17 }
    ensures leads { WithStore S.holds (P.attempt pages.old) (P.attempt pages.new) place (λ array schema places view.
        Leads S.holds (P.asked pages.old pages.new) (P.attempt pages.old) (P.attempt pages.new) array schema places
        (with_rows place.store (with_row place.key (pair_bytes kind value.now entity) (view.rows place.store)) view) (λ was. was ≡ is_some (row_with place.key (pair_bytes kind value.now entity) (view.rows place.store)))
        (place.store ∷ []) true (17 * added_by place.key (pair_bytes kind value.now entity) (view.rows place.store)) (34 * changed_by place.key (pair_bytes kind value.now entity) (view.rows place.store)) result) }
{
    let mut bytes = [0; MOST_BYTES];
    let row = &mut bytes[..pair_width(kind)];
    pair_row(value, kind, entity, false, row);
    insert_row::<S, P>(alloc, place, pages, row)
}

/// Takes the row of an entity and a value out of the set at a place; whether it was there.
fn drop_pair<S: Store, P: Pages>(
    alloc: Global,
    place: Place,
    pages: &mut P,
    kind: Kind,
    entity: EntityId,
    value: &Value,
) -> Result<bool, PageFault>
    requires is { IsPlace place }
    requires key { place.key ≡ pair_width kind }
    requires fits { Fits kind value.now }
    requires entity { IsEntity entity }
    ensures follows { P.follows pages.old pages.new }
    ensures met { HandsOn (P.met pages.old) (P.met pages.new) result }
    ensures kinds { HasPutStores (P.attempt pages.old) → P.asked pages.old pages.new any_page (may_put (P.attempt pages.new)) 0 }
    ensures leads { WithStore S.holds (P.attempt pages.old) (P.attempt pages.new) place (λ array schema places view.
        Leads S.holds (P.asked pages.old pages.new) (P.attempt pages.old) (P.attempt pages.new) array schema places
        (with_rows place.store (without_row place.key (pair_bytes kind value.now entity) (view.rows place.store)) view) (λ was. was ≡ is_some (row_with place.key (pair_bytes kind value.now entity) (view.rows place.store)))
        (place.store ∷ []) true 0 (34 * removed_by place.key (pair_bytes kind value.now entity) (view.rows place.store)) result) }
{
    let mut bytes = [0; MOST_BYTES];
    let row = &mut bytes[..pair_width(kind)];
    pair_row(value, kind, entity, false, row);
    remove_row::<S, P>(alloc, place, pages, row)
}

/// Puts a value into the set at a place, and notes it in the attribute's index and inverse. Whether it was not there before.
fn add_at<S: Store, P: Pages>(
    alloc: Global,
    schema: &Schema,
    places: &Places,
    pages: &mut P,
    place: Place,
    attribute: &Attribute,
    entity: EntityId,
    number: u16,
    value: &Value,
) -> Result<bool, PageFault>
    requires of { AreOf schema.now places.now }
    requires fair { All IsPlace places.now }
    requires there { numbered schema.now number ≡ Some attribute.now }
    requires set { IsSet number attribute.now place }
    requires at { place_of (store StoreKind.Set number) places.now ≡ Some place }
    requires fits { Fits attribute.now.kind value.now }
    requires entity { IsEntity entity }
    ensures follows { P.follows pages.old pages.new }
    ensures met { HandsOn (P.met pages.old) (P.met pages.new) result }
    ensures kinds { PutsStores (P.attempt pages.old) (P.attempt pages.new) }
    ensures turns { OfState S.holds (P.attempt pages.old) (P.attempt pages.new) schema.now places.now (λ array s. Admits s (Add entity number value.now) →
        Turns (P.asked pages.old pages.new) (P.attempt pages.old) (P.attempt pages.new) array s (Add entity number value.now) (Left S.holds (P.attempt pages.new) array places.now s (Add entity number value.now) (not (has_value s number entity value.now))) result) }
{
    laws_of_keys();
    laws_of_rows();
    laws_of_members();
    laws_of_order();
    laws_of_places();
    match put_pair::<S, P>(alloc, place, pages, attribute.kind, entity, value) {
        Ok(true) => Ok(false),
        Ok(false) => match note_pair::<S, P>(
            alloc,
            schema,
            places,
            pages,
            number,
            entity,
            &Value::Null,
            value,
        ) {
            Ok(()) => Ok(true),
            Err(fault) => Err(fault),
        },
        Err(fault) => Err(fault),
    }
}

/// Takes a value out of the set at a place, and notes it in the attribute's index and inverse. Whether it was there.
fn take_at<S: Store, P: Pages>(
    alloc: Global,
    schema: &Schema,
    places: &Places,
    pages: &mut P,
    place: Place,
    attribute: &Attribute,
    entity: EntityId,
    number: u16,
    value: &Value,
) -> Result<bool, PageFault>
    requires of { AreOf schema.now places.now }
    requires fair { All IsPlace places.now }
    requires there { numbered schema.now number ≡ Some attribute.now }
    requires set { IsSet number attribute.now place }
    requires at { place_of (store StoreKind.Set number) places.now ≡ Some place }
    requires fits { Fits attribute.now.kind value.now }
    requires entity { IsEntity entity }
    ensures follows { P.follows pages.old pages.new }
    ensures met { HandsOn (P.met pages.old) (P.met pages.new) result }
    ensures kinds { PutsStores (P.attempt pages.old) (P.attempt pages.new) }
    ensures takes { OfState S.holds (P.attempt pages.old) (P.attempt pages.new) schema.now places.now (λ array s. Admits s (Take entity number value.now) →
        (most : ℕ) → (has_value s number entity value.now ≡ true → 1 + turned_count attribute.now ≤ most) →
        Takes S.holds (P.asked pages.old pages.new) (P.attempt pages.old) (P.attempt pages.new) array places.now s entity number value.now most result) }
{
    laws_of_keys();
    laws_of_rows();
    laws_of_order();
    laws_of_places();
    match drop_pair::<S, P>(alloc, place, pages, attribute.kind, entity, value) {
        Ok(false) => Ok(false),
        Ok(true) => match note_pair::<S, P>(
            alloc,
            schema,
            places,
            pages,
            number,
            entity,
            value,
            &Value::Null,
        ) {
            Ok(()) => Ok(true),
            Err(fault) => Err(fault),
        },
        Err(fault) => Err(fault),
    }
}

/// Puts a value into the set of an attribute of an entity, where the entity and the value are such as can be stored.
fn add_there<S: Store, P: Pages>(
    alloc: Global,
    schema: &Schema,
    places: &Places,
    pages: &mut P,
    entity: EntityId,
    number: u16,
    value: &Value,
) -> Result<bool, PageFault>
    requires of { AreOf schema.now places.now }
    requires fair { All IsPlace places.now }
    ensures follows { P.follows pages.old pages.new }
    ensures met { HandsOn (P.met pages.old) (P.met pages.new) result }
    ensures kinds { PutsStores (P.attempt pages.old) (P.attempt pages.new) }
    ensures turns { OfState S.holds (P.attempt pages.old) (P.attempt pages.new) schema.now places.now (λ array s. Admits s (Add entity number value.now) →
        Turns (P.asked pages.old pages.new) (P.attempt pages.old) (P.attempt pages.new) array s (Add entity number value.now) (Left S.holds (P.attempt pages.new) array places.now s (Add entity number value.now) (not (has_value s number entity value.now))) result) }
{
    let Some(attribute) = schema.attribute(number) else {
        return Ok(false);
    };
    let Some(place) = set_place(schema, places, number, attribute) else {
        return Ok(false);
    };
    if !has_serial(entity) {
        return Ok(false);
    }
    if !may_hold(value, attribute.kind) {
        return Ok(false);
    }
    add_at::<S, P>(
        alloc, schema, places, pages, place, attribute, entity, number, value,
    )
}

/// Puts a value into the set of an attribute of an entity. Whether it was not there before.
///
/// It leaves the state `member_added` of the one that it is given: the same where the value was there.
///
/// # Errors
/// `Refused` by the rules 12 and 13 where pages refuse; otherwise what a call of `Pages` answered, and `Memory`. Behind a fault
/// of pages the attempt can only be given up.
pub fn add_member<S: Store, P: Pages>(
    alloc: Global,
    schema: &Schema,
    places: &Places,
    pages: &mut P,
    entity: EntityId,
    number: u16,
    value: &Value,
) -> Result<bool, BaseFault>
    requires of { AreOf schema.now places.now }
    requires fair { All IsPlace places.now }
    ensures behaves { Behaves (P.follows pages.old pages.new) (P.met pages.old) (P.met pages.new) (Add entity number value.now) result }
    ensures kinds { PutsStores (P.attempt pages.old) (P.attempt pages.new) }
    ensures edits { OfState S.holds (P.attempt pages.old) (P.attempt pages.new) schema.now places.now (λ array s. Admits s (Add entity number value.now) →
        Edits S.holds (P.asked pages.old pages.new) (P.attempt pages.old) (P.attempt pages.new) array places.now s (Add entity number value.now) (λ changed. changed ≡ not (has_value s number entity value.now)) result) }
{
    match add_there::<S, P>(alloc, schema, places, pages, entity, number, value) {
        Ok(changed) => Ok(changed),
        Err(fault) => Err(told(fault)),
    }
}

/// Takes a value out of the set of an attribute of an entity, as a step of a greater change. Whether it was there.
///
/// It leaves the state `member_taken` of the one that it is given: the same where the value was not there. Nothing is done
/// where the entity or the value is none that can be stored.
///
/// # Errors
/// What a call of `Pages` answered, and `Memory`. The attempt can then only be given up.
pub fn drop_member<S: Store, P: Pages>(
    alloc: Global,
    schema: &Schema,
    places: &Places,
    pages: &mut P,
    entity: EntityId,
    number: u16,
    value: &Value,
) -> Result<bool, PageFault>
    requires of { AreOf schema.now places.now }
    requires fair { All IsPlace places.now }
    ensures follows { P.follows pages.old pages.new }
    ensures met { HandsOn (P.met pages.old) (P.met pages.new) result }
    ensures kinds { PutsStores (P.attempt pages.old) (P.attempt pages.new) }
    ensures takes { OfState S.holds (P.attempt pages.old) (P.attempt pages.new) schema.now places.now (λ array s. Admits s (Take entity number value.now) →
        (most : ℕ) → ((a : Attribute) → numbered s.schema number ≡ Some a → has_value s number entity value.now ≡ true → 1 + turned_count a ≤ most) →
        Takes S.holds (P.asked pages.old pages.new) (P.attempt pages.old) (P.attempt pages.new) array places.now s entity number value.now most result) }
{
    let Some(attribute) = schema.attribute(number) else {
        return Ok(false);
    };
    let Some(place) = set_place(schema, places, number, attribute) else {
        return Ok(false);
    };
    if !has_serial(entity) {
        return Ok(false);
    }
    if !may_hold(value, attribute.kind) {
        return Ok(false);
    }
    take_at::<S, P>(
        alloc, schema, places, pages, place, attribute, entity, number, value,
    )
}

/// Takes a value out of the set of an attribute of an entity. Whether it was there.
///
/// It leaves the state `member_taken` of the one that it is given: the same where the value was not there.
///
/// # Errors
/// `Refused` by the rules 12 and 13 where pages refuse; otherwise what a call of `Pages` answered, and `Memory`. Behind a fault
/// of pages the attempt can only be given up.
pub fn take_member<S: Store, P: Pages>(
    alloc: Global,
    schema: &Schema,
    places: &Places,
    pages: &mut P,
    entity: EntityId,
    number: u16,
    value: &Value,
) -> Result<bool, BaseFault>
    requires of { AreOf schema.now places.now }
    requires fair { All IsPlace places.now }
    ensures behaves { Behaves (P.follows pages.old pages.new) (P.met pages.old) (P.met pages.new) (Take entity number value.now) result }
    ensures kinds { PutsStores (P.attempt pages.old) (P.attempt pages.new) }
    ensures edits { OfState S.holds (P.attempt pages.old) (P.attempt pages.new) schema.now places.now (λ array s. Admits s (Take entity number value.now) →
        Edits S.holds (P.asked pages.old pages.new) (P.attempt pages.old) (P.attempt pages.new) array places.now s (Take entity number value.now) (λ changed. changed ≡ has_value s number entity value.now) result) }
{
    laws_of_members();
    match drop_member::<S, P>(alloc, schema, places, pages, entity, number, value) {
        Ok(changed) => Ok(changed),
        Err(fault) => Err(told(fault)),
    }
}
