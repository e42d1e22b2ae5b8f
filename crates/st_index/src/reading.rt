//! Which entities have a value, by an index or inverse.
ghost use Rattle.std.specs.Prelude.{◌≡◌, ◌⊎◌, ℕ, suc, ◌+◌, ◌*◌, ◌<◌, ◌≤◌, List, length, true, FitsSigned, IsUtf8, MatchOption, IfSome, IsSome, IsTrue, IfOk, IfErr, OnOk};
ghost use Rattle.std.specs.Int.{w64};
ghost use Rattle.std.specs.List.{All};
ghost use Rattle.st_pages.specs.declared.places.Place.{Place};
ghost use Rattle.st_state.specs.State.{Pair};
ghost use Rattle.st_lattice.specs.Outline.{attribute as numbered};
ghost use Rattle.st_catalog.specs.Stores.{AreOf};
ghost use Rattle.st_pages.specs.Calls.{Met, HandsOn, is_of_looking, no_page};
ghost use Rattle.st_pages.specs.Reading.{ForEach, OfDamage};
ghost use Rattle.st_keys.specs.Keys.{Fits, IsEntity};
ghost use Rattle.st_rows.specs.Rows.{pair_width as row_width};
ghost use Rattle.st_store.specs.Rows.{rows_from};
ghost use Rattle.st_store.specs.Stores.{IsPlace, OfStore, Fits as CursorFits};
ghost use Rattle.st_index.specs.Turned.{IsLike, turned_row, found_place, AreOfPairs, entities_with};
ghost use Rattle.st_index.specs.Change.{IsTurned};
ghost use Rattle.st_index.specs.Found.{least_entity, front_with, IsPairOf, IsBadBehind, IsNext};
ghost use Rattle.st_index.specs.Bad.{AreNamed, HasBadPair, IsNamed, IsNamedRow};

use crate::pair::pair_in;
use crate::turned::found_place;
use st_lattice::{Attribute, Schema};
use st_page::PageFault;
use st_pages::{Pages, Place, Places};
use st_rows::{RowFault, laws_of_rows, pair_row, pair_width};
use st_store::{Cursor, Store};
use st_values::{Entities, EntityId, Kind, Value, is_same};
use std::alloc::Global;

/// The most bytes that a row of a value and an entity has.
const MOST_BYTES: usize = 262;

/// An integer fits, whatever it is.
fn is_integer(number: i64) -> bool
    ensures told { result ≡ true }
    ensures fits { FitsSigned w64 number }
{
    let _ = number;
    true
}

/// Whether a text is no longer than a limit.
fn is_short(text: &str, limit: u8) -> bool
    ensures so { IsTrue result → (length text.now ≤ limit) × IsUtf8 text.now }
    ensures all { length text.now ≤ limit → IsTrue result }
{
    text.len() <= limit as usize
}

/// Whether an entity has a serial.
fn has_serial(entity: EntityId) -> bool
    ensures so { IsTrue result → IsEntity entity }
    ensures all { IsEntity entity → IsTrue result }
{
    entity.serial != 0
}

/// Whether a value has a kind, and is not too long for it. What the program's types say of integers and texts holds in any case.
pub fn fits(value: &Value, kind: Kind) -> bool
    ensures so { IsTrue result → Fits kind value.now }
    ensures all { Fits kind value.now → IsTrue result }
    ensures like { IsLike kind value.now → IsTrue result }
{
    match (kind, value) {
        (Kind::Int, Value::Int(number)) => is_integer(*number),
        (Kind::Bool, Value::Bool(_)) => true,
        (Kind::Text(limit), Value::Text(text)) => is_short(text.as_str(), limit),
        (Kind::Entity(_), Value::Entity(entity)) => has_serial(*entity),
        _ => false,
    }
}

/// A cursor in front of the first row whose value isn't below a value: the least row that the value can have is sought.
fn seek_value<S: Store, P: Pages>(
    alloc: Global,
    store: &S,
    pages: &mut P,
    kind: Kind,
    value: &Value,
) -> Result<Cursor, PageFault>
    requires turned { IsTurned kind (S.location store.now) }
    requires value { Fits kind value.now }
    ensures follows { P.follows pages.old pages.new }
    ensures written { (P.attempt pages.new).written ≡ (P.attempt pages.old).written }
    ensures met { HandsOn (P.met pages.old) (P.met pages.new) result }
    ensures looks { IfErr result (λ fault. IsTrue (is_of_looking fault)) }
    ensures asked { ForEach (P.attempt pages.old) (P.attempt pages.new) (λ array. P.asked pages.old pages.new (S.reach (S.location store.now) array) no_page 0) }
    ensures fits { IfOk result (λ cursor. CursorFits (S.location store.now) cursor) }
    ensures sits { IfOk result (λ cursor. ForEach (P.attempt pages.old) (P.attempt pages.new) (λ array. S.sits (S.location store.now) array cursor)) }
    ensures ahead { IfOk result (λ cursor. ForEach (P.attempt pages.old) (P.attempt pages.new) (λ array. OfStore S.holds (S.location store.now) array (λ _ rows.
        S.ahead (S.location store.now) array cursor (rows_from (S.location store.now).key (turned_row kind value.now least_entity) rows)))) }
    ensures bad { IfErr result (OfDamage (λ page at. ForEach (P.attempt pages.old) (P.attempt pages.new) (λ array. S.bad (S.location store.now) array page at))) }
{
    let mut bytes = [0; MOST_BYTES];
    let least = &mut bytes[..pair_width(kind)];
    pair_row(value, kind, EntityId { ty: 0, serial: 1 }, true, least);
    store.seek(alloc, pages, least)
}

/// The place in its page of a byte of the row that a cursor passed last.
fn place_behind(cursor: &Cursor, width: usize, offset: u16) -> u16
    requires passed { (index : ℕ) × (cursor.now.index ≡ suc index) × (index * width + width ≤ 4080) }
    requires offset { offset < width }
    ensures { (index : ℕ) → cursor.now.index ≡ suc index → result ≡ 16 + index * width + offset }
{
    (16 + (cursor.index as usize - 1) * width) as u16 + offset
}

/// The entity of the row that a cursor passed last, where it has a value.
fn entity_with(
    alloc: Global,
    schema: &Schema,
    attribute: &Attribute,
    cursor: &Cursor,
    row: &[u8],
    value: &Value,
) -> Result<Option<EntityId>, PageFault>
    requires row { length row.now ≡ row_width attribute.now.kind }
    requires passed { (index : ℕ) × (cursor.now.index ≡ suc index) × (index * row_width attribute.now.kind + row_width attribute.now.kind ≤ 4080) }
    ensures pair { IfOk result (λ next. IsPairOf attribute.now.kind value.now row.now next) }
    ensures met { (old new : Met) → HandsOn old new result }
    ensures looks { IfErr result (λ fault. IsTrue (is_of_looking fault)) }
    ensures bad { IfErr result (OfDamage (λ page at. (page ≡ cursor.now.number) × IsBadBehind schema.now attribute.now cursor.now row.now at)) }
    ensures sound { IfErr result (OfDamage (λ page at. IsNamedRow schema.now attribute.now row.now → ⊥)) }
{
    laws_of_rows();
    match pair_in(alloc, schema, attribute, row) {
        Ok((other, entity)) => {
            if is_same(&other, value) {
                Ok(Some(entity))
            } else {
                Ok(None)
            }
        }
        Err(RowFault::BadRow { place }) => Err(PageFault::BadPage {
            page: cursor.number,
            place: place_behind(cursor, pair_width(attribute.kind), place),
        }),
        Err(RowFault::Memory) => Err(PageFault::Memory),
    }
}

/// Goes on by a row, and answers its entity, where it has a value.
fn next_with<S: Store, P: Pages>(
    alloc: Global,
    schema: &Schema,
    attribute: &Attribute,
    store: &S,
    pages: &mut P,
    cursor: &mut Cursor,
    value: &Value,
) -> Result<Option<EntityId>, PageFault>
    requires turned { IsTurned attribute.now.kind (S.location store.now) }
    requires fits { CursorFits (S.location store.now) cursor.old }
    ensures follows { P.follows pages.old pages.new }
    ensures written { (P.attempt pages.new).written ≡ (P.attempt pages.old).written }
    ensures met { HandsOn (P.met pages.old) (P.met pages.new) result }
    ensures looks { IfErr result (λ fault. IsTrue (is_of_looking fault)) }
    ensures asked { ForEach (P.attempt pages.old) (P.attempt pages.new) (λ array. S.sits (S.location store.now) array cursor.old →
        P.asked pages.old pages.new (S.reach (S.location store.now) array) no_page 0) }
    ensures fits { CursorFits (S.location store.now) cursor.new }
    ensures sits { OnOk result (ForEach (P.attempt pages.old) (P.attempt pages.new) (λ array. S.sits (S.location store.now) array cursor.old → S.sits (S.location store.now) array cursor.new)) }
    ensures next { IfOk result (λ next. ForEach (P.attempt pages.old) (P.attempt pages.new) (λ array. (rest : List (List ℕ)) → S.ahead (S.location store.now) array cursor.old rest →
        (pairs : List Pair) → AreOfPairs attribute.now.kind rest pairs → IsNext (S.ahead (S.location store.now) array cursor.new) attribute.now.kind value.now pairs next)) }
    ensures fewer { IfOk result (λ next. IsSome next → S.left (S.location store.now) cursor.new < S.left (S.location store.now) cursor.old) }
    ensures bad { IfErr result (OfDamage (λ page at. ForEach (P.attempt pages.old) (P.attempt pages.new) (λ array. S.sits (S.location store.now) array cursor.old →
        S.bad (S.location store.now) array page at ⊎ HasBadPair schema.now attribute.now (S.location store.now) S.reach array page at))) }
    ensures named { IfOk result (λ next. IsSome next → ForEach (P.attempt pages.old) (P.attempt pages.new) (λ array. (rest : List (List ℕ)) → S.ahead (S.location store.now) array cursor.old rest →
        AreNamed schema.now attribute.now rest → (others : List (List ℕ)) × S.ahead (S.location store.now) array cursor.new others × AreNamed schema.now attribute.now others)) }
    ensures sound { IfErr result (OfDamage (λ page at. ForEach (P.attempt pages.old) (P.attempt pages.new) (λ array. (rest : List (List ℕ)) → S.ahead (S.location store.now) array cursor.old rest →
        AreNamed schema.now attribute.now rest → S.bad (S.location store.now) array page at))) }
{
    laws_of_rows();
    let mut bytes = [0; MOST_BYTES];
    let row = &mut bytes[..pair_width(attribute.kind)];
    match store.advance(alloc, pages, cursor, row) {
        Ok(true) => entity_with(alloc, schema, attribute, cursor, row, value),
        Ok(false) => Ok(None),
        Err(fault) => Err(fault),
    }
}

/// The entities of the rows ahead of a cursor that have a value, up to the first one that has another value.
fn gather<S: Store, P: Pages>(
    alloc: Global,
    schema: &Schema,
    attribute: &Attribute,
    store: &S,
    pages: &mut P,
    mut cursor: Cursor,
    value: &Value,
) -> Result<Entities, PageFault>
    requires turned { IsTurned attribute.now.kind (S.location store.now) }
    requires fits { CursorFits (S.location store.now) cursor }
    ensures follows { P.follows pages.old pages.new }
    ensures written { (P.attempt pages.new).written ≡ (P.attempt pages.old).written }
    ensures met { HandsOn (P.met pages.old) (P.met pages.new) result }
    ensures looks { IfErr result (λ fault. IsTrue (is_of_looking fault)) }
    ensures asked { ForEach (P.attempt pages.old) (P.attempt pages.new) (λ array. S.sits (S.location store.now) array cursor →
        P.asked pages.old pages.new (S.reach (S.location store.now) array) no_page 0) }
    ensures found { IfOk result (λ entities. ForEach (P.attempt pages.old) (P.attempt pages.new) (λ array. (rest : List (List ℕ)) → S.ahead (S.location store.now) array cursor rest →
        (pairs : List Pair) → AreOfPairs attribute.now.kind rest pairs → entities ≡ front_with value.now pairs)) }
    ensures bad { IfErr result (OfDamage (λ page at. ForEach (P.attempt pages.old) (P.attempt pages.new) (λ array. S.sits (S.location store.now) array cursor →
        S.bad (S.location store.now) array page at ⊎ HasBadPair schema.now attribute.now (S.location store.now) S.reach array page at))) }
    ensures sound { IfErr result (OfDamage (λ page at. ForEach (P.attempt pages.old) (P.attempt pages.new) (λ array. (rest : List (List ℕ)) → S.ahead (S.location store.now) array cursor rest →
        AreNamed schema.now attribute.now rest → S.bad (S.location store.now) array page at))) }
{
    let mut found = Entities::new(alloc);
    loop {
        match next_with(alloc, schema, attribute, store, pages, &mut cursor, value) {
            Ok(Some(entity)) => {
                if found.push(entity).is_err() {
                    return Err(PageFault::Memory);
                }
            }
            Ok(None) => return Ok(found),
            Err(fault) => return Err(fault),
        }
    }
}

/// The entities that have a value, by the index or inverse at a place.
fn look<S: Store, P: Pages>(
    alloc: Global,
    schema: &Schema,
    attribute: &Attribute,
    place: Place,
    pages: &mut P,
    value: &Value,
) -> Result<Entities, PageFault>
    requires turned { IsTurned attribute.now.kind place }
    requires value { Fits attribute.now.kind value.now }
    ensures follows { P.follows pages.old pages.new }
    ensures written { (P.attempt pages.new).written ≡ (P.attempt pages.old).written }
    ensures met { HandsOn (P.met pages.old) (P.met pages.new) result }
    ensures looks { IfErr result (λ fault. IsTrue (is_of_looking fault)) }
    ensures asked { ForEach (P.attempt pages.old) (P.attempt pages.new) (λ array. P.asked pages.old pages.new (S.reach place array) no_page 0) }
    ensures found { IfOk result (λ entities. ForEach (P.attempt pages.old) (P.attempt pages.new) (λ array. OfStore S.holds place array (λ _ rows.
        (pairs : List Pair) → AreOfPairs attribute.now.kind rows pairs → entities ≡ entities_with value.now pairs))) }
    ensures bad { IfErr result (OfDamage (λ page at. ForEach (P.attempt pages.old) (P.attempt pages.new) (λ array.
        S.bad place array page at ⊎ HasBadPair schema.now attribute.now place S.reach array page at))) }
    ensures sound { IfErr result (OfDamage (λ page at. ForEach (P.attempt pages.old) (P.attempt pages.new) (λ array. OfStore S.holds place array (λ _ rows. AreNamed schema.now attribute.now rows → ⊥)))) }
{
    laws_of_rows();
    let store = S::at(place);
    match seek_value(alloc, &store, pages, attribute.kind, value) {
        Ok(cursor) => gather(alloc, schema, attribute, &store, pages, cursor, value),
        Err(fault) => Err(fault),
    }
}

/// The entities whose attribute has a value, in their order. A value that has no row, such as null or a text that is too long,
/// has none, and so has any value where the attribute keeps neither an inverse nor an index.
///
/// # Errors
/// `BadPage` where a page of the store is bad, or a row on the way is none of the attribute's, or names an entity whose type
/// isn't that of the attribute's owner, or of its values, and never where the store has the rows of pairs that name entities
/// of the right types; otherwise what a call of `get` answered.
pub fn lookup<S: Store, P: Pages>(
    alloc: Global,
    schema: &Schema,
    places: &Places,
    pages: &mut P,
    attribute: u16,
    value: &Value,
) -> Result<Entities, PageFault>
    requires of { AreOf schema.now places.now }
    requires fair { All IsPlace places.now }
    ensures follows { P.follows pages.old pages.new }
    ensures written { (P.attempt pages.new).written ≡ (P.attempt pages.old).written }
    ensures met { HandsOn (P.met pages.old) (P.met pages.new) result }
    ensures looks { IfErr result (λ fault. IsTrue (is_of_looking fault)) }
    ensures asked { ForEach (P.attempt pages.old) (P.attempt pages.new) (λ array.
        MatchOption (found_place attribute places.now) (P.asked pages.old pages.new no_page no_page 0) (λ place. P.asked pages.old pages.new (S.reach place array) no_page 0)) }
    ensures found { IfOk result (λ entities. ForEach (P.attempt pages.old) (P.attempt pages.new) (λ array.
        IfSome (numbered schema.now attribute) (λ a. IfSome (found_place attribute places.now) (λ place. OfStore S.holds place array (λ _ rows.
        (pairs : List Pair) → AreOfPairs a.kind rows pairs → entities ≡ entities_with value.now pairs))))) }
    ensures bad { IfErr result (OfDamage (λ page at. ForEach (P.attempt pages.old) (P.attempt pages.new) (λ array.
        IfSome (numbered schema.now attribute) (λ a. IfSome (found_place attribute places.now) (λ place.
        S.bad place array page at ⊎ HasBadPair schema.now a place S.reach array page at))))) }
    ensures sound { IfErr result (OfDamage (λ page at. ForEach (P.attempt pages.old) (P.attempt pages.new) (λ array.
        IfSome (numbered schema.now attribute) (λ a. IfSome (found_place attribute places.now) (λ place. OfStore S.holds place array (λ _ rows.
        (pairs : List Pair) → AreOfPairs a.kind rows pairs → All (IsNamed schema.now a) pairs → ⊥)))))) }
{
    let Some(described) = schema.attribute(attribute) else {
        return Ok(Entities::new(alloc));
    };
    let Some(place) = found_place(places, attribute) else {
        return Ok(Entities::new(alloc));
    };
    if !fits(value, described.kind) {
        return Ok(Entities::new(alloc));
    }
    look::<S, P>(alloc, schema, described, place, pages, value)
}
