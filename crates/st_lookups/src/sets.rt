//! The rows of sets: the values in the set of an entity.
ghost use Rattle.std.specs.Prelude.{List, ◌≡◌, ◌∷◌, ◌++◌, [], if◌then◌else◌, length, replicate, IfOk, IfErr, IfSome, OnOk, Some, None};
ghost use Rattle.std.specs.List.{All};
ghost use Rattle.st_lattice.specs.Outline.{attribute as numbered};
ghost use Rattle.st_lattice.specs.Stores.{store};
ghost use Rattle.st_pages.specs.declared.places.Place.{Place};
ghost use Rattle.st_pages.specs.Places.{place_of};
ghost use Rattle.st_keys.specs.Keys.{Fits, IsEntity, entity_key, width};
ghost use Rattle.st_rows.specs.declared.fault.RowFault.TheVariants as row_fault;
ghost use Rattle.st_rows.specs.Rows.{pair_width as row_width};
ghost use Rattle.st_values.specs.Order.{same_entity};
ghost use Rattle.st_state.specs.State.{values_at};
ghost use Rattle.st_state.specs.Calls.{HasSet};
ghost use Rattle.st_store.specs.Stores.{IsPlace};
ghost use Rattle.st_catalog.specs.Stores.{AreOf};
ghost use Rattle.st_index.specs.Change.{IsTurned};
ghost use Rattle.st_standing.specs.Standing.{pair_bytes};
ghost use Rattle.st_lookups.specs.Looks.{Peeks, Finds, OfState, IsMember};

use crate::walks::{Visit, walk};
use st_index::is_of_kind;
use st_keys::laws_of_keys;
use st_lattice::{Attribute, Schema, StoreKind, store};
use st_page::PageFault;
use st_pages::{Pages, Place, Places};
use st_rows::{RowFault, laws_of_rows, pair_width, read_pair};
use st_store::Store;
use st_values::{EntityId, Kind, Value, Values, is_same_entity};
use std::alloc::Global;

/// The most bytes that a row of an entity and a value has.
const MOST_BYTES: usize = 262;

/// The value and the entity in a row of a set, or the place of the row at which it is none.
pub(crate) fn member_in(
    alloc: Global,
    schema: &Schema,
    attribute: &Attribute,
    row: &[u8],
) -> Result<(Value, EntityId), RowFault>
    requires { length row.now ≡ row_width attribute.now.kind }
    ensures value { IfOk result (λ pair. Fits attribute.now.kind pair.0) }
    ensures entity { IfOk result (λ pair. IsEntity pair.1) }
    ensures row { IfOk result (λ pair. pair_bytes attribute.now.kind pair.0 pair.1 ≡ row.now) }
    ensures refused { IfErr result (λ fault. IsMember schema.now attribute.now row.now → fault ≡ row_fault.Memory) }
{
    laws_of_rows();
    match read_pair(alloc, row, attribute.kind, false) {
        Ok((value, entity)) => {
            if !schema.isa(entity.ty, attribute.owner) {
                return Err(RowFault::BadRow { place: 0 });
            }
            if !is_of_kind(schema, attribute.kind, &value) {
                return Err(RowFault::BadRow { place: 6 });
            }
            Ok((value, entity))
        }
        Err(fault) => Err(fault),
    }
}

/// The values in the rows of an entity.
#[derive(Drop)]
struct Owned<'a> {
    schema: &'a Schema,
    attribute: &'a Attribute,
    entity: EntityId,
    values: Values,
}

impl Owned<'_> {
    /// Keeps a value of an entity, where that is the one whose values are wanted.
    fn keep(&mut self, value: Value, entity: EntityId) -> Result<bool, RowFault>
        ensures schema { self.new.schema ≡ self.old.schema }
        ensures attribute { self.new.attribute ≡ self.old.attribute }
        ensures entity { self.new.entity ≡ self.old.entity }
        ensures more { IfOk result (λ more. more ≡ same_entity entity self.old.entity) }
        ensures values { OnOk result (self.new.values ≡ self.old.values ++ (if same_entity entity self.old.entity then value ∷ [] else [])) }
        ensures memory { IfErr result (λ fault. fault ≡ row_fault.Memory) }
    {
        if is_same_entity(entity, self.entity) {
            match self.values.push(value) {
                Ok(()) => Ok(true),
                Err(_) => Err(RowFault::Memory),
            }
        } else {
            Ok(false)
        }
    }
}

impl Visit for Owned<'_> {
    ghost use Rattle.std.specs.Prelude.{List, ℕ, ◌≡◌, ◌++◌};
    ghost use Rattle.st_state.specs.State.{Pair};
    ghost use Rattle.st_values.specs.Order.{same_entity};
    ghost use Rattle.st_rows.specs.Rows.{pair_width};
    ghost use Rattle.st_lookups.specs.Looks.{AreMembers, IsMember, first_entity, values_with};

    ghost wide = { λ members width. width ≡ pair_width members.attribute.now.kind };

    ghost sound = { λ members row. IsMember members.schema.now members.attribute.now row };

    ghost goes = { λ members row. same_entity (first_entity row) members.entity };

    ghost told = { λ before after rows. (after.attribute.now ≡ before.attribute.now) × (after.entity ≡ before.entity)
        × ((pairs : List Pair) × AreMembers before.attribute.now.kind rows pairs × (after.values ≡ before.values ++ values_with before.entity pairs)) };

    fn take(&mut self, alloc: Global, row: &[u8]) -> Result<bool, RowFault> {
        match member_in(alloc, self.schema, self.attribute, row) {
            Ok((value, entity)) => self.keep(value, entity),
            Err(fault) => Err(fault),
        }
    }
}

/// The place of the set of an attribute.
pub(crate) fn set_place(schema: &Schema, places: &Places, attribute: &Attribute) -> Option<Place>
    requires of { AreOf schema.now places.now }
    requires fair { All IsPlace places.now }
    requires there { numbered schema.now attribute.now.number ≡ Some attribute.now }
    ensures value { result ≡ place_of (store StoreKind.Set attribute.now.number) places.now }
    ensures laid { IfSome result (λ place. (place.store ≡ store StoreKind.Set attribute.now.number) × IsTurned attribute.now.kind place) }
{
    let _ = schema;
    places.find(store(StoreKind::Set, attribute.number))
}

/// The bytes of an entity, as the row of a set begins with them.
fn front_of(entity: EntityId) -> [u8; 6]
    ensures { result ≡ entity_key entity }
{
    let [a, b] = entity.ty.to_be_bytes();
    let [c, d, e, f] = entity.serial.to_be_bytes();
    [a, b, c, d, e, f]
}

/// Puts the bytes of an entity in front of zeros: the least row that the entity can have with a value of a kind.
fn put_front(kind: Kind, entity: EntityId, into: &mut [u8])
    requires long { length into.old ≡ row_width kind }
    requires zeros { into.old ≡ replicate (length into.old) 0 }
    ensures { into.new ≡ entity_key entity ++ replicate (width kind) 0 }
{
    let _ = kind;
    into[..6].copy_from_slice(&front_of(entity));
}

/// The values of an entity in the set at a place.
fn members_at<S: Store, P: Pages>(
    alloc: Global,
    schema: &Schema,
    attribute: &Attribute,
    place: Place,
    pages: &mut P,
    entity: EntityId,
) -> Result<Values, PageFault>
    requires laid { (place.store ≡ store StoreKind.Set attribute.now.number) × IsTurned attribute.now.kind place }
    requires there { numbered schema.now attribute.now.number ≡ Some attribute.now }
    ensures keeps { Peeks (P.follows pages.old pages.new) (P.attempt pages.old) (P.attempt pages.new) (P.met pages.old) (P.met pages.new) result }
    ensures finds { (places : List Place) → place_of (store StoreKind.Set attribute.now.number) places ≡ Some place →
        OfState S.holds (P.attempt pages.old) (P.attempt pages.new) schema.now places (λ array s. HasSet s entity attribute.now.number → Finds (P.asked pages.old pages.new) (P.attempt pages.old) (P.attempt pages.new) array
        (λ values. values ≡ values_at attribute.now.number entity s.triples) (store StoreKind.Set attribute.now.number ∷ []) result) }
{
    laws_of_keys();
    laws_of_rows();
    let mut bytes = [0; MOST_BYTES];
    let from = &mut bytes[..pair_width(attribute.kind)];
    put_front(attribute.kind, entity, from);
    let mut members = Owned {
        schema,
        attribute,
        entity,
        values: Values::new(alloc),
    };
    match walk::<S, P, Owned>(alloc, place, pages, from, &mut members) {
        Ok(()) => Ok(members.values),
        Err(fault) => Err(fault),
    }
}

/// The values in the set of an attribute of an entity, in order; none where the attribute isn't there, or has no sets.
///
/// # Errors
/// `BadPage` where a page or a row is bad; otherwise what a call of `Pages` answered, and `Memory`.
pub fn members<S: Store, P: Pages>(
    alloc: Global,
    schema: &Schema,
    places: &Places,
    pages: &mut P,
    entity: EntityId,
    number: u16,
) -> Result<Values, PageFault>
    requires of { AreOf schema.now places.now }
    requires fair { All IsPlace places.now }
    ensures keeps { Peeks (P.follows pages.old pages.new) (P.attempt pages.old) (P.attempt pages.new) (P.met pages.old) (P.met pages.new) result }
    ensures finds { OfState S.holds (P.attempt pages.old) (P.attempt pages.new) schema.now places.now (λ array s. HasSet s entity number → Finds (P.asked pages.old pages.new) (P.attempt pages.old) (P.attempt pages.new) array
        (λ values. values ≡ values_at number entity s.triples) (store StoreKind.Set number ∷ []) result) }
{
    let Some(attribute) = schema.attribute(number) else {
        return Ok(Values::new(alloc));
    };
    let Some(place) = set_place(schema, places, attribute) else {
        return Ok(Values::new(alloc));
    };
    members_at::<S, P>(alloc, schema, attribute, place, pages, entity)
}
