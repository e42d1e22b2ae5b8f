//! The entities that have a value, by the rows of its attribute.
ghost use Rattle.std.specs.Prelude.{List, ◌≡◌, ◌∷◌, ◌++◌, [], true, false, if◌then◌else◌, IfOk, IfErr, OnOk, Some, ◌<◌, ◌==◌, ◌&&◌, filter, length, position};
ghost use Rattle.std.specs.List.{All};
ghost use Rattle.st_lattice.specs.Outline.{attribute as numbered};
ghost use Rattle.st_lattice.specs.Lattice.{attributes_in, isa};
ghost use Rattle.st_lattice.specs.Stores.{cell, extents, store};
ghost use Rattle.st_pages.specs.declared.places.Place.{Place};
ghost use Rattle.st_pages.specs.Places.{place_of};
ghost use Rattle.st_rows.specs.declared.fault.RowFault.TheVariants as row_fault;
ghost use Rattle.st_values.specs.Order.{same_value};
ghost use Rattle.st_state.specs.State.{turned, value_at};
ghost use Rattle.st_state.specs.Calls.{CanHold};
ghost use Rattle.st_state.specs.Rows.{entity_row};
ghost use Rattle.st_store.specs.Stores.{IsPlace};
ghost use Rattle.st_catalog.specs.Stores.{AreOf};
ghost use Rattle.st_index.specs.Change.{IsTurned};
ghost use Rattle.st_lookups.specs.Looks.{Peeks, Finds, OfState, is_cell, value_among};

use crate::extent::{cell_index, cells_in, extent_of, serial_key};
use crate::sets::{member_in, set_place};
use crate::walks::{Visit, walk};
use st_database::laws_of_places;
use st_keys::laws_of_keys;
use st_lattice::{Attribute, Schema, StoreKind, store};
use st_page::PageFault;
use st_pages::{Pages, Place, Places};
use st_rows::{RowFault, laws_of_rows, pair_width};
use st_store::Store;
use st_values::{Entities, EntityId, Value, is_same};
use std::alloc::Global;

/// The most bytes that a row of an entity and a value has.
const MOST_BYTES: usize = 262;

/// The entities in whose rows a value stands.
#[derive(Drop)]
struct Having<'a> {
    schema: &'a Schema,
    attribute: &'a Attribute,
    value: &'a Value,
    entities: Entities,
}

impl Having<'_> {
    /// Keeps an entity of a value, where that is the one that is looked for.
    fn keep(&mut self, value: &Value, entity: EntityId) -> Result<bool, RowFault>
        ensures schema { self.new.schema ≡ self.old.schema }
        ensures attribute { self.new.attribute ≡ self.old.attribute }
        ensures value { self.new.value ≡ self.old.value }
        ensures more { IfOk result (λ more. more ≡ true) }
        ensures entities { OnOk result (self.new.entities ≡ self.old.entities ++ (if same_value value.now self.old.value.now then entity ∷ [] else [])) }
        ensures memory { IfErr result (λ fault. fault ≡ row_fault.Memory) }
    {
        if is_same(value, self.value) {
            match self.entities.push(entity) {
                Ok(()) => Ok(true),
                Err(_) => Err(RowFault::Memory),
            }
        } else {
            Ok(true)
        }
    }
}

impl Visit for Having<'_> {
    ghost use Rattle.std.specs.Prelude.{List, ℕ, ◌≡◌, ◌++◌, true};
    ghost use Rattle.st_state.specs.State.{Pair};
    ghost use Rattle.st_index.specs.Turned.{entities_with};
    ghost use Rattle.st_rows.specs.Rows.{pair_width};
    ghost use Rattle.st_lookups.specs.Looks.{AreMembers, IsMember};

    ghost wide = { λ having width. width ≡ pair_width having.attribute.now.kind };

    ghost sound = { λ having row. IsMember having.schema.now having.attribute.now row };

    ghost goes = { λ having row. true };

    ghost told = { λ before after rows. (after.attribute.now ≡ before.attribute.now) × (after.value.now ≡ before.value.now)
        × ((pairs : List Pair) × AreMembers before.attribute.now.kind rows pairs × (after.entities ≡ before.entities ++ entities_with before.value.now pairs)) };

    fn take(&mut self, alloc: Global, row: &[u8]) -> Result<bool, RowFault> {
        match member_in(alloc, self.schema, self.attribute, row) {
            Ok((value, entity)) => self.keep(&value, entity),
            Err(fault) => Err(fault),
        }
    }
}

/// The entities that have a value in the set at a place.
fn holders_at<S: Store, P: Pages>(
    alloc: Global,
    schema: &Schema,
    attribute: &Attribute,
    place: Place,
    pages: &mut P,
    value: &Value,
) -> Result<Entities, PageFault>
    requires laid { (place.store ≡ store StoreKind.Set attribute.now.number) × IsTurned attribute.now.kind place }
    requires there { numbered schema.now attribute.now.number ≡ Some attribute.now }
    ensures keeps { Peeks (P.follows pages.old pages.new) (P.attempt pages.old) (P.attempt pages.new) (P.met pages.old) (P.met pages.new) result }
    ensures finds { (places : List Place) → place_of (store StoreKind.Set attribute.now.number) places ≡ Some place →
        OfState S.holds (P.attempt pages.old) (P.attempt pages.new) schema.now places (λ array s. Finds (P.asked pages.old pages.new) (P.attempt pages.old) (P.attempt pages.new) array
        (λ entities. entities ≡ turned attribute.now.number value.now s.triples) (store StoreKind.Set attribute.now.number ∷ []) result) }
{
    laws_of_keys();
    laws_of_rows();
    let mut having = Having {
        schema,
        attribute,
        value,
        entities: Entities::new(alloc),
    };
    let bytes = [0; MOST_BYTES];
    let from = &bytes[..pair_width(attribute.kind)];
    match walk::<S, P, Having>(alloc, place, pages, from, &mut having) {
        Ok(()) => Ok(having.entities),
        Err(fault) => Err(fault),
    }
}

/// The entities that have a value in the set of an attribute, in order, by going over all its rows.
pub(crate) fn set_holders<S: Store, P: Pages>(
    alloc: Global,
    schema: &Schema,
    places: &Places,
    pages: &mut P,
    attribute: &Attribute,
    value: &Value,
) -> Result<Entities, PageFault>
    requires of { AreOf schema.now places.now }
    requires fair { All IsPlace places.now }
    requires there { numbered schema.now attribute.now.number ≡ Some attribute.now }
    ensures keeps { Peeks (P.follows pages.old pages.new) (P.attempt pages.old) (P.attempt pages.new) (P.met pages.old) (P.met pages.new) result }
    ensures finds { attribute.now.many ≡ true → OfState S.holds (P.attempt pages.old) (P.attempt pages.new) schema.now places.now (λ array s. Finds (P.asked pages.old pages.new) (P.attempt pages.old) (P.attempt pages.new) array
        (λ entities. entities ≡ turned attribute.now.number value.now s.triples) (store StoreKind.Set attribute.now.number ∷ []) result) }
{
    let Some(place) = set_place(schema, places, attribute) else {
        return Ok(Entities::new(alloc));
    };
    holders_at::<S, P>(alloc, schema, attribute, place, pages, value)
}

/// Whether a value stands at an index among the cells of a row; null stands where there is no cell.
fn has_cell(cells: &[Value], index: Option<usize>, value: &Value) -> bool
    ensures { result ≡ same_value (value_among index cells.now) value.now }
{
    let Some(at) = index else {
        return is_same(&Value::Null, value);
    };
    if at < cells.len() {
        is_same(&cells[at], value)
    } else {
        is_same(&Value::Null, value)
    }
}

/// The entities of a type in whose rows a value stands at an index of the cells.
#[derive(Drop)]
struct Celled<'a> {
    schema: &'a Schema,
    ty: u16,
    index: Option<usize>,
    value: &'a Value,
    entities: Entities,
}

impl Celled<'_> {
    /// Keeps the entity with a serial, where the value that is looked for stands in its cells.
    fn keep(&mut self, serial: u32, cells: &[Value]) -> Result<bool, RowFault>
        ensures schema { self.new.schema ≡ self.old.schema }
        ensures ty { self.new.ty ≡ self.old.ty }
        ensures index { self.new.index ≡ self.old.index }
        ensures value { self.new.value ≡ self.old.value }
        ensures more { IfOk result (λ more. more ≡ true) }
        ensures entities { OnOk result (self.new.entities ≡ self.old.entities ++ (if same_value (value_among self.old.index cells.now) self.old.value.now then record { ty = self.old.ty; serial = serial } ∷ [] else [])) }
        ensures memory { IfErr result (λ fault. fault ≡ row_fault.Memory) }
    {
        if has_cell(cells, self.index, self.value) {
            let entity = EntityId {
                ty: self.ty,
                serial,
            };
            match self.entities.push(entity) {
                Ok(()) => Ok(true),
                Err(_) => Err(RowFault::Memory),
            }
        } else {
            Ok(true)
        }
    }
}

impl Visit for Celled<'_> {
    ghost use Rattle.std.specs.Prelude.{List, ℕ, ◌≡◌, ◌≤◌, ◌<◌, ◌++◌, true, length};
    ghost use Rattle.st_lattice.specs.Stores.{row_width};
    ghost use Rattle.st_lookups.specs.Looks.{AreCells, Cells, IsSoundRow, entities_having};

    ghost wide = { λ celled width. (width ≡ row_width celled.schema.now celled.ty) × (row_width celled.schema.now celled.ty ≤ 1000) × (celled.ty < length celled.schema.now.names) };

    ghost sound = { λ celled row. IsSoundRow celled.schema.now celled.ty row };

    ghost goes = { λ celled row. true };

    ghost told = { λ before after rows. (after.schema.now ≡ before.schema.now) × (after.ty ≡ before.ty) × (after.index ≡ before.index) × (after.value.now ≡ before.value.now)
        × ((read : List Cells) × AreCells before.schema.now before.ty rows read × (after.entities ≡ before.entities ++ entities_having before.ty before.index before.value.now read)) };

    fn take(&mut self, alloc: Global, row: &[u8]) -> Result<bool, RowFault> {
        match cells_in(alloc, self.schema, self.ty, row) {
            Ok((serial, cells)) => self.keep(serial, cells.as_slice()),
            Err(fault) => Err(fault),
        }
    }
}

/// Adds the entities of exactly one type in whose rows the cell of an attribute has a value, in order.
fn having_exact<S: Store, P: Pages>(
    alloc: Global,
    schema: &Schema,
    places: &Places,
    pages: &mut P,
    ty: u16,
    number: u16,
    value: &Value,
    entities: Entities,
) -> Result<Entities, PageFault>
    requires of { AreOf schema.now places.now }
    requires fair { All IsPlace places.now }
    ensures keeps { Peeks (P.follows pages.old pages.new) (P.attempt pages.old) (P.attempt pages.new) (P.met pages.old) (P.met pages.new) result }
    ensures finds { OfState S.holds (P.attempt pages.old) (P.attempt pages.new) schema.now places.now (λ array s. Finds (P.asked pages.old pages.new) (P.attempt pages.old) (P.attempt pages.new) array
        (λ more. more ≡ entities ++ filter (λ e. same_value (value_among (position (λ a. a.number == number) (filter is_cell (attributes_in s.schema ty))) (entity_row s e).cells) value.now) (filter (λ e. e.ty == ty) s.live))
        (store StoreKind.Extent ty ∷ []) result) }
{
    laws_of_keys();
    laws_of_rows();
    let Some(place) = extent_of(schema, places, ty) else {
        return Ok(entities);
    };
    let index = cell_index(schema, ty, number);
    let mut celled = Celled {
        schema,
        ty,
        index,
        value,
        entities,
    };
    match walk::<S, P, Celled>(alloc, place, pages, &serial_key(0), &mut celled) {
        Ok(()) => Ok(celled.entities),
        Err(fault) => Err(fault),
    }
}

/// Adds the entities of exactly one type whose attribute has a value, in order, where the type has the attribute.
fn having_of<S: Store, P: Pages>(
    alloc: Global,
    schema: &Schema,
    places: &Places,
    pages: &mut P,
    attribute: &Attribute,
    other: u16,
    value: &Value,
    entities: Entities,
) -> Result<Entities, PageFault>
    requires of { AreOf schema.now places.now }
    requires fair { All IsPlace places.now }
    requires known { other < length schema.now.names }
    ensures keeps { Peeks (P.follows pages.old pages.new) (P.attempt pages.old) (P.attempt pages.new) (P.met pages.old) (P.met pages.new) result }
    ensures finds { OfState S.holds (P.attempt pages.old) (P.attempt pages.new) schema.now places.now (λ array s. numbered s.schema attribute.now.number ≡ Some attribute.now → attribute.now.many ≡ false →
        Finds (P.asked pages.old pages.new) (P.attempt pages.old) (P.attempt pages.new) array
        (λ more. more ≡ entities ++ filter (λ e. (e.ty == other) && (isa s.schema e.ty attribute.now.owner && same_value (value_at attribute.now.number e s.triples) value.now)) s.live)
        (extents schema.now attribute.now.owner) result) }
{
    laws_of_places();
    if schema.isa(other, attribute.owner) {
        having_exact::<S, P>(
            alloc,
            schema,
            places,
            pages,
            other,
            attribute.number,
            value,
            entities,
        )
    } else {
        Ok(entities)
    }
}

/// The entities whose attribute has a value, in order, by going over the rows of all types that have the attribute.
pub(crate) fn cell_holders<S: Store, P: Pages>(
    alloc: Global,
    schema: &Schema,
    places: &Places,
    pages: &mut P,
    attribute: &Attribute,
    value: &Value,
) -> Result<Entities, PageFault>
    requires of { AreOf schema.now places.now }
    requires fair { All IsPlace places.now }
    ensures keeps { Peeks (P.follows pages.old pages.new) (P.attempt pages.old) (P.attempt pages.new) (P.met pages.old) (P.met pages.new) result }
    ensures finds { OfState S.holds (P.attempt pages.old) (P.attempt pages.new) schema.now places.now (λ array s. numbered s.schema attribute.now.number ≡ Some attribute.now → attribute.now.many ≡ false → CanHold s attribute.now.number value.now →
        Finds (P.asked pages.old pages.new) (P.attempt pages.old) (P.attempt pages.new) array
        (λ entities. entities ≡ turned attribute.now.number value.now s.triples) (extents schema.now attribute.now.owner) result) }
{
    let mut entities = Entities::new(alloc);
    for other in 0..schema.type_count() {
        match having_of::<S, P>(
            alloc, schema, places, pages, attribute, other, value, entities,
        ) {
            Ok(more) => entities = more,
            Err(fault) => return Err(fault),
        }
    }
    Ok(entities)
}

/// The entities that have a value, in order, by the rows where the values of the attribute stand.
pub(crate) fn row_holders<S: Store, P: Pages>(
    alloc: Global,
    schema: &Schema,
    places: &Places,
    pages: &mut P,
    attribute: &Attribute,
    value: &Value,
) -> Result<Entities, PageFault>
    requires of { AreOf schema.now places.now }
    requires fair { All IsPlace places.now }
    requires there { numbered schema.now attribute.now.number ≡ Some attribute.now }
    ensures keeps { Peeks (P.follows pages.old pages.new) (P.attempt pages.old) (P.attempt pages.new) (P.met pages.old) (P.met pages.new) result }
    ensures finds { OfState S.holds (P.attempt pages.old) (P.attempt pages.new) schema.now places.now (λ array s. CanHold s attribute.now.number value.now →
        Finds (P.asked pages.old pages.new) (P.attempt pages.old) (P.attempt pages.new) array
        (λ entities. entities ≡ turned attribute.now.number value.now s.triples) (cell schema.now attribute.now) result) }
{
    if attribute.many {
        set_holders::<S, P>(alloc, schema, places, pages, attribute, value)
    } else {
        cell_holders::<S, P>(alloc, schema, places, pages, attribute, value)
    }
}
