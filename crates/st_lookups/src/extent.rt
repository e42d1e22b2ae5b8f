//! The rows of entities: whether an entity is live, its cells, and the entities of a type.
ghost use Rattle.std.specs.Prelude.{◌≡◌, ◌≢◌, ◌<◌, ◌≤◌, ◌∷◌, ◌++◌, [], ℕ, ⊤, Bool, pos, position, filter, length, map, take, replicate, IfOk, IfErr, IfSome, IsSome, IsTrue, OnOk, Some, None, true, ◌==◌, ◌&&◌};
ghost use Rattle.std.specs.Int.{w32, to_be_bytes, from_be_bytes};
ghost use Rattle.std.specs.List.{All};
ghost use Rattle.st_lattice.specs.Lattice.{attributes_in, isa};
ghost use Rattle.st_lattice.specs.Stores.{extents, row_width, store};
ghost use Rattle.st_pages.specs.declared.places.Place.{Place};
ghost use Rattle.st_pages.specs.Attempt.{over};
ghost use Rattle.st_pages.specs.Places.{place_of};
ghost use Rattle.st_page.specs.declared.fault.PageFault.TheVariants as page_fault;
ghost use Rattle.st_rows.specs.declared.fault.RowFault.TheVariants as row_fault;
ghost use Rattle.st_rows.specs.Rows.{AreHeld, cell_fields, row, row_fields};
ghost use Rattle.st_index.specs.Bad.{is_of_kind};
ghost use Rattle.st_state.specs.State.{is_live, entities_of, value_at};
ghost use Rattle.st_state.specs.Calls.{HasSingle};
ghost use Rattle.st_store.specs.Stores.{IsPlace, Found};
ghost use Rattle.st_catalog.specs.Stores.{AreOf};
ghost use Rattle.st_database.specs.Touches.{WithStore};
ghost use Rattle.st_lookups.specs.Looks.{Peeks, Finds, OfState, AreCellsIn, IsExtent, IsSoundRow, are_named, cells_of, is_cell, value_among};

use crate::walks::{MOST_BYTES, Visit, walk};
use st_database::{find_row, laws_of_places};
use st_index::is_of_kind;
use st_keys::laws_of_keys;
use st_lattice::{Attribute, Schema, StoreKind, store};
use st_page::PageFault;
use st_pages::{Pages, Place, Places};
use st_rows::{Field, RowFault, field_width, laws_of_rows, read_field, read_row};
use st_store::Store;
use st_text::Duplicate;
use st_values::{Entities, EntityId, Kind, Value, Values};
use std::alloc::Global;

/// The place of a type's extent.
fn extent_place(places: &Places, ty: u16) -> Option<Place>
    ensures { result ≡ place_of (store StoreKind.Extent ty) places.now }
{
    places.find(store(StoreKind::Extent, ty))
}

/// The place of the extent of a type, by the places of the schema's stores; none where the type is not there.
pub fn extent_of(schema: &Schema, places: &Places, ty: u16) -> Option<Place>
    requires of { AreOf schema.now places.now }
    requires fair { All IsPlace places.now }
    ensures value { result ≡ place_of (store StoreKind.Extent ty) places.now }
    ensures laid { IfSome result (IsExtent schema.now ty) }
    ensures none { result ≡ None → length schema.now.names ≤ ty }
{
    let _ = schema;
    extent_place(places, ty)
}

/// Whether an attribute's values are cells of rows.
pub fn is_cell(attribute: &Attribute) -> bool
    ensures { result ≡ is_cell attribute.now }
{
    !attribute.many && !attribute.column
}

/// A serial as the key of a row.
pub fn serial_key(serial: u32) -> [u8; 4]
    ensures { result ≡ to_be_bytes w32 serial }
{
    serial.to_be_bytes()
}

/// Looks for the row of an entity with a serial, and copies it.
fn find_entity<S: Store, P: Pages>(
    alloc: Global,
    place: Place,
    pages: &mut P,
    serial: u32,
    row: &mut [u8],
) -> Result<bool, PageFault>
    requires place { IsPlace place }
    requires key { place.key ≡ 4 }
    requires row { length row.old ≡ place.width }
    ensures keeps { Peeks (P.follows pages.old pages.new) (P.attempt pages.old) (P.attempt pages.new) (P.met pages.old) (P.met pages.new) result }
    ensures finds { WithStore S.holds (P.attempt pages.old) (P.attempt pages.new) place (λ array schema places view.
        Finds (P.asked pages.old pages.new) (P.attempt pages.old) (P.attempt pages.new) array
        (λ found. Found 4 (to_be_bytes w32 serial) (view.rows place.store) found row.new) (place.store ∷ []) result) }
    ensures seen { OnOk result (WithStore S.holds (P.attempt pages.old) (P.attempt pages.new) place (λ array schema places view.
        (page : ℕ) × S.spot place (over (P.attempt pages.old) array) (to_be_bytes w32 serial) page × IsSome ((P.attempt pages.new).seen page))) }
{
    find_row::<S, P>(alloc, place, pages, &serial_key(serial), row)
}

/// Whether an entity is live; false where its type is not there.
///
/// # Errors
/// `BadPage` where a page is bad; otherwise what a call of `Pages` answered.
pub fn is_live<S: Store, P: Pages>(
    alloc: Global,
    schema: &Schema,
    places: &Places,
    pages: &mut P,
    entity: EntityId,
) -> Result<bool, PageFault>
    requires of { AreOf schema.now places.now }
    requires fair { All IsPlace places.now }
    ensures keeps { Peeks (P.follows pages.old pages.new) (P.attempt pages.old) (P.attempt pages.new) (P.met pages.old) (P.met pages.new) result }
    ensures finds { OfState S.holds (P.attempt pages.old) (P.attempt pages.new) schema.now places.now (λ array s. Finds (P.asked pages.old pages.new) (P.attempt pages.old) (P.attempt pages.new) array
        (λ live. live ≡ is_live s entity) (store StoreKind.Extent entity.ty ∷ []) result) }
{
    laws_of_keys();
    laws_of_rows();
    let Some(place) = extent_of(schema, places, entity.ty) else {
        return Ok(false);
    };
    let mut bytes = [0; MOST_BYTES];
    let row = &mut bytes[..place.width as usize];
    find_entity::<S, P>(alloc, place, pages, entity.serial, row)
}

/// The entities of rows of a type.
#[derive(Drop)]
struct Serials {
    ty: u16,
    entities: Entities,
}

impl Visit for Serials {
    ghost use Rattle.std.specs.Prelude.{ℕ, ◌≡◌, ◌≢◌, ◌≤◌, ◌++◌, true, map, take, replicate};
    ghost use Rattle.st_lookups.specs.Looks.{entity_in};

    ghost wide = { λ serials width. 4 ≤ width };

    ghost sound = { λ serials row. take 4 row ≢ replicate 4 0 };

    ghost goes = { λ serials row. true };

    ghost told = { λ before after rows. (after.ty ≡ before.ty) × (after.entities ≡ before.entities ++ map (entity_in before.ty) rows) };

    fn take(&mut self, alloc: Global, row: &[u8]) -> Result<bool, RowFault> {
        match read_field(alloc, Field::Serial, &row[..4]) {
            Ok(Value::Int(serial)) => {
                let entity = EntityId {
                    ty: self.ty,
                    serial: serial as u32,
                };
                match self.entities.push(entity) {
                    Ok(()) => Ok(true),
                    Err(_) => Err(RowFault::Memory),
                }
            }
            Ok(_) => Ok(true),
            Err(fault) => Err(fault),
        }
    }
}

/// Adds the live entities of exactly one type, in order.
fn push_exact<S: Store, P: Pages>(
    alloc: Global,
    schema: &Schema,
    places: &Places,
    pages: &mut P,
    ty: u16,
    serials: &mut Serials,
) -> Result<(), PageFault>
    requires of { AreOf schema.now places.now }
    requires fair { All IsPlace places.now }
    ensures keeps { Peeks (P.follows pages.old pages.new) (P.attempt pages.old) (P.attempt pages.new) (P.met pages.old) (P.met pages.new) result }
    ensures finds { OfState S.holds (P.attempt pages.old) (P.attempt pages.new) schema.now places.now (λ array s. Finds (P.asked pages.old pages.new) (P.attempt pages.old) (P.attempt pages.new) array
        (λ _. serials.new.entities ≡ serials.old.entities ++ filter (λ e. e.ty == ty) s.live) (store StoreKind.Extent ty ∷ []) result) }
{
    laws_of_keys();
    laws_of_rows();
    let Some(place) = extent_of(schema, places, ty) else {
        return Ok(());
    };
    serials.ty = ty;
    walk::<S, P, Serials>(alloc, place, pages, &serial_key(0), serials)
}

/// Adds the live entities of exactly one type, where that is another one or descends from it.
fn push_of<S: Store, P: Pages>(
    alloc: Global,
    schema: &Schema,
    places: &Places,
    pages: &mut P,
    ty: u16,
    other: u16,
    serials: &mut Serials,
) -> Result<(), PageFault>
    requires of { AreOf schema.now places.now }
    requires fair { All IsPlace places.now }
    requires known { other < length schema.now.names }
    ensures keeps { Peeks (P.follows pages.old pages.new) (P.attempt pages.old) (P.attempt pages.new) (P.met pages.old) (P.met pages.new) result }
    ensures finds { OfState S.holds (P.attempt pages.old) (P.attempt pages.new) schema.now places.now (λ array s. Finds (P.asked pages.old pages.new) (P.attempt pages.old) (P.attempt pages.new) array
        (λ _. serials.new.entities ≡ serials.old.entities ++ filter (λ e. (e.ty == other) && isa s.schema other ty) s.live) (extents schema.now ty) result) }
{
    if schema.isa(other, ty) {
        push_exact::<S, P>(alloc, schema, places, pages, other, serials)
    } else {
        Ok(())
    }
}

/// The live entities of a type, descendants included, in order.
///
/// # Errors
/// `BadPage` where a page or a row is bad; otherwise what a call of `Pages` answered.
pub fn list<S: Store, P: Pages>(
    alloc: Global,
    schema: &Schema,
    places: &Places,
    pages: &mut P,
    ty: u16,
) -> Result<Entities, PageFault>
    requires of { AreOf schema.now places.now }
    requires fair { All IsPlace places.now }
    ensures keeps { Peeks (P.follows pages.old pages.new) (P.attempt pages.old) (P.attempt pages.new) (P.met pages.old) (P.met pages.new) result }
    ensures finds { OfState S.holds (P.attempt pages.old) (P.attempt pages.new) schema.now places.now (λ array s. Finds (P.asked pages.old pages.new) (P.attempt pages.old) (P.attempt pages.new) array
        (λ entities. entities ≡ entities_of s ty) (extents schema.now ty) result) }
{
    let mut serials = Serials {
        ty,
        entities: Entities::new(alloc),
    };
    for other in 0..schema.type_count() {
        match push_of::<S, P>(alloc, schema, places, pages, ty, other, &mut serials) {
            Ok(()) => {}
            Err(fault) => return Err(fault),
        }
    }
    Ok(serials.entities)
}

/// Whether an attribute is one of a type whose values are cells of rows.
fn is_cell_of(schema: &Schema, ty: u16, attribute: &Attribute) -> bool
    ensures { result ≡ (isa schema.now ty attribute.now.owner && is_cell attribute.now) }
{
    schema.isa(ty, attribute.owner) && is_cell(attribute)
}

/// The index of an attribute among the cells of a type's rows.
pub fn cell_index(schema: &Schema, ty: u16, number: u16) -> Option<usize>
    ensures { result ≡ position (λ a. a.number == number) (filter is_cell (attributes_in schema.now ty)) }
{
    let attributes = schema.attributes();
    let mut index = 0;
    for attribute in attributes {
        if is_cell_of(schema, ty, attribute) {
            if attribute.number == number {
                return Some(index);
            }
            index += 1;
        }
    }
    None
}

/// The place in a row of a type of the first entity whose type isn't of its attribute's.
fn misnamed(schema: &Schema, ty: u16, cells: &[Value]) -> Option<u16>
    ensures { are_named schema.now (filter is_cell (attributes_in schema.now ty)) cells.now ≡ true → result ≡ None }
{
    let attributes = schema.attributes();
    let mut rest = cells;
    let mut place: u16 = 4;
    for attribute in attributes {
        if is_cell_of(schema, ty, attribute) {
            let [cell, others @ ..] = rest else {
                return None;
            };
            if !is_of_kind(schema, attribute.kind, cell) {
                return Some(place.saturating_add(1));
            }
            rest = others;
            place = place.saturating_add(field_width(Field::Cell(attribute.kind)) as u16);
        }
    }
    None
}

/// The serial and the cells in a row of a type.
pub fn cells_in(
    alloc: Global,
    schema: &Schema,
    ty: u16,
    bytes: &[u8],
) -> Result<(u32, Values), RowFault>
    requires known { ty < length schema.now.names }
    requires width { length bytes.now ≡ row_width schema.now ty }
    requires narrow { row_width schema.now ty ≤ 1000 }
    ensures held { IfOk result (λ read. AreHeld (row_fields schema.now ty) (Value.Int (pos read.0) ∷ read.1)) }
    ensures bytes { IfOk result (λ read. row (row_fields schema.now ty) (Value.Int (pos read.0) ∷ read.1) ≡ bytes.now) }
    ensures refused { IfErr result (λ fault. IsSoundRow schema.now ty bytes.now → fault ≡ row_fault.Memory) }
{
    laws_of_rows();
    match read_row(alloc, schema, ty, bytes) {
        Ok((serial, cells)) => match misnamed(schema, ty, cells.as_slice()) {
            Some(place) => Err(RowFault::BadRow { place }),
            None => Ok((serial, cells)),
        },
        Err(fault) => Err(fault),
    }
}

/// Takes one row, and no more, as one whose bytes are refused.
#[derive(Drop)]
struct Refused {
    place: u16,
}

impl Visit for Refused {
    ghost use Rattle.std.specs.Prelude.{true, ⊤};

    ghost wide = { λ refused width. ⊤ };

    ghost sound = { λ refused row. ⊥ };

    ghost goes = { λ refused row. true };

    ghost told = { λ before after rows. ⊤ };

    fn take(&mut self, _alloc: Global, _row: &[u8]) -> Result<bool, RowFault> {
        Err(RowFault::BadRow { place: self.place })
    }
}

/// The fault of a row that was found, with its page.
fn row_fault<S: Store, P: Pages>(
    alloc: Global,
    place: Place,
    pages: &mut P,
    key: &[u8],
    fault: RowFault,
) -> PageFault
    requires place { IsPlace place }
    requires key { length key.now ≡ place.key }
    ensures keeps { Peeks {A = Bool} (P.follows pages.old pages.new) (P.attempt pages.old) (P.attempt pages.new) (P.met pages.old) (P.met pages.new) (Err result) }
    ensures memory { fault ≡ row_fault.Memory → (result ≡ page_fault.Memory) × (pages.new ≡ pages.old) }
{
    match fault {
        RowFault::Memory => PageFault::Memory,
        RowFault::BadRow { place: at } => {
            match walk::<S, P, Refused>(alloc, place, pages, key, &mut Refused { place: at }) {
                Ok(()) => PageFault::Memory,
                Err(fault) => fault,
            }
        }
    }
}

/// The cells in the row of an entity, if there is one.
fn row_cells<S: Store, P: Pages>(
    alloc: Global,
    schema: &Schema,
    place: Place,
    pages: &mut P,
    entity: EntityId,
) -> Result<Option<Values>, PageFault>
    requires { IsExtent schema.now entity.ty place }
    ensures keeps { Peeks (P.follows pages.old pages.new) (P.attempt pages.old) (P.attempt pages.new) (P.met pages.old) (P.met pages.new) result }
    ensures held { IfOk result (λ found. IfSome found (AreHeld (cell_fields schema.now entity.ty))) }
    ensures finds { WithStore S.holds (P.attempt pages.old) (P.attempt pages.new) place (λ array outline places view. All (IsSoundRow schema.now entity.ty) (view.rows place.store) →
        Finds (P.asked pages.old pages.new) (P.attempt pages.old) (P.attempt pages.new) array
        (λ cells. AreCellsIn schema.now entity.ty entity.serial (view.rows place.store) cells) (place.store ∷ []) result) }
    ensures seen { OnOk result (WithStore S.holds (P.attempt pages.old) (P.attempt pages.new) place (λ array outline places view.
        (page : ℕ) × S.spot place (over (P.attempt pages.old) array) (to_be_bytes w32 entity.serial) page × IsSome ((P.attempt pages.new).seen page))) }
{
    let mut bytes = [0; MOST_BYTES];
    let row = &mut bytes[..place.width as usize];
    match find_entity::<S, P>(alloc, place, pages, entity.serial, row) {
        Ok(true) => match cells_in(alloc, schema, entity.ty, row) {
            Ok((_, cells)) => Ok(Some(cells)),
            Err(fault) => Err(row_fault::<S, P>(
                alloc,
                place,
                pages,
                &serial_key(entity.serial),
                fault,
            )),
        },
        Ok(false) => Ok(None),
        Err(fault) => Err(fault),
    }
}

/// The cells in the row of an entity, if it is live.
///
/// # Errors
/// `BadPage` where a page or the row is bad; otherwise what a call of `Pages` answered.
pub fn cells_at<S: Store, P: Pages>(
    alloc: Global,
    schema: &Schema,
    places: &Places,
    pages: &mut P,
    entity: EntityId,
) -> Result<Option<Values>, PageFault>
    requires of { AreOf schema.now places.now }
    requires fair { All IsPlace places.now }
    ensures keeps { Peeks (P.follows pages.old pages.new) (P.attempt pages.old) (P.attempt pages.new) (P.met pages.old) (P.met pages.new) result }
    ensures held { IfOk result (λ found. IfSome found (AreHeld (cell_fields schema.now entity.ty))) }
    ensures finds { OfState S.holds (P.attempt pages.old) (P.attempt pages.new) schema.now places.now (λ array s. Finds (P.asked pages.old pages.new) (P.attempt pages.old) (P.attempt pages.new) array
        (λ cells. cells ≡ cells_of s entity) (store StoreKind.Extent entity.ty ∷ []) result) }
    ensures seen { OnOk result (OfState S.holds (P.attempt pages.old) (P.attempt pages.new) schema.now places.now (λ array s. (place : Place) → place_of (store StoreKind.Extent entity.ty) places.now ≡ Some place →
        (page : ℕ) × S.spot place (over (P.attempt pages.old) array) (to_be_bytes w32 entity.serial) page × IsSome ((P.attempt pages.new).seen page))) }
{
    laws_of_keys();
    laws_of_rows();
    match extent_of(schema, places, entity.ty) {
        Some(place) => row_cells::<S, P>(alloc, schema, place, pages, entity),
        None => Ok(None),
    }
}

/// The value of an attribute among the cells of a row, null where it has none.
fn cell_value(
    alloc: Global,
    schema: &Schema,
    ty: u16,
    number: u16,
    cells: &[Value],
) -> Result<Value, PageFault>
    ensures value { IfOk result (λ value. value ≡ value_among (position (λ a. a.number == number) (filter is_cell (attributes_in schema.now ty))) cells.now) }
    ensures memory { IfErr result (λ fault. fault ≡ page_fault.Memory) }
{
    let Some(index) = cell_index(schema, ty, number) else {
        return Ok(Value::Null);
    };
    if index >= cells.len() {
        return Ok(Value::Null);
    }
    match cells[index].copy(alloc) {
        Ok(value) => Ok(value),
        Err(_) => Err(PageFault::Memory),
    }
}

/// The value of a single-valued attribute of an entity.
///
/// # Errors
/// `BadPage` where a page or the row is bad; otherwise what a call of `Pages` answered, and `Memory`.
pub fn value_of<S: Store, P: Pages>(
    alloc: Global,
    schema: &Schema,
    places: &Places,
    pages: &mut P,
    entity: EntityId,
    number: u16,
) -> Result<Value, PageFault>
    requires of { AreOf schema.now places.now }
    requires fair { All IsPlace places.now }
    ensures keeps { Peeks (P.follows pages.old pages.new) (P.attempt pages.old) (P.attempt pages.new) (P.met pages.old) (P.met pages.new) result }
    ensures finds { OfState S.holds (P.attempt pages.old) (P.attempt pages.new) schema.now places.now (λ array s. HasSingle s entity number → Finds (P.asked pages.old pages.new) (P.attempt pages.old) (P.attempt pages.new) array
        (λ value. value ≡ value_at number entity s.triples) (store StoreKind.Extent entity.ty ∷ []) result) }
    ensures seen { OnOk result (OfState S.holds (P.attempt pages.old) (P.attempt pages.new) schema.now places.now (λ array s. (place : Place) → place_of (store StoreKind.Extent entity.ty) places.now ≡ Some place →
        (page : ℕ) × S.spot place (over (P.attempt pages.old) array) (to_be_bytes w32 entity.serial) page × IsSome ((P.attempt pages.new).seen page))) }
{
    laws_of_places();
    match cells_at::<S, P>(alloc, schema, places, pages, entity) {
        Ok(Some(cells)) => cell_value(alloc, schema, entity.ty, number, cells.as_slice()),
        Ok(None) => Ok(Value::Null),
        Err(fault) => Err(fault),
    }
}
