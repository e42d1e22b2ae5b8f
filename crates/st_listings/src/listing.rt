//! The live entities of a type, each with the values in the cells of its row.
ghost use Rattle.std.specs.Prelude.{◌≡◌, ◌∷◌, ◌++◌, [], true, IfOk, IfErr, OnOk, ◌<◌, ◌==◌, ◌&&◌, filter, length};
ghost use Rattle.std.specs.List.{All};
ghost use Rattle.st_known.specs.Known.{AreKnown};
ghost use Rattle.st_lattice.specs.Lattice.{isa};
ghost use Rattle.st_lattice.specs.Stores.{extents, store};
ghost use Rattle.st_rows.specs.declared.fault.RowFault.TheVariants as row_fault;
ghost use Rattle.st_state.specs.State.{entities_of};
ghost use Rattle.st_store.specs.Stores.{IsPlace};
ghost use Rattle.st_catalog.specs.Stores.{AreOf};
ghost use Rattle.st_lookups.specs.Looks.{Peeks, Finds, OfState, is_cell};
ghost use Rattle.st_listings.specs.Listings.{AlsoKnown, known_of, numbered_cells};

use sqlite_items::Items;
use st_keys::laws_of_keys;
use st_known::{Known, KnownValue};
use st_lattice::{Attribute, Schema, StoreKind};
use st_lookups::{Visit, cells_in, extent_of, is_cell, serial_key, walk};
use st_page::PageFault;
use st_pages::{Pages, Places};
use st_rows::{RowFault, laws_of_rows};
use st_store::Store;
use st_values::{EntityId, Values};
use std::alloc::{AllocError, Global};

/// Whether an attribute is one of a type whose values are cells of rows.
fn is_cell_of(schema: &Schema, ty: u16, attribute: &Attribute) -> bool
    ensures { result ≡ (isa schema.now ty attribute.now.owner && is_cell attribute.now) }
{
    schema.isa(ty, attribute.owner) && is_cell(attribute)
}

/// The cells of a type's row with the numbers of their attributes, the last one first.
fn numbered_cells(
    alloc: Global,
    schema: &Schema,
    ty: u16,
    mut cells: Values,
) -> Result<Items<KnownValue>, AllocError>
    ensures { IfOk result (λ values. values ≡ numbered_cells schema.now ty cells) }
{
    let attributes = schema.attributes();
    let mut values = Items::new(alloc);
    let mut left = attributes.len();
    while left > 0 {
        left -= 1;
        let attribute = &attributes[left];
        if is_cell_of(schema, ty, attribute) {
            let Some(value) = cells.pop() else {
                return Ok(values);
            };
            let known = KnownValue {
                number: attribute.number,
                value,
            };
            match values.push(known) {
                Ok(()) => {}
                Err(fault) => return Err(fault),
            }
        }
    }
    Ok(values)
}

/// What is known of the entities of a type by their rows.
#[derive(Drop)]
struct Listing<'a> {
    schema: &'a Schema,
    ty: u16,
    known: Items<Known>,
}

impl Listing<'_> {
    /// Keeps what is known of one more entity.
    fn keep(&mut self, known: Known) -> Result<bool, RowFault>
        ensures schema { self.new.schema ≡ self.old.schema }
        ensures ty { self.new.ty ≡ self.old.ty }
        ensures more { IfOk result (λ more. more ≡ true) }
        ensures known { OnOk result (self.new.known ≡ self.old.known ++ known ∷ []) }
        ensures memory { IfErr result (λ fault. fault ≡ row_fault.Memory) }
    {
        match self.known.push(known) {
            Ok(()) => Ok(true),
            Err(_) => Err(RowFault::Memory),
        }
    }

    /// Keeps the entity with a serial, and its cells.
    fn keep_row(&mut self, alloc: Global, serial: u32, cells: Values) -> Result<bool, RowFault>
        ensures schema { self.new.schema ≡ self.old.schema }
        ensures ty { self.new.ty ≡ self.old.ty }
        ensures more { IfOk result (λ more. more ≡ true) }
        ensures known { OnOk result (self.new.known ≡ self.old.known ++ known_of self.old.schema.now self.old.ty serial cells ∷ []) }
        ensures memory { IfErr result (λ fault. fault ≡ row_fault.Memory) }
    {
        match numbered_cells(alloc, self.schema, self.ty, cells) {
            Ok(values) => {
                let entity = EntityId {
                    ty: self.ty,
                    serial,
                };
                self.keep(Known { entity, values })
            }
            Err(_) => Err(RowFault::Memory),
        }
    }
}

impl Visit for Listing<'_> {
    ghost use Rattle.std.specs.Prelude.{List, ◌≡◌, ◌≤◌, ◌<◌, ◌++◌, true, length};
    ghost use Rattle.st_lattice.specs.Stores.{row_width};
    ghost use Rattle.st_known.specs.declared.known.Known.{Known};
    ghost use Rattle.st_lookups.specs.Looks.{IsSoundRow};
    ghost use Rattle.st_listings.specs.Listings.{AreRead};

    ghost wide = { λ listing width. (width ≡ row_width listing.schema.now listing.ty) × (row_width listing.schema.now listing.ty ≤ 1000) × (listing.ty < length listing.schema.now.names) };

    ghost sound = { λ listing row. IsSoundRow listing.schema.now listing.ty row };

    ghost goes = { λ listing row. true };

    ghost told = { λ before after rows. (after.schema.now ≡ before.schema.now) × (after.ty ≡ before.ty)
        × ((read : List Known) × AreRead before.schema.now before.ty rows read × (after.known ≡ before.known ++ read)) };

    fn take(&mut self, alloc: Global, row: &[u8]) -> Result<bool, RowFault> {
        match cells_in(alloc, self.schema, self.ty, row) {
            Ok((serial, cells)) => self.keep_row(alloc, serial, cells),
            Err(fault) => Err(fault),
        }
    }
}

/// Adds the live entities of exactly one type, in order.
fn list_exact<S: Store, P: Pages>(
    alloc: Global,
    schema: &Schema,
    places: &Places,
    pages: &mut P,
    ty: u16,
    known: Items<Known>,
) -> Result<Items<Known>, PageFault>
    requires of { AreOf schema.now places.now }
    requires fair { All IsPlace places.now }
    ensures keeps { Peeks (P.follows pages.old pages.new) (P.attempt pages.old) (P.attempt pages.new) (P.met pages.old) (P.met pages.new) result }
    ensures finds { OfState S.holds (P.attempt pages.old) (P.attempt pages.new) schema.now places.now (λ array s. Finds (P.asked pages.old pages.new) (P.attempt pages.old) (P.attempt pages.new) array
        (AlsoKnown s known (filter (λ e. e.ty == ty) s.live)) (store StoreKind.Extent ty ∷ []) result) }
{
    laws_of_keys();
    laws_of_rows();
    let Some(place) = extent_of(schema, places, ty) else {
        return Ok(known);
    };
    let mut listing = Listing { schema, ty, known };
    match walk::<S, P, Listing>(alloc, place, pages, &serial_key(0), &mut listing) {
        Ok(()) => Ok(listing.known),
        Err(fault) => Err(fault),
    }
}

/// Adds the live entities of exactly one type, where that is another one or descends from it.
fn list_of<S: Store, P: Pages>(
    alloc: Global,
    schema: &Schema,
    places: &Places,
    pages: &mut P,
    ty: u16,
    other: u16,
    known: Items<Known>,
) -> Result<Items<Known>, PageFault>
    requires of { AreOf schema.now places.now }
    requires fair { All IsPlace places.now }
    requires known { other < length schema.now.names }
    ensures keeps { Peeks (P.follows pages.old pages.new) (P.attempt pages.old) (P.attempt pages.new) (P.met pages.old) (P.met pages.new) result }
    ensures finds { OfState S.holds (P.attempt pages.old) (P.attempt pages.new) schema.now places.now (λ array s. Finds (P.asked pages.old pages.new) (P.attempt pages.old) (P.attempt pages.new) array
        (AlsoKnown s known (filter (λ e. (e.ty == other) && isa s.schema other ty) s.live)) (extents schema.now ty) result) }
{
    if schema.isa(other, ty) {
        list_exact::<S, P>(alloc, schema, places, pages, other, known)
    } else {
        Ok(known)
    }
}

/// The live entities of a type, descendants included, in order, each with the values of its attributes that stand in the cells of its
/// row. Each page of the extents is read once.
///
/// # Errors
/// `BadPage` where a page or a row is bad; otherwise what a call of `Pages` answered, and `Memory`.
pub fn list_known<S: Store, P: Pages>(
    alloc: Global,
    schema: &Schema,
    places: &Places,
    pages: &mut P,
    ty: u16,
) -> Result<Items<Known>, PageFault>
    requires of { AreOf schema.now places.now }
    requires fair { All IsPlace places.now }
    ensures keeps { Peeks (P.follows pages.old pages.new) (P.attempt pages.old) (P.attempt pages.new) (P.met pages.old) (P.met pages.new) result }
    ensures finds { OfState S.holds (P.attempt pages.old) (P.attempt pages.new) schema.now places.now (λ array s. Finds (P.asked pages.old pages.new) (P.attempt pages.old) (P.attempt pages.new) array
        (λ known. AreKnown s (entities_of s ty) known) (extents schema.now ty) result) }
{
    let mut known = Items::new(alloc);
    for other in 0..schema.type_count() {
        match list_of::<S, P>(alloc, schema, places, pages, ty, other, known) {
            Ok(more) => known = more,
            Err(fault) => return Err(fault),
        }
    }
    Ok(known)
}
