//! What is stored for a schema, by number.
ghost use Rattle.std.specs.Prelude.{◌≡◌, ◌++◌, ◌<◌, ◌^◌, length, map, IfOk, OnOk};
ghost use Rattle.std.specs.Option.{option_copied};
ghost use Rattle.st_lattice.specs.Lattice.{below};
ghost use Rattle.st_lattice.specs.Outline.{attribute};
ghost use Rattle.st_lattice.specs.Stores.{kind_number, store, keeps, keeps_one, stores_below, stores_of, extents, cell, whole};

use crate::{Attribute, Schema};
use sqlite_items::Items;
use std::alloc::{AllocError, Global};

/// What a store has.
#[derive(Clone, Copy, Debug, PartialEq, Eq)]
pub enum StoreKind {
    /// The rows of a type's entities.
    Extent,
    /// The values of an attribute that has sets.
    Set,
    /// The index of an attribute.
    Index,
    /// The inverse of an attribute.
    Inverse,
    /// The values of an attribute that stand apart from the rows.
    Column,
}

/// A list of numbers of stores.
pub type StoreIds = Items<u32>;

fn kind_number(kind: StoreKind) -> u32
    ensures value { result ≡ kind_number kind }
    ensures small { result < 5 }
{
    match kind {
        StoreKind::Extent => 0,
        StoreKind::Set => 1,
        StoreKind::Index => 2,
        StoreKind::Inverse => 3,
        StoreKind::Column => 4,
    }
}

/// The number of a store: its kind times 65,536, and the number of its type or attribute.
pub fn store(kind: StoreKind, number: u16) -> u32
    ensures { result ≡ store kind number }
{
    kind_number(kind) * 65_536 + number as u32
}

fn keeps(kind: StoreKind, attribute: &Attribute) -> bool
    ensures { result ≡ keeps kind attribute.now }
{
    match kind {
        StoreKind::Extent => false,
        StoreKind::Set => attribute.many,
        StoreKind::Index => attribute.index,
        StoreKind::Inverse => attribute.inverse.is_some(),
        StoreKind::Column => attribute.column,
    }
}

fn keeps_one(kind: StoreKind, attribute: Option<&Attribute>) -> bool
    ensures { result ≡ keeps_one kind (option_copied attribute.entry) }
{
    match attribute {
        Some(attribute) => keeps(kind, attribute),
        None => false,
    }
}

fn push_extents(schema: &Schema, into: &mut StoreIds) -> Result<(), AllocError>
    ensures { OnOk result (into.new ≡ into.old ++ map (store StoreKind.Extent) (below (length schema.now.names))) }
{
    for ty in 0..schema.type_count() {
        into.push(store(StoreKind::Extent, ty))?;
    }
    Ok(())
}

fn push_stores(schema: &Schema, kind: StoreKind, into: &mut StoreIds) -> Result<(), AllocError>
    ensures { OnOk result (into.new ≡ into.old ++ stores_below schema.now kind schema.now.next) }
{
    for number in 0..schema.next_attribute() {
        if keeps_one(kind, schema.attribute(number)) {
            into.push(store(kind, number))?;
        }
    }
    Ok(())
}

/// The extents of a type and of all that descend from it.
fn extents(alloc: Global, schema: &Schema, ty: u16) -> Result<StoreIds, AllocError>
    ensures { IfOk result (λ stores. stores ≡ extents schema.now ty) }
{
    let mut stores = Items::new(alloc);
    for other in 0..schema.type_count() {
        if schema.isa(other, ty) {
            stores.push(store(StoreKind::Extent, other))?;
        }
    }
    Ok(stores)
}

impl Schema {
    /// The numbers of all stores, ascending: an extent for each type, then the sets, the indexes, the inverses and the
    /// columns of attributes.
    pub fn stores_of(&self, alloc: Global) -> Result<StoreIds, AllocError>
        ensures { IfOk result (λ stores. stores ≡ stores_of self.now) }
    {
        let mut stores = Items::new(alloc);
        push_extents(self, &mut stores)?;
        push_stores(self, StoreKind::Set, &mut stores)?;
        push_stores(self, StoreKind::Index, &mut stores)?;
        push_stores(self, StoreKind::Inverse, &mut stores)?;
        push_stores(self, StoreKind::Column, &mut stores)?;
        Ok(stores)
    }

    /// Where an attribute's values are: the extents of all types that have it, and the stores of its set and its column,
    /// of which it may have none.
    pub fn cell(&self, alloc: Global, attribute: &Attribute) -> Result<StoreIds, AllocError>
        ensures { IfOk result (λ stores. stores ≡ cell self.now attribute.now) }
    {
        let mut stores = extents(alloc, self, attribute.owner)?;
        stores.push(store(StoreKind::Set, attribute.number))?;
        stores.push(store(StoreKind::Column, attribute.number))?;
        Ok(stores)
    }

    /// All that changes with an attribute's value: its cell, its index and its inverse, of which it may have none.
    pub fn whole(&self, alloc: Global, attribute: &Attribute) -> Result<StoreIds, AllocError>
        ensures { IfOk result (λ stores. stores ≡ whole self.now attribute.now) }
    {
        let mut stores = self.cell(alloc, attribute)?;
        stores.push(store(StoreKind::Index, attribute.number))?;
        stores.push(store(StoreKind::Inverse, attribute.number))?;
        Ok(stores)
    }
}
