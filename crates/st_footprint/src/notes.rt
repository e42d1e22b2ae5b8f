//! What is noted of types and attributes.
ghost use Rattle.std.specs.Prelude.{◌≡◌, flat_map, OnOk};
ghost use Rattle.st_lattice.specs.Lattice.{attributes_in};
ghost use Rattle.st_lattice.specs.Stores.{extents, cell, whole, aside};
ghost use Rattle.st_footprint.specs.Noted.{noted};

use crate::Footprint;
use st_lattice::{Attribute, Schema, StoreKind, store};
use std::alloc::{AllocError, Global};

/// Notes the extents of a type and of all that descend from it.
pub(crate) fn note_extents(
    alloc: Global,
    schema: &Schema,
    ty: u16,
    into: &mut Footprint,
) -> Result<(), AllocError>
    ensures { OnOk result (into.new ≡ noted (extents schema.now ty) into.old) }
{
    let types = schema.descendants(alloc, ty)?;
    for other in types.as_slice() {
        into.note(store(StoreKind::Extent, *other))?;
    }
    Ok(())
}

/// Notes where an attribute's values are.
pub(crate) fn note_cell(
    alloc: Global,
    schema: &Schema,
    attribute: &Attribute,
    into: &mut Footprint,
) -> Result<(), AllocError>
    ensures { OnOk result (into.new ≡ noted (cell schema.now attribute.now) into.old) }
{
    let stores = schema.cell(alloc, attribute)?;
    into.note_all(stores.as_slice())
}

/// Notes all that changes with an attribute's value.
pub(crate) fn note_whole(
    alloc: Global,
    schema: &Schema,
    attribute: &Attribute,
    into: &mut Footprint,
) -> Result<(), AllocError>
    ensures { OnOk result (into.new ≡ noted (whole schema.now attribute.now) into.old) }
{
    let stores = schema.whole(alloc, attribute)?;
    into.note_all(stores.as_slice())
}

fn note_aside(attribute: &Attribute, into: &mut Footprint) -> Result<(), AllocError>
    ensures { OnOk result (into.new ≡ noted (aside attribute.now) into.old) }
{
    into.note(store(StoreKind::Set, attribute.number))?;
    into.note(store(StoreKind::Column, attribute.number))?;
    into.note(store(StoreKind::Index, attribute.number))?;
    into.note(store(StoreKind::Inverse, attribute.number))
}

/// Notes what a type's attributes have beside the rows.
pub(crate) fn note_asides(schema: &Schema, ty: u16, into: &mut Footprint) -> Result<(), AllocError>
    ensures { OnOk result (into.new ≡ noted (flat_map aside (attributes_in schema.now ty)) into.old) }
{
    for attribute in schema.attributes() {
        if schema.isa(ty, attribute.owner) {
            note_aside(attribute, into)?;
        }
    }
    Ok(())
}
