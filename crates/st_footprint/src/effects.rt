//! What is noted of what a statement does by itself.
ghost use Rattle.std.specs.Prelude.{◌≡◌, ◌++◌, flat_map, OnOk};
ghost use Rattle.std.specs.Option.{option_copied};
ghost use Rattle.st_lattice.specs.Lattice.{attribute_of};
ghost use Rattle.st_query.specs.Written.{query_terms, terms_of};
ghost use Rattle.st_query.specs.Footprint.{make_stores, cell_stores, cells_stores, key_stores, find_stores, query_stores, effect_stores};
ghost use Rattle.st_footprint.specs.Noted.{noted};
ghost use Rattle.st_footprint.specs.Terms.{targets};

use crate::Footprint;
use crate::deletes::note_delete;
use crate::notes::{note_asides, note_extents, note_whole};
use crate::paths::{note_all_wholes, note_called};
use st_lattice::{Attribute, Schema, StoreKind, store};
use st_query::{Cell, Query, Statement, Term, Variable};
use std::alloc::{AllocError, Global};

/// Notes what a new entity of a type has: its extent, and what its attributes have beside it.
fn note_make(schema: &Schema, ty: Option<u16>, into: &mut Footprint) -> Result<(), AllocError>
    ensures { OnOk result (into.new ≡ noted (make_stores schema.now ty) into.old) }
{
    match ty {
        Some(ty) => {
            into.note(store(StoreKind::Extent, ty))?;
            note_asides(schema, ty, into)
        }
        None => Ok(()),
    }
}

/// Notes an attribute of a type that is set.
fn note_set(
    alloc: Global,
    schema: &Schema,
    attribute: Option<&Attribute>,
    into: &mut Footprint,
) -> Result<(), AllocError>
    ensures { OnOk result (into.new ≡ noted (cell_stores schema.now (option_copied attribute.entry)) into.old) }
{
    match attribute {
        Some(attribute) => note_whole(alloc, schema, attribute, into),
        None => Ok(()),
    }
}

fn note_cells_of(
    alloc: Global,
    schema: &Schema,
    cells: &[Cell],
    ty: u16,
    into: &mut Footprint,
) -> Result<(), AllocError>
    ensures { OnOk result (into.new ≡ noted (flat_map (λ c. cell_stores schema.now (attribute_of schema.now ty c.name)) cells.now) into.old) }
{
    for cell in cells {
        note_set(
            alloc,
            schema,
            schema.attribute_of(ty, cell.name.as_slice()),
            into,
        )?;
    }
    Ok(())
}

/// Notes the attributes of a type that are set.
fn note_cells(
    alloc: Global,
    schema: &Schema,
    cells: &[Cell],
    ty: Option<u16>,
    into: &mut Footprint,
) -> Result<(), AllocError>
    ensures { OnOk result (into.new ≡ noted (cells_stores schema.now cells.now ty) into.old) }
{
    match ty {
        Some(ty) => note_cells_of(alloc, schema, cells, ty, into),
        None => Ok(()),
    }
}

/// Notes the index and the inverse of an attribute that is looked up.
fn note_key(attribute: Option<&Attribute>, into: &mut Footprint) -> Result<(), AllocError>
    ensures { OnOk result (into.new ≡ noted (key_stores (option_copied attribute.entry)) into.old) }
{
    match attribute {
        Some(attribute) => {
            into.note(store(StoreKind::Index, attribute.number))?;
            into.note(store(StoreKind::Inverse, attribute.number))
        }
        None => Ok(()),
    }
}

fn note_find(
    alloc: Global,
    schema: &Schema,
    key: &[u8],
    ty: Option<u16>,
    into: &mut Footprint,
) -> Result<(), AllocError>
    ensures { OnOk result (into.new ≡ noted (find_stores schema.now key.now ty) into.old) }
{
    match ty {
        Some(ty) => {
            note_key(schema.attribute_of(ty, key), into)?;
            note_extents(alloc, schema, ty, into)
        }
        None => Ok(()),
    }
}

/// Notes the entities of a query's type, and all that has to do with the features that its terms name.
fn note_query(
    alloc: Global,
    schema: &Schema,
    query: &Query,
    terms: &[&Term],
    ty: Option<u16>,
    into: &mut Footprint,
) -> Result<(), AllocError>
    requires { targets terms.now ≡ query_terms query.now }
    ensures { OnOk result (into.new ≡ noted (query_stores schema.now query.now ty) into.old) }
{
    match ty {
        Some(ty) => {
            note_extents(alloc, schema, ty, into)?;
            note_all_wholes(alloc, schema, terms, into)
        }
        None => Ok(()),
    }
}

fn note_ensure(
    alloc: Global,
    schema: &Schema,
    cells: &[Cell],
    ty: Option<u16>,
    into: &mut Footprint,
) -> Result<(), AllocError>
    ensures { OnOk result (into.new ≡ noted (make_stores schema.now ty ++ cells_stores schema.now cells.now ty) into.old) }
{
    note_make(schema, ty, into)?;
    note_cells(alloc, schema, cells, ty, into)
}

/// Notes what a statement does by itself.
pub(crate) fn note_effects(
    alloc: Global,
    schema: &Schema,
    variables: &[Variable],
    statement: &Statement,
    terms: &[&Term],
    into: &mut Footprint,
) -> Result<(), AllocError>
    requires { targets terms.now ≡ terms_of statement.now }
    ensures { OnOk result (into.new ≡ noted (effect_stores schema.now variables.now statement.now) into.old) }
{
    match statement {
        Statement::Make { ty, .. } => note_make(schema, schema.type_named(ty.as_slice()), into),
        Statement::Set { attribute, .. }
        | Statement::Add { attribute, .. }
        | Statement::Take { attribute, .. } => {
            note_called(alloc, schema, attribute.as_slice(), into)
        }
        Statement::Delete { target } => note_delete(alloc, schema, variables, target, into),
        Statement::Find { ty, key, .. } => note_find(
            alloc,
            schema,
            key.as_slice(),
            schema.type_named(ty.as_slice()),
            into,
        ),
        Statement::Ensure { ty, cells, .. } => note_ensure(
            alloc,
            schema,
            cells.as_slice(),
            schema.type_named(ty.as_slice()),
            into,
        ),
        Statement::ForEach { query } => note_query(
            alloc,
            schema,
            query,
            terms,
            schema.type_named(query.ty.as_slice()),
            into,
        ),
        Statement::Let { .. } | Statement::Print { .. } | Statement::Abort => Ok(()),
    }
}
